// The lines that are no node's: the verdict, and a map's head.
use crate::text::Out;

impl Out<'_> {
    ghost use Rattle.rules.specs.definitions.Report.{refused_line};
    ghost use Rattle.report.specs.Written.{RoomFor, Appended, accepted_line, map_head};

    // A refusal: its number, place and variable.
    pub fn put_refused(&mut self, number: u32, place: u32, variable: u32)
        requires { RoomFor 41 self.old }
        ensures { Appended 41 self.old self.new (refused_line number place variable) }
    {
        self.put(b"refused ");
        self.put_decimal(number);
        self.put(b" ");
        self.put_decimal(place);
        self.put(b" ");
        self.put_decimal(variable);
        self.put(b"\n");
    }

    // The first line of what is accepted: how many lines were checked.
    pub fn put_accepted(&mut self, lines: u32)
        requires { RoomFor 20 self.old }
        ensures { Appended 20 self.old self.new (accepted_line lines) }
    {
        self.put(b"accepted ");
        self.put_decimal(lines);
        self.put(b"\n");
    }

    // A map's first line: its variable and its root.
    pub fn put_map_head(&mut self, variable: u32, root: u32)
        requires { RoomFor 31 self.old }
        ensures { Appended 31 self.old self.new (map_head variable root) }
    {
        self.put(b"map ");
        self.put_decimal(variable);
        self.put(b" root ");
        self.put_decimal(root);
        self.put(b"\n");
    }
}

// What is printed for a reply of checking and the tables that it leaves.
use crate::text::Out;
use rules::Reply;

impl Out<'_> {
    ghost use Rattle.std.specs.Prelude.{◌≡◌};
    ghost use Rattle.report.specs.Written.{RoomFor, Appended};
    ghost use Rattle.report.specs.Tabled.{reply_text, Printable};

    // The refusal's line, or the verdict and the maps of what is accepted.
    pub fn put_reply(&mut self, reply: Reply, prefix: &[u32], nodes: &[u32], roots: &[u32])
        requires { (reply.number ≡ 0 → Printable prefix.now nodes.now roots.now reply.lines) × (RoomFor 934404 self.old) }
        ensures { Appended 934404 self.old self.new (reply_text reply prefix.now nodes.now roots.now) }
    {
        if reply.number == 0 {
            self.put_accepted(reply.lines);
            self.put_maps(prefix, nodes, roots, reply.lines);
        } else {
            self.put_refused(reply.number, reply.place, reply.variable);
        }
    }
}

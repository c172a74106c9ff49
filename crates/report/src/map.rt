// A map's lines: its variable and root, then its nodes, falling.
ghost use Rattle.std.specs.Prelude.{◌≡◌, length};
ghost use Rattle.rules.specs.definitions.Limits.{lines_most};
ghost use Rattle.rules.specs.statements.Sound.{InRange};
ghost use Rattle.report.specs.Marks.{with_ends};

use crate::text::Out;
use maps::Column;
use rules::Node;
use rules::limits::LINE_PLACES;

// Marks a node's ends.
fn mark_ends(marks: &mut [bool], node: Node)
    requires { (InRange node) × (length marks.old ≡ lines_most) }
    ensures { marks.new ≡ with_ends node marks.old }
{
    if let Node::Branch { a, b, .. } = node {
        marks[(b - 1) as usize] = true;
        marks[(a - 1) as usize] = true;
    }
}

impl Out<'_> {
    ghost use Rattle.std.specs.Prelude.{◌+◌, ◌*◌};
    ghost use Rattle.rules.specs.definitions.Report.{nodes_falling, node_line, joined, map_lines};
    ghost use Rattle.maps.specs.Columns.{column_of, Numbered};
    ghost use Rattle.report.specs.Written.{RoomFor, Appended};

    // The lines of a map's nodes, falling: each number from the root down that is marked when it comes.
    fn put_nodes(&mut self, column: Column<'_>, root: u32)
        requires { (Numbered root) × (RoomFor (57 * root) self.old) }
        ensures { Appended (57 * root) self.old self.new (joined (node_line (column_of column.entry)) (nodes_falling (column_of column.entry) root)) }
    {
        let mut marks = [false; LINE_PLACES];
        marks[(root - 1) as usize] = true;
        for k in (1..=root).rev() {
            if marks[(k - 1) as usize] {
                let node = column.node(k);
                self.put_node_line(k, node);
                mark_ends(&mut marks[..], node);
            }
        }
    }

    // A map whole: its variable and root, then its nodes. It takes at most 58,399 bytes.
    pub fn put_map(&mut self, column: Column<'_>, root: u32, variable: u32)
        requires { (Numbered root) × (RoomFor 58399 self.old) }
        ensures { Appended 58399 self.old self.new (map_lines (column_of column.entry) root variable) }
    {
        self.put_map_head(variable, root);
        self.put_nodes(column, root);
    }
}

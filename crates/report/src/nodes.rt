// A map's nodes, line by line.
use crate::text::Out;
use rules::{Node, Value};

impl Out<'_> {
    ghost use Rattle.rules.specs.definitions.Report.{value_name, node_text};
    ghost use Rattle.report.specs.Written.{RoomFor, Appended, numbered};

    // A leaf's value, after a space.
    #[tactic(auto, using(crate::proofs::Laws::wider), unfolding(rules::specs::definitions::Bytes::text))]
    fn put_value(&mut self, value: Value)
        requires { RoomFor 5 self.old }
        ensures { Appended 5 self.old self.new (value_name value) }
    {
        match value {
            Value::Star => self.put(b" star"),
            Value::One => self.put(b" one"),
            Value::Zero => self.put(b" zero"),
        }
    }

    // A branch: its variable, its end for 1 and its end for 0.
    fn put_branch(&mut self, x: u32, a: u32, b: u32)
        requires { RoomFor 46 self.old }
        ensures { Appended 46 self.old self.new (node_text (Node.Branch x a b)) }
    {
        self.put(b" if ");
        self.put_decimal(x);
        self.put(b" then ");
        self.put_decimal(b);
        self.put(b" else ");
        self.put_decimal(a);
    }

    // What stands behind a node's number.
    #[tactic(auto, using(crate::proofs::Laws::nothing, crate::proofs::Laws::wider))]
    fn put_node(&mut self, node: Node)
        requires { RoomFor 46 self.old }
        ensures { Appended 46 self.old self.new (node_text node) }
    {
        match node {
            Node::None => {}
            Node::Leaf(value) => self.put_value(value),
            Node::Branch { x, a, b } => self.put_branch(x, a, b),
        }
    }

    // A node's line.
    pub fn put_node_line(&mut self, number: u32, node: Node)
        requires { RoomFor 57 self.old }
        ensures { Appended 57 self.old self.new (numbered number node) }
    {
        self.put_decimal(number);
        self.put_node(node);
        self.put(b"\n");
    }
}

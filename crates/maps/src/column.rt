// A column of a node table: the nodes of one universal, a word of each row.
ghost use Rattle.std.specs.Prelude.{◌≡◌, ◌<◌, ◌≤◌, length};
ghost use Rattle.rules.specs.definitions.Limits.{universals_most};
ghost use Rattle.rules.specs.definitions.Layout.{map_words};
ghost use Rattle.rules.specs.definitions.Maps.{star?};
ghost use Rattle.rules.specs.statements.Sound.{InRange};

use crate::nodes::read_node;
use rules::limits::ROW_WORDS;
use rules::{Node, Value};

// Column `index`, counted from 0, of a node table of the full length.
// Kept: nodes are named by numbers, since C lends the table and nothing is allocated.
#[derive(Clone, Copy)]
pub struct Column<'a> {
    pub nodes: &'a [u32],
    pub index: usize,
    ghost long: { map_words ≤ length nodes.now },
    ghost in_range: { index < universals_most },
}

impl Column<'_> {
    ghost use Rattle.maps.specs.Columns.{column_of, Numbered};

    // Node `at` of the column.
    // Kept: a number's range as a clause, since numbers come out of the words that C lends, and a type for them would be
    // made and taken apart at each.
    #[tactic(auto, using(crate::proofs::Columns::table_node), unfolding(rules::specs::definitions::Layout::map_words))]
    pub fn node(self, at: u32) -> Node
        requires { Numbered at }
        ensures { (result ≡ column_of self.entry at) × InRange result }
    {
        read_node(self.nodes[(at - 1) as usize * ROW_WORDS + self.index])
    }

    // Whether node `at` is one star leaf.
    pub fn is_star(self, at: u32) -> bool
        requires { Numbered at }
        ensures { result ≡ star? (column_of self.entry at) }
    {
        self.node(at) == Node::Leaf(Value::Star)
    }
}

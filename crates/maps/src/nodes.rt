// A node's word and back.
ghost use Rattle.std.specs.Prelude.{◌≡◌};
ghost use Rattle.rules.specs.definitions.Maps.{node_of, node_word};
ghost use Rattle.rules.specs.statements.Sound.{InRange};

use rules::limits::{
    BRANCH_END, BRANCH_MARK, END_STEP, ONE_WORD, STAR_WORD, VARIABLE_STEP, ZERO_WORD,
};
use rules::{Node, Value};

// The node that a word stands for.
// Kept: functions, a pair: node_word asks that the numbers are in range, which no From can, and this is its way back.
#[tactic(auto, unfolding(rules::specs::definitions::Maps::node_of))]
pub fn read_node(word: u32) -> Node
    ensures { (result ≡ node_of word) × InRange result }
{
    match word {
        STAR_WORD => Node::Leaf(Value::Star),
        ONE_WORD => Node::Leaf(Value::One),
        ZERO_WORD => Node::Leaf(Value::Zero),
        BRANCH_MARK..BRANCH_END => {
            let w = word - BRANCH_MARK;
            Node::Branch {
                x: w / VARIABLE_STEP + 1,
                a: w / END_STEP % END_STEP + 1,
                b: w % END_STEP + 1,
            }
        }
        _ => Node::None,
    }
}

// The word of a node whose numbers are in range.
#[tactic(auto, unfolding(rules::specs::definitions::Maps::node_word))]
pub fn node_word(n: Node) -> u32
    requires { InRange n }
    ensures { result ≡ node_word n }
{
    match n {
        Node::None => 0,
        Node::Leaf(v) => v as u32,
        Node::Branch { x, a, b } => BRANCH_MARK
            + (x - 1) * VARIABLE_STEP
            + (a - 1) * END_STEP
            + (b - 1),
    }
}

// Playing: the walk from a map's root to a leaf, by falling node numbers.
ghost use Rattle.std.specs.Prelude.{◌≡◌};
ghost use Rattle.rules.specs.definitions.Sets.{has};
ghost use Rattle.rules.specs.definitions.Maps.{walk};
ghost use Rattle.rules.specs.definitions.Services.{playing};
ghost use Rattle.sets.specs.Values.{set_of};
ghost use Rattle.maps.specs.Columns.{column_of, Numbered};
ghost use Rattle.maps.specs.Playing.{outcome, Plays};

use crate::column::Column;
use rules::limits::{LINES_MOST, MAP_WORDS, UNIVERSALS_MOST};
use rules::refusals::Refusal;
use rules::{Node, Value};
use sets::Set;

impl Column<'_> {
    // The value that the walk from node `at` comes to under the settings, None where it is broken. It
    // goes on at smaller nodes alone, so that it ends.
    #[tactic(auto, using(crate::proofs::Plays::outcome_at, crate::proofs::Plays::outcome_noting))]
    fn follow(&self, at: u32, settings: Set) -> Option<Value>
        requires { Numbered at }
        ensures { result ≡ outcome (walk (column_of self.now) (has (set_of settings)) at) }
    {
        match self.node(at) {
            Node::Leaf(v) => Some(v),
            Node::Branch { x, a, b } if a < at && b < at => {
                self.follow(if settings.has(x) { b } else { a }, settings)
            }
            _ => None,
        }
    }
}

// The value that the map at `root` of a column, counted from 1, plays; or refusal 41 or 42.
#[tactic(auto, unfolding(rules::specs::definitions::Services::playing, rules::specs::definitions::Layout::map_words))]
pub fn play(column: u32, root: u32, nodes: &[u32], settings: Set) -> Result<Value, Refusal>
    ensures { Plays (playing column root nodes.now (set_of settings)) result }
{
    if column == 0
        || UNIVERSALS_MOST < column
        || root == 0
        || LINES_MOST < root
        || nodes.len() < MAP_WORDS
    {
        return Err(Refusal::PlayRange);
    }
    let column = Column {
        nodes,
        index: (column - 1) as usize,
    };
    column.follow(root, settings).ok_or(Refusal::PlayWord)
}

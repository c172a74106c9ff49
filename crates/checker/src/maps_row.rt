// A resolution's maps: for each universal in order its node and its root, or the first refusal.
ghost use Rattle.std.specs.Prelude.{◌≡◌, not, ◌+◌, ◌<◌, get_or};
ghost use Rattle.rules.specs.declared.Node.TheVariants as N;
ghost use Rattle.rules.specs.definitions.Limits.{universals_most};
ghost use Rattle.rules.specs.definitions.Refusals.{not_left};
ghost use Rattle.rules.specs.definitions.Sets.{has};
ghost use Rattle.rules.specs.definitions.Formula.{universals};
ghost use Rattle.rules.specs.statements.Sound.{InRange, Sound};
ghost use Rattle.rules.specs.definitions.Lines.{in_set};
ghost use Rattle.sets.specs.Values.{set_of};
ghost use Rattle.maps.specs.Columns.{column_of, Numbered};
ghost use Rattle.checker.specs.Game.{GameOf};
ghost use Rattle.checker.specs.Selects.{strict_select};
ghost use Rattle.checker.specs.MapRows.{
  SomeResolving,
  EachResolving,
  LeftSet,
  Place,
  root_word,
  Enters,
  Keeps,
  Gets,
  AllGet,
  row_made,
};

use crate::game::Game;
use crate::rows::MapRow;
use crate::select;
use maps::Column;
use rules::limits::ROW_WORDS;
use rules::refusals::{Fault, Refusal};
use rules::{Node, Resolution};
use sets::Set;

// What one universal gets: its node's word and its root.
#[derive(Clone, Copy)]
pub struct MapEntry {
    pub node: u32,
    pub root: u32,
}

// Whether the universal at offset j is in the merge set.
#[tactic(auto, using(theory::specs::laws::Bits::bit_test))]
fn is_chosen(merge: u16, j: usize) -> bool
    requires { j < universals_most }
    ensures { result ≡ in_set merge j }
{
    (merge >> j) & 1 == 1
}

// The root of a line for the universal at offset j.
#[tactic(auto, unfolding(rules::specs::definitions::Layout::map_words))]
fn root_of(roots: &[u32], j: usize, line: u32) -> u32
    requires { Place roots.now j line }
    ensures { result ≡ root_word roots.now j line }
{
    roots[ROW_WORDS * (line - 1) as usize + j]
}

// In the merge set: node i is (x, a, b), with root i; 30 unless x is left of the universal.
fn merge_entry(left: Set, x: u32, a: u32, b: u32, i: u32) -> Result<MapEntry, Refusal>
    requires { InRange (N.Branch x a b) }
    ensures { Enters (not (has (set_of left) x)) not_left (record { node = N.Branch x a b; root = i }) result }
{
    if !left.has(x) {
        return Err(Refusal::NotLeft);
    }
    let n = Node::Branch { x, a, b };
    Ok(MapEntry {
        node: maps::node_word(n),
        root: i,
    })
}

// Otherwise: no node, and the root that select keeps; 31 where it keeps none.
#[tactic(auto, using(crate::proofs::MapRows::keeps_root))]
fn select_entry(column: Column<'_>, a: u32, b: u32) -> Result<MapEntry, Refusal>
    requires { Numbered a × Numbered b × Sound (column_of column) a }
    ensures { Keeps (strict_select (column_of column.entry) a b) result }
{
    let root = select::select_root(column, a, b).ok_or(Refusal::NoSelect)?;
    Ok(MapEntry { node: 0, root })
}

// What the universal at offset j gets, from the set of what is left of it.
// Kept: two tables, as resolution_maps takes them.
fn map_entry(
    left: Set,
    nodes: &[u32],
    roots: &[u32],
    r: Resolution,
    i: u32,
    j: usize,
) -> Result<MapEntry, Refusal>
    requires { SomeResolving (λ R F. LeftSet R F j left) nodes.now roots.now r i }
    ensures { EachResolving (λ R F. LeftSet R F j left) nodes.now roots.now r i (λ R F rows. Gets R F rows r i j (get_or (universals F.prefix) j 0) result) }
{
    let a = root_of(roots, j, r.a as u32);
    let b = root_of(roots, j, r.b as u32);
    if is_chosen(r.merge, j) {
        return merge_entry(left, r.pivot as u32, a, b, i);
    }
    select_entry(Column { nodes, index: j }, a, b)
}

// The maps of the resolution at line i, into the row that is lent: a node and a root for each universal; or the first 30 or 31
// with its universal's variable. The row is lent, since a Result of it would be copied in parts.
// Kept: the node and the root table alone, since ProofRows would ask a caller for the line table too.
pub fn resolution_maps(
    g: &Game<'_>,
    nodes: &[u32],
    roots: &[u32],
    r: Resolution,
    i: u32,
    row: &mut MapRow,
) -> Result<(), Fault>
    requires { SomeResolving (λ R F. GameOf R F g.now) nodes.now roots.now r i }
    ensures { EachResolving (λ R F. GameOf R F g.now) nodes.now roots.now r i (λ R F rows. AllGet R F rows r i (row_made result row.new)) }
{
    row.nodes = [0; ROW_WORDS];
    row.roots = [0; ROW_WORDS];
    for (j, u) in g.universals[..g.universal_count as usize]
        .iter()
        .enumerate()
    {
        let e = map_entry(u.left, nodes, roots, r, i, j).map_err(|refusal| refusal.of(u.variable))?;
        row.nodes[j] = e.node;
        row.roots[j] = e.root;
    }
    Ok(())
}

// A line's row in the tables: its clause, and a node word and a root for each universal.
ghost use Rattle.std.specs.Prelude.{◌≡◌, ◌*◌, ◌≤◌, length, replicate};
ghost use Rattle.rules.specs.definitions.Layout.{set_words};
ghost use Rattle.rules.specs.definitions.Limits.{universals_most};
ghost use Rattle.sets.specs.Values.{clause_of};
ghost use Rattle.checker.specs.Rows.{clause_part};

use rules::limits::ROW_WORDS;
use sets::Clause;

// A place for each of 16 universals, unused places zero.
// Kept: two arrays, since they are the rows of two tables that C lends, each copied whole into its own.
#[derive(Clone, Copy)]
pub struct MapRow {
    pub nodes: [u32; ROW_WORDS],
    pub roots: [u32; ROW_WORDS],
}

impl MapRow {
    // The row with no node and no root.
    pub(crate) fn none() -> MapRow
        ensures { result ≡ record { nodes = replicate universals_most 0; roots = replicate universals_most 0 } }
    {
        MapRow {
            nodes: [0; ROW_WORDS],
            roots: [0; ROW_WORDS],
        }
    }
}

// The row of nodes and the row of roots that are lent become those of `row`.
pub fn write_row(nodes: &mut [u32], roots: &mut [u32], row: MapRow)
    requires { (length nodes.old ≡ universals_most) × (length roots.old ≡ universals_most) }
    ensures { (nodes.new ≡ row.nodes) × (roots.new ≡ row.roots) }
{
    nodes.copy_from_slice(&row.nodes);
    roots.copy_from_slice(&row.roots);
}

// The clause in row i of a table of clauses, rows counted from 1.
pub fn clause_at(table: &[u64], i: u32) -> Clause
    requires { (1 ≤ i) × (2 * set_words * i ≤ length table.now) }
    ensures { clause_of result ≡ clause_part table.now i }
{
    let w = Clause::words();
    let a = (i - 1) as usize * w;
    let e = a + w;
    Clause::read(&table[a..e])
}

// An axiom's row: the clause keeps its existential literals, and each universal gets a leaf.
ghost use Rattle.std.specs.Prelude.{◌≡◌, ◌≤◌, List, length};
ghost use Rattle.rules.specs.definitions.Limits.{universals_most};
ghost use Rattle.rules.specs.declared.Line.TheVariants as L;
ghost use Rattle.rules.specs.definitions.Formula.{Formula};
ghost use Rattle.rules.specs.definitions.Lines.{Row, falsifying, leaf_entry, each, line_made, Rules};
ghost use Rattle.sets.specs.Values.{clause_of};
ghost use Rattle.checker.specs.Game.{variables};
ghost use Rattle.checker.specs.Rows.{RowOf};
ghost use Rattle.checker.specs.Makes.{Makes, faulted, Whole};

use crate::game::{Game, Universal};
use crate::rows;
use crate::rows::MapRow;
use rules::limits::ROW_WORDS;
use rules::refusals::Refusal;
use rules::{Node, Value};
use sets::Clause;

// What a line makes: its clause and its row.
#[derive(Clone, Copy)]
pub struct Made {
    pub clause: Clause,
    pub row: MapRow,
}

// Zero if u stands plain in the clause, one if negated, star if absent.
#[tactic(auto, unfolding(sets::specs::Values::clause_of))]
fn falsify(clause: Clause, u: u32) -> Value
    ensures { result ≡ falsifying (clause_of clause) u }
{
    if clause.plain.has(u) {
        return Value::Zero;
    }
    if clause.negated.has(u) {
        return Value::One;
    }
    Value::Star
}

// The leaves at line i for the clause, one for each universal.
fn leaf_row(universals: &[Universal], clause: Clause, i: u32) -> MapRow
    requires { length universals.now ≤ universals_most }
    ensures { RowOf (each (leaf_entry (clause_of clause) i) (variables universals.now) 0) result }
{
    let mut nodes = [0u32; ROW_WORDS];
    let mut roots = [0u32; ROW_WORDS];
    for (j, u) in universals.iter().enumerate() {
        nodes[j] = maps::node_word(Node::Leaf(falsify(clause, u.variable)));
        roots[j] = i;
    }
    MapRow { nodes, roots }
}

// What the axiom with clause number c makes at line i; 23 if the formula has no such clause.
#[tactic(auto, using(crate::proofs::Formulas::axiom_cases))]
pub fn axiom_line(g: &Game<'_>, c: u32, i: u32) -> Result<Made, Refusal>
    requires { (R : Rules) × (F : Formula) × Whole R F g.now }
    ensures { (R : Rules) (F : Formula) (rows : List Row) → Whole R F g.now → Makes (line_made R F rows i (L.Axiom c)) (faulted result) }
{
    if c < 1 || g.count < c {
        return Err(Refusal::NoClause);
    }
    let clause = rows::clause_at(g.clauses, c);
    Ok(Made {
        clause: clause.kept_by(g.existentials),
        row: leaf_row(&g.universals[..g.universal_count as usize], clause, i),
    })
}

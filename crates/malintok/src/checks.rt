// Checking in tables that are long enough: cleared, read, checked, and cleared again where refused.
ghost use Rattle.std.specs.Prelude.{◌≤◌, length};
ghost use Rattle.rules.specs.definitions.Checking.{base, proof_checked};
ghost use Rattle.rules.specs.definitions.Formula.{Formula};
ghost use Rattle.rules.specs.definitions.Limits.{text_most};
ghost use Rattle.formula.specs.Tables.{SameFormulaTables};
ghost use Rattle.checker.specs.Tables.{words_of, SameProofTables};
ghost use Rattle.checker.specs.Runs.{Blank};
ghost use Rattle.checker.specs.Checks.{InTables, FilledTables, Checks};
ghost use Rattle.malintok.specs.Calls.{lent_of, CheckedIn, ProofIn};

use crate::replies::{accepted, rejected};
use checker::check;
use checker::tables::ProofTables;
use formula::reading::{Counts, read_in};
use formula::tables::FormulaTables;
use rules::Reply;
use rules::refusals::Refused;

// The proof over a formula that stands in its tables: the line count, or the first refusal.
fn check_filled(
    proof: &[u8],
    formula: &FormulaTables,
    count: u32,
    tables: &mut ProofTables,
) -> Result<u32, Refused>
    requires { Blank (words_of tables.old) × FilledTables formula.now.prefix.now count formula.now.clauses.now }
    ensures checks { (F : Formula) → InTables F formula.now.prefix.now count formula.now.clauses.now → Checks (proof_checked base F proof.now) (words_of tables.old) (words_of tables.new) result }
    ensures same { SameProofTables tables.old tables.new }
{
    check::check_proof(
        proof,
        &formula.prefix[..],
        count,
        &formula.clauses[..],
        tables,
    )
}

// The proof, after its formula was read into the first two tables and the others were cleared.
fn check_proof(
    proof: &[u8],
    formula: &mut FormulaTables,
    tables: &mut ProofTables,
    counts: Counts,
) -> Reply
    requires { Blank (words_of tables.old) × FilledTables formula.old.prefix.now counts.clauses formula.old.clauses.now }
    ensures answers { (F : Formula) → InTables F formula.old.prefix.now counts.clauses formula.old.clauses.now → ProofIn F proof.now counts (lent_of formula.old tables.old) result (lent_of formula.new tables.new) }
    ensures same { SameFormulaTables formula.old formula.new × SameProofTables tables.old tables.new }
{
    match check_filled(proof, formula, counts.clauses, tables) {
        Ok(lines) => accepted(counts, lines),
        Err(e) => {
            formula.clear();
            tables.clear();
            rejected(e)
        }
    }
}

// The text with the proof.
pub fn check_in(
    text: &[u8],
    proof: &[u8],
    formula: &mut FormulaTables,
    tables: &mut ProofTables,
) -> Reply
    requires { length text.now ≤ text_most }
    ensures answers { CheckedIn text.now proof.now (lent_of formula.old tables.old) result (lent_of formula.new tables.new) }
    ensures same { SameFormulaTables formula.old formula.new × SameProofTables tables.old tables.new }
{
    tables.clear();
    match read_in(text, formula) {
        Ok(counts) => check_proof(proof, formula, tables, counts),
        Err(e) => rejected(e),
    }
}

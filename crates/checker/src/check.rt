// The proof over a formula that the tables hold: its head, its lines, and the last clause.
ghost use Rattle.std.specs.Prelude.{◌≡◌};
ghost use Rattle.rules.specs.definitions.Formula.{Formula};
ghost use Rattle.rules.specs.definitions.Checking.{base, proof_checked};
ghost use Rattle.checker.specs.Tables.{words_of, SameProofTables};
ghost use Rattle.checker.specs.Runs.{Blank};
ghost use Rattle.checker.specs.Checks.{Headed, InTables, FilledTables, lines_checked, Checks};

use crate::tables::ProofTables;
use crate::{game, run};
use rules::refusals::{Refusal, Refused};

// The n lines of the proof, and the last clause: the line count, or the first refusal.
// Kept: shared slices, as check_proof takes them.
fn check_lines(
    proof: &[u8],
    n: u32,
    prefix: &[u32],
    count: u32,
    clauses: &[u64],
    tables: &mut ProofTables,
) -> Result<u32, Refused>
    requires { Headed proof.now n × Blank (words_of tables.old) × FilledTables prefix.now count clauses.now }
    ensures checks { (F : Formula) → InTables F prefix.now count clauses.now → Checks (lines_checked F n proof.now) (words_of tables.old) (words_of tables.new) result }
    ensures same { SameProofTables tables.old tables.new }
{
    let g = game::game_of(prefix, clauses, count);
    run::run(&g, proof, n as usize, tables)?;
    if !tables.clause(n).is_empty() {
        return Err(Refusal::NotEmpty.at(n));
    }
    Ok(n)
}

// The whole proof, its head first: the line count, or the first refusal.
// Kept: the formula's two tables as shared slices, which FormulaTables would ask to be lent alone.
pub fn check_proof(
    proof: &[u8],
    prefix: &[u32],
    count: u32,
    clauses: &[u64],
    tables: &mut ProofTables,
) -> Result<u32, Refused>
    requires { Blank (words_of tables.old) × FilledTables prefix.now count clauses.now }
    ensures checks { (F : Formula) → InTables F prefix.now count clauses.now → Checks (proof_checked base F proof.now) (words_of tables.old) (words_of tables.new) result }
    ensures same { SameProofTables tables.old tables.new }
{
    let n = proof::read_head(proof).map_err(|refusal| refusal.at(0))?;
    check_lines(proof, n, prefix, count, clauses, tables)
}

// All lines in order: each made after the rows before it, and written into its row.
ghost use Rattle.std.specs.Prelude.{◌≡◌, ◌+◌, ◌*◌, ◌≤◌, ◌<◌, length, drop};
ghost use Rattle.rules.specs.definitions.Layout.{head_bytes, record_bytes};
ghost use Rattle.rules.specs.definitions.Limits.{lines_most};
ghost use Rattle.rules.specs.definitions.Formula.{Formula};
ghost use Rattle.rules.specs.definitions.File.{split};
ghost use Rattle.rules.specs.definitions.Lines.{Rules};
ghost use Rattle.rules.specs.definitions.Checking.{all_lines};
ghost use Rattle.checker.specs.Tables.{words_of, SameProofTables};
ghost use Rattle.checker.specs.Makes.{Whole};
ghost use Rattle.checker.specs.Runs.{Blank, Ran};

use crate::game::Game;
use crate::lines::make_line;
use crate::tables::ProofTables;
use rules::limits::{HEAD_BYTES, RECORD_BYTES};
use rules::refusals::Refused;

// The n lines of the proof, into tables that hold no row yet; or the first line that is refused.
pub fn run(g: &Game<'_>, proof: &[u8], n: usize, tables: &mut ProofTables) -> Result<(), Refused>
    requires records { (n ≤ lines_most) × (head_bytes + record_bytes * n ≤ length proof.now) }
    requires blank { Blank (words_of tables.old) }
    requires formula { (R : Rules) × (F : Formula) × Whole R F g.now }
    ensures ran { (R : Rules) (F : Formula) → Whole R F g.now → Ran R F (all_lines R F (split n (drop head_bytes proof.now))) (words_of tables.old) (words_of tables.new) result }
    ensures same { SameProofTables tables.old tables.new }
{
    let records = &proof[HEAD_BYTES..HEAD_BYTES + RECORD_BYTES * n];
    for (i, record) in records.chunks_exact(RECORD_BYTES).enumerate() {
        let at = i as u32 + 1;
        match make_line(g, record, tables.rows(), at) {
            Ok(m) => tables.put_line(i, &m),
            Err(fault) => return Err(fault.at(at)),
        }
    }
    Ok(())
}

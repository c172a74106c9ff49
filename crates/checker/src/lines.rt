// One line: its record decoded, and what it makes after the rows that the tables hold.
ghost use Rattle.std.specs.Prelude.{◌≡◌, length};
ghost use Rattle.rules.specs.declared.Line.TheVariants as L;
ghost use Rattle.rules.specs.definitions.Layout.{record_bytes};
ghost use Rattle.rules.specs.definitions.Lines.{line_made, next_line};
ghost use Rattle.checker.specs.Tables.{rows_of};
ghost use Rattle.checker.specs.Makes.{SomeReady, EachMakes};

use crate::axioms::Made;
use crate::game::Game;
use crate::rows::MapRow;
use crate::tables::ProofRows;
use crate::{axioms, maps_row, resolutions};
use rules::refusals::Fault;
use rules::{Line, Resolution};

// What the resolution r makes at line i, or the first of 24 to 31 that refuses it.
fn resolution_line(g: &Game<'_>, rows: ProofRows<'_>, r: Resolution, i: u32) -> Result<Made, Fault>
    requires { SomeReady g.now (rows_of rows) i }
    ensures { EachMakes g.now (rows_of rows.entry) i (λ R F done. line_made R F done i (L.Resolve r)) result }
{
    let clause = resolutions::join_parents(g.existentials, g.universal_count, rows.lines, r, i)?;
    let mut row = MapRow::none();
    maps_row::resolution_maps(g, rows.nodes, rows.roots, r, i, &mut row)?;
    Ok(Made { clause, row })
}

// What the line after the rows makes, from its record, or why it is refused.
// Kept: a record as a slice of 8 bytes, as decode takes it.
pub fn make_line(g: &Game<'_>, rec: &[u8], rows: ProofRows<'_>, i: u32) -> Result<Made, Fault>
    requires { (length rec.now ≡ record_bytes) × SomeReady g.now (rows_of rows) i }
    ensures { EachMakes g.now (rows_of rows.entry) i (λ R F done. next_line R F done rec.now) result }
{
    match proof::decode(rec)? {
        // A refused axiom names no variable: `?` makes a fault of it.
        Line::Axiom(c) => Ok(axioms::axiom_line(g, c as u32, i)?),
        Line::Resolve(r) => resolution_line(g, rows, r, i),
    }
}

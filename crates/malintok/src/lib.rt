// The services: read a formula, check a formula text with a proof, play one map.
#![tactic(auto)]

mod checks;
mod replies;

ghost use Rattle.malintok.specs.Calls.{ReadCall, CheckCall, PlayCall};

use crate::checks::check_in;
use crate::replies::{read_reply, rejected};
use checker::tables::ProofTables;
use formula::reading::read_in;
use formula::tables::FormulaTables;
use rules::limits::{CLAUSE_WORDS, LINE_WORDS, MAP_WORDS, PREFIX_WORDS, TEXT_MOST};
use rules::refusals::Refusal;
use rules::{Played, Reply};
use sets::Set;

// Reads a formula's text into the prefix and clause tables.
// Kept: two slices, as C lends them.
pub fn malintok_read(text: &[u8], prefix: &mut [u32], clauses: &mut [u64]) -> Reply
    ensures { ReadCall text.now prefix.old clauses.old result prefix.new clauses.new }
{
    if prefix.len() < PREFIX_WORDS || clauses.len() < CLAUSE_WORDS {
        return rejected(Refusal::ShortTable.at(0));
    }
    if TEXT_MOST < text.len() {
        return rejected(Refusal::LongText.at(0));
    }
    let mut formula = FormulaTables { prefix, clauses };
    read_reply(read_in(text, &mut formula))
}

// Checks a formula's text with a proof, in the five lent tables.
// Kept: five slices, as C lends them.
pub fn malintok_check(
    text: &[u8],
    proof: &[u8],
    prefix: &mut [u32],
    clauses: &mut [u64],
    lines: &mut [u64],
    nodes: &mut [u32],
    roots: &mut [u32],
) -> Reply
    ensures { CheckCall text.now proof.now (record { prefix = prefix.old; clauses = clauses.old; lines = lines.old; nodes = nodes.old; roots = roots.old }) result prefix.new clauses.new lines.new nodes.new roots.new }
{
    if prefix.len() < PREFIX_WORDS
        || clauses.len() < CLAUSE_WORDS
        || lines.len() < LINE_WORDS
        || nodes.len() < MAP_WORDS
        || roots.len() < MAP_WORDS
    {
        return rejected(Refusal::ShortTable.at(0));
    }
    if TEXT_MOST < text.len() {
        return rejected(Refusal::LongText.at(0));
    }
    let mut formula = FormulaTables { prefix, clauses };
    let mut tables = ProofTables {
        lines,
        nodes,
        roots,
    };
    check_in(text, proof, &mut formula, &mut tables)
}

// Plays the map at a root of a column of a node table, on the settings: its value, or 41 or 42.
#[tactic(auto, unfolding(sets::specs::Values::set_of))]
pub fn malintok_play(column: u32, root: u32, nodes: &[u32], settings: u64) -> Played
    ensures { PlayCall column root nodes.now settings result }
{
    match maps::play(column, root, nodes, Set { word: settings }) {
        Ok(value) => Played {
            number: 0,
            value: value as u32,
        },
        Err(refusal) => Played {
            number: refusal.number(),
            value: 0,
        },
    }
}

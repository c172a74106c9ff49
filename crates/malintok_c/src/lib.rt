// The services for C: each export calls the service of its name and promises what that promises.
// Kept beside the services, with their slices: C needs exports in a crate of their own.
#![tactic(auto)]

ghost use Rattle.malintok.specs.Calls.{ReadCall, CheckCall, PlayCall};

use rules::{Played, Reply};

// Reads a formula's text into the prefix and clause tables.
#[unsafe(no_mangle)]
pub extern "C" fn malintok_read(text: &[u8], prefix: &mut [u32], clauses: &mut [u64]) -> Reply
    ensures { ReadCall text.now prefix.old clauses.old result prefix.new clauses.new }
{
    malintok::malintok_read(text, prefix, clauses)
}

// Checks a formula's text with a proof, in the five lent tables.
#[unsafe(no_mangle)]
pub extern "C" fn malintok_check(
    text: &[u8],
    proof: &[u8],
    prefix: &mut [u32],
    clauses: &mut [u64],
    lines: &mut [u64],
    nodes: &mut [u32],
    roots: &mut [u32],
) -> Reply
    ensures { CheckCall text.now proof.now (record { prefix = prefix.old; clauses = clauses.old; lines = lines.old; nodes = nodes.old; roots = roots.old }) result prefix.new clauses.new lines.new nodes.new roots.new }
{
    malintok::malintok_check(text, proof, prefix, clauses, lines, nodes, roots)
}

// Plays the map at a root of a column of a node table, on the settings: its value, or 41 or 42.
#[unsafe(no_mangle)]
pub extern "C" fn malintok_play(column: u32, root: u32, nodes: &[u32], settings: u64) -> Played
    ensures { PlayCall column root nodes.now settings result }
{
    malintok::malintok_play(column, root, nodes, settings)
}

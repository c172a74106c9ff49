// What the bench program prints, assembled in a lent buffer.
#![tactic(auto)]

mod lines;
mod map;
mod nodes;
mod reply;
mod table;
mod text;

ghost use Rattle.std.specs.Prelude.{◌≡◌, ◌≤◌, length};
ghost use Rattle.rules.specs.definitions.Report.{printed};
ghost use Rattle.report.specs.Calls.{report_most, Room, PrintCall};

use rules::limits::{CLAUSE_WORDS, LINE_WORDS, MAP_WORDS, PREFIX_WORDS};
use text::Out;

// Checks the text with the proof over the lent tables, and puts what 01 prints for them at the start of out: how many bytes.
// Kept: the slices and the buffer, which its clauses Room and PrintCall speak of.
pub fn print(
    text: &[u8],
    proof: &[u8],
    prefix: &mut [u32],
    clauses: &mut [u64],
    lines: &mut [u64],
    nodes: &mut [u32],
    roots: &mut [u32],
    out: &mut [u8],
) -> usize
    requires { Room (record { prefix = prefix.old; clauses = clauses.old; lines = lines.old; nodes = nodes.old; roots = roots.old }) out.old }
    ensures { PrintCall text.now proof.now (record { prefix = prefix.old; clauses = clauses.old; lines = lines.old; nodes = nodes.old; roots = roots.old }) out.old result out.new prefix.new clauses.new lines.new nodes.new roots.new }
{
    let reply = malintok::malintok_check(
        text,
        proof,
        &mut prefix[..],
        &mut clauses[..],
        &mut lines[..],
        &mut nodes[..],
        &mut roots[..],
    );
    let mut report = Out {
        bytes: &mut out[..],
        at: 0,
    };
    report.put_reply(reply, &prefix[..], &nodes[..], &roots[..]);
    report.at
}

// What 01 prints for the text and the proof, put at the start of the room: they are checked over tables of this function's own.
pub fn of<'a>(text: &[u8], proof: &[u8], room: &'a mut [u8]) -> &'a [u8]
    requires { report_most ≤ length room.old }
    ensures { result.now ≡ printed text.now proof.now }
{
    let mut prefix = [0u32; PREFIX_WORDS];
    let mut clauses = [0u64; CLAUSE_WORDS];
    let mut lines = [0u64; LINE_WORDS];
    let mut nodes = [0u32; MAP_WORDS];
    let mut roots = [0u32; MAP_WORDS];
    let n = print(
        text,
        proof,
        &mut prefix,
        &mut clauses,
        &mut lines,
        &mut nodes,
        &mut roots,
        &mut room[..],
    );
    &room[..n]
}

// Room for every report.
pub fn room() -> [u8; 1000000]
    ensures { report_most ≡ length result }
{
    [0; 1000000]
}

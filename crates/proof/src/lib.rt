// The proof file: its head, and a record of 8 bytes as a line.
#![tactic(auto)]

ghost use Rattle.std.specs.Prelude.{◌≡◌, ℕ, ◌+◌, ◌<◌, not, length};
ghost use Rattle.rules.specs.definitions.Layout.{record_bytes};
ghost use Rattle.rules.specs.definitions.Refusals.{numbered};
ghost use Rattle.rules.specs.definitions.Formula.{Formula};
ghost use Rattle.rules.specs.definitions.File.{pair_at, bare_tail, decoded};
ghost use Rattle.proof.specs.Head.{unmarked, head_of};

use rules::limits::{
    AXIOM_KIND, HEAD_BYTES, LINE_PLACES, MARK, RECORD_BYTES, RESOLUTION_KIND, VERSION,
};
use rules::refusals::Refusal;
use rules::{Line, Resolution};

// The two-byte number at a place, low byte first.
pub fn pair(bytes: &[u8], at: usize) -> u16
    requires { at + 1 < length bytes.now }
    ensures { result ≡ pair_at bytes.now at }
{
    u16::from_le_bytes([bytes[at], bytes[at + 1]])
}

// Bytes 3 to 7 of a record are zero.
fn bare(rec: &[u8]) -> bool
    requires { length rec.now ≡ record_bytes }
    ensures { result ≡ bare_tail rec.now }
{
    rec[3..].iter().all(|b| *b == 0)
}

// A record as a line, or why it is none.
// Kept: a slice of 8 bytes, since an array would ask more of a caller.
pub fn decode(rec: &[u8]) -> Result<Line, Refusal>
    requires { length rec.now ≡ record_bytes }
    ensures { numbered result ≡ decoded rec.now }
{
    match rec[0] {
        AXIOM_KIND if bare(rec) => Ok(Line::Axiom(pair(rec, 1))),
        AXIOM_KIND => Err(Refusal::AxiomTail),
        RESOLUTION_KIND => Ok(Line::Resolve(Resolution {
            a: pair(rec, 1),
            b: pair(rec, 3),
            pivot: rec[5],
            merge: pair(rec, 6),
        })),
        _ => Err(Refusal::BadKind),
    }
}

// The file has 7 bytes, the mark MRP and version 1.
fn marked(proof: &[u8]) -> bool
    ensures { not result ≡ unmarked proof.now }
{
    if proof.len() < HEAD_BYTES {
        return false;
    }
    proof.starts_with(&MARK) && pair(proof, 3) == VERSION
}

// The head's line count, or its first fault; the same for every formula.
pub fn read_head(proof: &[u8]) -> Result<u32, Refusal>
    ensures { (F : Formula) → numbered result ≡ head_of F proof.now }
{
    if !marked(proof) {
        return Err(Refusal::BadMark);
    }
    let n = pair(proof, 5) as usize;
    if proof.len() != HEAD_BYTES + RECORD_BYTES * n {
        return Err(Refusal::BadLength);
    }
    if n < 1 || LINE_PLACES < n {
        return Err(Refusal::BadLineCount);
    }
    Ok(n as u32)
}

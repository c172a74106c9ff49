// A token as a signed number, if it spells one; a token as a literal; a header number.
ghost use Rattle.std.specs.Prelude.{◌≡◌, cond, ◌≤◌, pos, neg_ℤ};
ghost use Rattle.rules.specs.definitions.Limits.{number_most};
ghost use Rattle.rules.specs.definitions.Text as text;
ghost use Rattle.formula.specs.Numbers.{spelled_number, literal_at, header_of};

use crate::words::Token;
use rules::limits::NUMBER_MOST;
use rules::refusals::{Refusal, Refused};
use sets::Literal;

const MINUS: u8 = b'-';

const ZERO: u8 = b'0';

const ONE: u8 = b'1';

const NINE: u8 = b'9';

// One digit more; past the limit the number stays there.
#[tactic(auto, using(crate::proofs::NumberLaws::grown_least))]
fn grown(n: u32, b: u8) -> u32
    requires { (n ≤ number_most) × (48 ≤ b) × (b ≤ 57) }
    ensures { (result ≡ text.grown n b) × (result ≤ number_most) }
{
    (n * 10 + u32::from(b - ZERO)).min(NUMBER_MOST)
}

// The number of a size, with its sign.
fn signed(n: u32, negated: bool) -> i32
    requires { n ≤ number_most }
    ensures { result ≡ cond negated (neg_ℤ (pos n)) (pos n) }
{
    let z = n as i32;
    if negated { -z } else { z }
}

// The digits, after those that gave `first`.
#[tactic(auto, using(crate::proofs::NumberLaws::sized_end, crate::proofs::NumberLaws::sized_none, crate::proofs::NumberLaws::sized_more))]
fn sized(digits: &[u8], first: u32, negated: bool) -> Option<i32>
    requires { first ≤ number_most }
    ensures { result ≡ spelled_number (text.sized negated first digits.now) }
{
    let mut n = first;
    for b in digits {
        if !b.is_ascii_digit() {
            return None;
        }
        n = grown(n, *b);
    }
    Some(signed(n, negated))
}

// A digit 1 to 9 and further digits.
#[tactic(auto, using(crate::proofs::NumberLaws::counting_none, crate::proofs::NumberLaws::counting_some))]
fn counting(word: &[u8], negated: bool) -> Option<i32>
    ensures { result ≡ spelled_number (text.counting negated word.now) }
{
    match word {
        [b @ ONE..=NINE, digits @ ..] => sized(digits, u32::from(*b - ZERO), negated),
        _ => None,
    }
}

// The number that a token spells, if it spells one.
#[tactic(auto, using(crate::proofs::NumberLaws::number_zero, crate::proofs::NumberLaws::number_minus, crate::proofs::NumberLaws::number_plain))]
fn number(word: &[u8]) -> Option<i32>
    ensures { result ≡ spelled_number (text.number_of word.now) }
{
    match word {
        [ZERO] => Some(0),
        [MINUS, digits @ ..] => counting(digits, true),
        _ => counting(word, false),
    }
}

// The literal that a token spells, or the refusal 3 with the token's offset.
pub fn literal_at(token: Token<'_>) -> Result<Literal, Refused>
    ensures { result ≡ literal_at (text.number_of token.entry.bytes.now) token.entry.at }
{
    let Some(n) = number(token.bytes) else {
        return Err(Refusal::BadToken.at(token.at));
    };
    Ok(Literal::from(n))
}

// A header number of at most `most`, or the refusal 3 or 4 with the token's offset.
pub fn header_number(token: Token<'_>, most: u32) -> Result<u32, Refused>
    ensures { result ≡ header_of most (text.number_of token.entry.bytes.now) token.entry.at }
{
    let l = literal_at(token)?;
    if l.negated {
        return Err(Refusal::BadToken.at(token.at));
    }
    if most < l.variable {
        return Err(Refusal::HeaderLimit.at(token.at));
    }
    Ok(l.variable)
}

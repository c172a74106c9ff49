// A resolution's clause, by the rules 24 to 29 in their order.
ghost use Rattle.std.specs.Prelude.{◌≡◌, ◌≤◌, length};
ghost use Rattle.rules.specs.definitions.Layout.{line_words};
ghost use Rattle.rules.specs.definitions.Limits.{lines_most, universals_most};
ghost use Rattle.rules.specs.definitions.Faults.{first_of};
ghost use Rattle.rules.specs.definitions.Lines.{earlier};
ghost use Rattle.sets.specs.Values.{set_of};
ghost use Rattle.checker.specs.Resolutions.{clause_tests, table_result, Joins};

use crate::rows;
use rules::Resolution;
use rules::refusals::Refusal;
use sets::{Clause, Set};

// A line before line i.
fn is_earlier(i: u32, a: u32) -> bool
    ensures { result ≡ earlier i a }
{
    1 <= a && a < i
}

// Both parents without the pivot's literals, joined; or the first of 24 to 29 that refuses.
// Kept: the line table alone, since ProofRows would ask a caller for two tables more.
#[tactic(auto, using(crate::proofs::Joins::joins), unfolding(rules::specs::definitions::Faults::first_of, sets::specs::Values::clause_of))]
pub fn join_parents(
    existentials: Set,
    universals: u32,
    lines: &[u64],
    r: Resolution,
    i: u32,
) -> Result<Clause, Refusal>
    requires { (line_words ≤ length lines.now) × (i ≤ lines_most) × (universals ≤ universals_most) }
    ensures { Joins (first_of (clause_tests (set_of existentials) universals lines.now i r)) (table_result lines.now r) result }
{
    let a = r.a as u32;
    let b = r.b as u32;
    let x = r.pivot as u32;
    if !is_earlier(i, a) || !is_earlier(i, b) {
        return Err(Refusal::NoParent);
    }
    if !existentials.has(x) {
        return Err(Refusal::NoPivot);
    }
    let first = rows::clause_at(lines, a);
    let second = rows::clause_at(lines, b);
    if !first.plain.has(x) {
        return Err(Refusal::LacksPlain);
    }
    if !second.negated.has(x) {
        return Err(Refusal::LacksNegated);
    }
    let most = 1u32 << universals;
    if most <= r.merge as u32 {
        return Err(Refusal::NoUniversal);
    }
    let clause = first.resolvent(second, x);
    if clause.two_faced() {
        return Err(Refusal::ResultBothWays);
    }
    Ok(clause)
}

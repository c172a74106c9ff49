// What a state keeps within its limits: the header's numbers, and what is bound so far.
ghost use Rattle.std.specs.Prelude.{◌≡◌, false, ◌+◌, ◌≤◌};
ghost use Rattle.rules.specs.definitions.Limits.{variables_most, universals_most, clauses_most};
ghost use Rattle.rules.specs.definitions.Sets.{has, with};
ghost use Rattle.sets.specs.Values.{set_of};
ghost use Rattle.formula.specs.Tallies.{tally};

use sets::Set;

// The header's numbers, each within its limit.
#[derive(Clone, Copy)]
pub struct Header {
    pub variables: u32,
    pub count: u32,
    ghost few_variables: { variables ≤ variables_most },
    ghost few_clauses: { count ≤ clauses_most },
}

// The variables bound, how many these are, and how many of them universal.
#[derive(Clone, Copy)]
pub struct Prefix {
    pub bound: Set,
    pub placed: u32,
    pub universals: u32,
    ghost counted: { placed ≡ tally (has (set_of bound)) variables_most },
    ghost few_universals: { universals ≤ universals_most },
}

impl Prefix {
    // One variable more is bound; with it so many are universal.
    #[tactic(auto, using(crate::proofs::StateLaws::tally_le, crate::proofs::StateLaws::tally_with))]
    pub fn with(self, v: u32, universals: u32) -> Prefix
        requires { (1 ≤ v) × (v ≤ variables_most) × (has (set_of self.bound) v ≡ false) × (universals ≤ universals_most) }
        ensures { (set_of result.bound ≡ with (set_of self.bound) v) × (result.placed ≡ self.placed + 1) × (result.universals ≡ universals) }
    {
        Prefix {
            bound: self.bound.with(v),
            placed: self.placed + 1,
            universals,
        }
    }
}

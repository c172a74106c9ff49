// Sets of variables, literals and clauses, by value. How many words a set has is known to the methods of Set alone.
#![tactic(auto)]

ghost use Rattle.std.specs.Prelude.{◌≡◌, ◌+◌, ◌*◌, ◌≤◌, length, take, drop};
ghost use Rattle.rules.specs.definitions.Limits.{variables_most};
ghost use Rattle.rules.specs.definitions.Layout.{set_words};
ghost use Rattle.rules.specs.definitions.Sets.{none, has, with, without, join, only, empty, meet};
ghost use Rattle.rules.specs.definitions.Formula.{no_literal, with_literal, has_opposite, kept_by, resolvent, two_faced, empty_clause};
ghost use Rattle.rules.specs.definitions.Tables.{clause_row};
ghost use Rattle.sets.specs.Values.{put_in, clause_in, set_of, literal_of, clause_of, less_plain, less_negated, joined};

use rules::limits::VARIABLES_MOST;

// A set of variables: variable v is bit v - 1.
#[derive(Clone, Copy, Debug, PartialEq, Eq)]
pub struct Set {
    pub word: u64,
}

impl Set {
    // The set with no variable.
    pub fn none() -> Set
        ensures { set_of result ≡ none set_words }
    {
        Set { word: 0 }
    }

    // Whether v is in the set; what is no variable never is.
    pub fn has(self, v: u32) -> bool
        ensures { result ≡ has (set_of self) v }
    {
        if v < 1 || VARIABLES_MOST < v {
            return false;
        }
        (self.word >> (v - 1)) & 1 == 1
    }

    // The set and v.
    // Kept, here and below: a variable's range as a clause, since a type for it would ask more of a caller.
    pub fn with(self, v: u32) -> Set
        requires { (1 ≤ v) × (v ≤ variables_most) }
        ensures { set_of result ≡ with (set_of self) v }
    {
        Set {
            word: self.word | (1u64 << (v - 1)),
        }
    }

    // The set less v.
    pub fn without(self, v: u32) -> Set
        requires { (1 ≤ v) × (v ≤ variables_most) }
        ensures { set_of result ≡ without (set_of self) v }
    {
        Set {
            word: self.word & !(1u64 << (v - 1)),
        }
    }

    // What is in one of the two sets.
    pub fn join(self, other: Set) -> Set
        ensures { set_of result ≡ join (set_of self) (set_of other) }
    {
        Set {
            word: self.word | other.word,
        }
    }

    // What is in both sets.
    pub fn only(self, other: Set) -> Set
        ensures { set_of result ≡ only (set_of self) (set_of other) }
    {
        Set {
            word: self.word & other.word,
        }
    }

    // How many words of a table a set takes.
    pub fn words() -> usize
        ensures { result ≡ set_words }
    {
        1
    }

    // The set that stands in a row of words from a place on.
    pub fn read(row: &[u64], place: usize) -> Set
        requires { place + set_words ≤ length row.now }
        ensures { set_of result ≡ take set_words (drop place row.now) }
    {
        Set { word: row[place] }
    }

    // The set put into a row of words from a place on; the other words stay.
    pub fn write(self, row: &mut [u64], place: usize)
        requires { place + set_words ≤ length row.old }
        ensures { row.new ≡ put_in row.old place (set_of self) }
    {
        row[place] = self.word;
    }

    // Whether no variable is in the set.
    pub fn is_empty(self) -> bool
        ensures { result ≡ empty (set_of self) }
    {
        self.word == 0
    }

    // Whether some variable is in both sets.
    pub fn meets(self, other: Set) -> bool
        ensures { result ≡ meet (set_of self) (set_of other) }
    {
        self.word & other.word != 0
    }
}

// A literal: a variable, and whether it stands negated.
#[derive(Clone, Copy, Debug, PartialEq, Eq)]
pub struct Literal {
    pub variable: u32,
    pub negated: bool,
}

impl From<i32> for Literal {
    ghost from_gives = { λ n l. l ≡ literal_of n };

    fn from(n: i32) -> Literal {
        Literal {
            variable: n.unsigned_abs(),
            negated: n < 0,
        }
    }
}

// A clause: the variables that stand in it plain, and those that stand in it negated.
#[derive(Clone, Copy, Debug, PartialEq, Eq)]
pub struct Clause {
    pub plain: Set,
    pub negated: Set,
}

impl Clause {
    // The clause with no literal.
    pub fn none() -> Clause
        ensures { clause_of result ≡ no_literal }
    {
        Clause {
            plain: Set::none(),
            negated: Set::none(),
        }
    }

    // The clause and one literal more.
    pub fn with(self, l: Literal) -> Clause
        requires { (1 ≤ l.variable) × (l.variable ≤ variables_most) }
        ensures { clause_of result ≡ with_literal (clause_of self) (record { variable = l.variable; negated = l.negated }) }
    {
        if l.negated {
            Clause {
                negated: self.negated.with(l.variable),
                ..self
            }
        } else {
            Clause {
                plain: self.plain.with(l.variable),
                ..self
            }
        }
    }

    // Whether the literal's opposite stands in the clause.
    pub fn has_opposite(self, l: Literal) -> bool
        ensures { result ≡ has_opposite (clause_of self) (record { variable = l.variable; negated = l.negated }) }
    {
        if l.negated {
            self.plain.has(l.variable)
        } else {
            self.negated.has(l.variable)
        }
    }

    // The clause without the literal x.
    // Kept beside without_negated: one expression each, over another field, and both named in docs/PROMISES.md.
    pub fn without_plain(self, x: u32) -> Clause
        requires { (1 ≤ x) × (x ≤ variables_most) }
        ensures { clause_of result ≡ less_plain (clause_of self) x }
    {
        Clause {
            plain: self.plain.without(x),
            ..self
        }
    }

    // The clause without the literal -x.
    pub fn without_negated(self, x: u32) -> Clause
        requires { (1 ≤ x) × (x ≤ variables_most) }
        ensures { clause_of result ≡ less_negated (clause_of self) x }
    {
        Clause {
            negated: self.negated.without(x),
            ..self
        }
    }

    // Two clauses joined.
    pub fn join(self, other: Clause) -> Clause
        ensures { clause_of result ≡ joined (clause_of self) (clause_of other) }
    {
        Clause {
            plain: self.plain.join(other.plain),
            negated: self.negated.join(other.negated),
        }
    }

    // Both without the literals x and -x, joined.
    pub fn resolvent(self, other: Clause, x: u32) -> Clause
        requires { (1 ≤ x) × (x ≤ variables_most) }
        ensures { clause_of result ≡ resolvent (clause_of self) (clause_of other) x }
    {
        self.without_plain(x).join(other.without_negated(x))
    }

    // The clause keeps the literals of these variables.
    pub fn kept_by(self, variables: Set) -> Clause
        ensures { clause_of result ≡ kept_by (set_of variables) (clause_of self) }
    {
        Clause {
            plain: self.plain.only(variables),
            negated: self.negated.only(variables),
        }
    }

    // How many words of a table a clause takes.
    pub fn words() -> usize
        ensures { result ≡ 2 * set_words }
    {
        2 * Set::words()
    }

    // The clause that stands in a row of words.
    pub fn read(row: &[u64]) -> Clause
        requires { length row.now ≡ 2 * set_words }
        ensures { clause_of result ≡ clause_in row.now }
    {
        Clause {
            plain: Set::read(row, 0),
            negated: Set::read(row, Set::words()),
        }
    }

    // The clause put into a row of words.
    pub fn write(self, row: &mut [u64])
        requires { length row.old ≡ 2 * set_words }
        ensures { row.new ≡ clause_row (clause_of self) }
    {
        self.plain.write(row, 0);
        self.negated.write(row, Set::words());
    }

    // Whether some variable stands in the clause both ways.
    pub fn two_faced(self) -> bool
        ensures { result ≡ two_faced (clause_of self) }
    {
        self.plain.meets(self.negated)
    }

    // Whether no literal stands in the clause.
    pub fn is_empty(self) -> bool
        ensures { result ≡ empty_clause (clause_of self) }
    {
        self.plain.is_empty() && self.negated.is_empty()
    }
}

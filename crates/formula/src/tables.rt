// The prefix table and the clause table: cleared, and written word by word and row by row.
#![tactic(auto, unfolding(rules::specs::definitions::Layout::set_words, rules::specs::definitions::Layout::clause_width, rules::specs::definitions::Layout::prefix_words, rules::specs::definitions::Layout::clause_words))]

ghost use Rattle.std.specs.Prelude.{◌≡◌, [], ◌++◌, ◌+◌, ◌*◌, ◌≤◌, ◌<◌, length, take, drop, slice_set};
ghost use Rattle.rules.specs.definitions.Layout.{prefix_words, clause_words};
ghost use Rattle.rules.specs.definitions.Limits.{clauses_most};
ghost use Rattle.rules.specs.definitions.Tables.{clause_row, holding};
ghost use Rattle.sets.specs.Values.{clause_of};

use rules::limits::{CLAUSE_WORDS, PREFIX_WORDS};
use sets::Clause;

// The two lent tables of a formula, each of its least length or longer.
#[derive(Drop)]
pub struct FormulaTables<'a> {
    pub prefix: &'a mut [u32],
    pub clauses: &'a mut [u64],
    pub ghost long_prefix: { prefix_words ≤ length prefix.now },
    pub ghost long_clauses: { clause_words ≤ length clauses.now },
}

impl FormulaTables<'_> {
    ghost use Rattle.formula.specs.Tables.{SameFormulaTables};

    // The words that 01 names set to zero; those past them as they came.
    // Kept: `same`, here and below: without it a caller that made the struct learns nothing of its slices.
    pub fn clear(&mut self)
        ensures prefix { self.new.prefix.now ≡ holding prefix_words [] self.old.prefix.now }
        ensures clauses { self.new.clauses.now ≡ holding clause_words [] self.old.clauses.now }
        ensures same { SameFormulaTables self.old self.new }
    {
        self.prefix[..PREFIX_WORDS].fill(0);
        self.clauses[..CLAUSE_WORDS].fill(0);
    }

    // A bound variable's word, behind so many.
    pub(crate) fn put_bound(&mut self, placed: usize, word: u32)
        requires { placed < prefix_words }
        ensures prefix { self.new.prefix.now ≡ slice_set self.old.prefix.now placed word }
        ensures clauses { self.new.clauses.now ≡ self.old.clauses.now }
        ensures same { SameFormulaTables self.old self.new }
    {
        self.prefix[placed] = word;
    }

    // A clause's row, behind so many clauses.
    pub(crate) fn put_clause(&mut self, done: usize, c: Clause)
        requires { done < clauses_most }
        ensures clauses { self.new.clauses.now ≡ take (2 * done) self.old.clauses.now ++ (clause_row (clause_of c) ++ drop (2 * done + 2) self.old.clauses.now) }
        ensures prefix { self.new.prefix.now ≡ self.old.prefix.now }
        ensures same { SameFormulaTables self.old self.new }
    {
        let at = Clause::words() * done;
        let end = at + Clause::words();
        c.write(&mut self.clauses[at..end]);
    }
}

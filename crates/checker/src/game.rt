// What checking asks of a formula that is read: its clauses, its counts, its existential variables,
// and for each universal its variable and the set of the variables left of it.
ghost use Rattle.std.specs.Prelude.{List, ◌≡◌, ℕ, ◌≤◌, ◌<◌, length};
ghost use Rattle.rules.specs.definitions.Layout.{universal_mark, prefix_words};
ghost use Rattle.rules.specs.definitions.Limits.{universals_most};
ghost use Rattle.rules.specs.definitions.Checking.{base, rules_of};
ghost use Rattle.rules.specs.definitions.Formula.{Formula, existentials};
ghost use Rattle.sets.specs.Values.{set_of};
ghost use Rattle.checker.specs.Game.{
  Prefixed,
  Readable,
  Narrow,
  with_word,
  GameOf,
  BoundMore,
  Unbound,
};

use rules::limits::{PREFIX_WORDS, ROW_WORDS, UNIVERSAL_MARK};
use sets::Set;

// A universal's variable, and the variables left of it.
#[derive(Clone, Copy)]
pub struct Universal {
    pub variable: u32,
    pub left: Set,
}

// The clause table and the clause count; the existential variables; the universals, so many of the
// places; and all variables of the prefix.
// Kept: two counts, since C lends the clause table whole, and nothing is allocated for the universals.
#[derive(Clone, Copy)]
pub struct Game<'a> {
    pub clauses: &'a [u64],
    pub count: u32,
    pub existentials: Set,
    pub universal_count: u32,
    pub universals: [Universal; ROW_WORDS],
    pub bound: Set,
}

// The set and the variable of a prefix word, if that is existential.
#[tactic(auto, unfolding(crate::specs::Game::with_word))]
fn existential(s: Set, word: u32) -> Set
    requires { Narrow word }
    ensures { set_of result ≡ with_word (set_of s) word }
{
    if word == 0 || UNIVERSAL_MARK <= word {
        return s;
    }
    s.with(word)
}

// The set of the existential variables, from the last word of the prefix to the first.
#[tactic(auto, unfolding(rules::specs::definitions::Layout::prefix_words))]
fn find_existentials(prefix: &[u32]) -> Set
    requires { (prefix_words ≤ length prefix.now) × Readable prefix.now }
    ensures { (F : Formula) → Prefixed F prefix.now → set_of result ≡ existentials F.prefix }
{
    let mut s = Set::none();
    for word in prefix[..PREFIX_WORDS].iter().rev() {
        s = existential(s, *word);
    }
    s
}

impl<'a> Game<'a> {
    // The game with no variable bound yet.
    fn begin(clauses: &'a [u64], count: u32, existentials: Set) -> Game<'a>
        ensures { Unbound clauses.now count existentials result }
    {
        Game {
            clauses,
            count,
            existentials,
            universal_count: 0,
            universals: [Universal {
                variable: 0,
                left: Set::none(),
            }; ROW_WORDS],
            bound: Set::none(),
        }
    }

    // The game with the variable of one more prefix word bound.
    // Kept: a word's mark is told apart here, as C lends the prefix, and the array is changed in a copy, as the game is.
    fn bind(self, word: u32) -> Game<'a>
        requires { Narrow word × (1 ≤ word) × (universal_mark ≤ word → self.universal_count < universals_most) }
        ensures { BoundMore self.entry word result }
    {
        if word < UNIVERSAL_MARK {
            return Game {
                bound: self.bound.with(word),
                ..self
            };
        }
        let variable = word - UNIVERSAL_MARK;
        let mut universals = self.universals;
        universals[self.universal_count as usize] = Universal {
            variable,
            left: self.bound,
        };
        Game {
            universal_count: self.universal_count + 1,
            universals,
            bound: self.bound.with(variable),
            ..self
        }
    }
}

// The game of the formula whose prefix the one table holds, with the other as its clause table.
// Kept: the prefix ends at the first zero word, since C lends its table so.
pub fn game_of<'a>(prefix: &[u32], clauses: &'a [u64], count: u32) -> Game<'a>
    requires { (prefix_words ≤ length prefix.now) × Readable prefix.now }
    ensures clauses { result.clauses.now ≡ clauses.now }
    ensures game { (F : Formula) (s : List ℕ) → Prefixed F prefix.now → count ≡ length F.matrix → GameOf (rules_of base F s) F result }
{
    let mut g = Game::begin(clauses, count, find_existentials(prefix));
    for word in &prefix[..PREFIX_WORDS] {
        if *word == 0 {
            return g;
        }
        g = g.bind(*word);
    }
    g
}

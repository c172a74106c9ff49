// A whole text: its tokens in order, and what goes to the prefix table and the clause table.
ghost use Rattle.std.specs.Prelude.{◌≡◌, false, [], ◌≤◌, length, drop};
ghost use Rattle.rules.specs.definitions.Limits.{text_most};
ghost use Rattle.rules.specs.definitions.Layout.{prefix_words, clause_words};
ghost use Rattle.rules.specs.definitions.Reading as definition;
ghost use Rattle.rules.specs.definitions.Tables.{holding};
ghost use Rattle.formula.specs.Tokens.{left};
ghost use Rattle.formula.specs.Tables.{SameFormulaTables};
ghost use Rattle.formula.specs.Readings.{Ends, Filled, Left};

use crate::states::{Next, Place, State, begin, step};
use crate::tables::FormulaTables;
use crate::words::{Tokens, body};
use rules::refusals::{Refusal, Refused};

// What a text's formula counts: V, its clauses, its universals.
#[derive(Clone, Copy, Debug, PartialEq, Eq)]
pub struct Counts {
    pub variables: u32,
    pub clauses: u32,
    pub universals: u32,
}

// The text ends where a block or a clause may begin.
#[tactic(auto, using(crate::proofs::ReadingLaws::ends_whole))]
fn between(s: State, n: u32) -> Result<Counts, Refused>
    ensures { Ends s (definition.between_clauses n) result }
{
    if s.done < s.header.count {
        return Err(Refusal::ClauseCount.at(n));
    }
    Ok(Counts {
        variables: s.header.variables,
        clauses: s.done,
        universals: s.prefix.universals,
    })
}

// The text ends, at its length n.
fn finish(s: State, n: u32) -> Result<Counts, Refused>
    ensures { Ends s (λ st. definition.end_at st.place n st) result }
{
    match s.place {
        Place::Block | Place::AtClause => between(s, n),
        Place::Mark
        | Place::Cnf
        | Place::Variables
        | Place::Count
        | Place::InBlock { .. }
        | Place::InClause(_) => Err(Refusal::BadToken.at(n)),
    }
}

// The tokens one after the other, up to the text's end n, with the tables cleared.
fn read_tokens(tokens: Tokens, n: u32, tables: &mut FormulaTables) -> Result<Counts, Refused>
    requires { (tables.old.prefix.now ≡ holding prefix_words [] tables.old.prefix.now) × (tables.old.clauses.now ≡ holding clause_words [] tables.old.clauses.now) }
    ensures filled { Filled (definition.read_from n definition.begin (left tokens.entry))
        tables.old.prefix.now tables.old.clauses.now tables.new.prefix.now tables.new.clauses.now result }
    ensures same { SameFormulaTables tables.old tables.new }
{
    let mut s = begin();
    for token in tokens {
        match step(s, token)? {
            Next::Go(t) => s = t,
            Next::Bind(word, t) => {
                tables.put_bound(s.prefix.placed as usize, word);
                s = t;
            }
            Next::Ended(c, t) => {
                tables.put_clause(s.done as usize, c);
                s = t;
            }
        }
    }
    finish(s, n)
}

// A text of at most 65,536 bytes, into the two tables: what it reads to, and both tables filled and
// otherwise zero, or, refused, all zero; the words past these as they came.
#[tactic(auto, using(theory::specs::laws::Tables::cleared))]
pub fn read_in(text: &[u8], tables: &mut FormulaTables) -> Result<Counts, Refused>
    requires { length text.now ≤ text_most }
    ensures left { Left text.now tables.old.prefix.now tables.old.clauses.now tables.new.prefix.now tables.new.clauses.now result }
    ensures same { SameFormulaTables tables.old tables.new }
{
    tables.clear();
    let from = body(text);
    let tokens = Tokens {
        bytes: &text[from..],
        at: from as u32,
    };
    let read = read_tokens(tokens, text.len() as u32, tables);
    if read.is_err() {
        tables.clear();
    }
    read
}

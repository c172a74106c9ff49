// What is read so far, and what one token more makes of it.
ghost use Rattle.std.specs.Prelude.{◌≡◌, ◌<◌};
ghost use Rattle.rules.specs.definitions.Limits.{variables_most, clauses_most};
ghost use Rattle.rules.specs.definitions.Text.{number_of};
ghost use Rattle.rules.specs.definitions.Reading as reading;
ghost use Rattle.sets.specs.Values.{clause_of};
ghost use Rattle.formula.specs.States.{quant_of, Room, Takes, Begun, expected};

use crate::numbers::{header_number, literal_at};
use crate::parts::{Header, Prefix};
use crate::words::{Token, is_cnf, is_letter};
use rules::limits::{CLAUSES_MOST, UNIVERSAL_MARK, UNIVERSALS_MOST, VARIABLES_MOST};
use rules::refusals::{Refusal, Refused};
use sets::{Clause, Set};

const LETTER_P: u8 = b'p';

const LETTER_A: u8 = b'a';

const LETTER_E: u8 = b'e';

// What may stand next.
#[derive(Clone, Copy)]
pub enum Place {
    // The header's four tokens.
    Mark,
    Cnf,
    Variables,
    Count,
    // A block's place: a block, or the first clause, begins.
    Block,
    // Within a block; whether a variable stands in it.
    InBlock { universal: bool, some: bool },
    // A clause's place, past the first clause.
    AtClause,
    // Within a clause, with its literals so far.
    InClause(Clause),
}

// What is read so far; how many clauses are done.
#[derive(Clone, Copy)]
pub struct State {
    pub place: Place,
    pub header: Header,
    pub prefix: Prefix,
    pub done: u32,
}

// What one token makes of it: the next state, with the word that goes to the prefix table or the
// clause that goes to the clause table.
#[derive(Clone, Copy)]
pub enum Next {
    Go(State),
    Bind(u32, State),
    Ended(Clause, State),
}

// Before the first token.
#[tactic(auto, using(crate::proofs::StateLaws::tally_none))]
pub fn begin() -> State
    ensures { Begun result }
{
    State {
        place: Place::Mark,
        header: Header {
            variables: 0,
            count: 0,
        },
        prefix: Prefix {
            bound: Set::none(),
            placed: 0,
            universals: 0,
        },
        done: 0,
    }
}

// On to a place, if the token may stand where it stands.
fn expect(s: State, spelled: bool, place: Place, at: u32) -> Result<Next, Refused>
    ensures { result ≡ expected s spelled place at }
{
    if !spelled {
        return Err(Refusal::BadToken.at(at));
    }
    Ok(Next::Go(State { place, ..s }))
}

// The header's V.
// Kept beside count_token: alike but for the limit, the field and the next place; one function over all three is no plainer.
// Kept: the other count taken over by name, since `..s.header` is refused in a struct with ghost fields.
#[tactic(auto, using(crate::proofs::StepLaws::after_header, crate::proofs::StepLaws::limited_within))]
fn variables_token(s: State, token: Token<'_>) -> Result<Next, Refused>
    requires { s.done ≡ 0 }
    ensures { Takes s token.entry.at (λ st. reading.limited variables_most (number_of token.entry.bytes.now) (reading.with_variables st)) result }
{
    let variables = header_number(token, VARIABLES_MOST)?;
    let header = Header {
        variables,
        count: s.header.count,
    };
    Ok(Next::Go(State {
        place: Place::Count,
        header,
        ..s
    }))
}

// The header's clause count.
#[tactic(auto, using(crate::proofs::StepLaws::after_header, crate::proofs::StepLaws::limited_within))]
fn count_token(s: State, token: Token<'_>) -> Result<Next, Refused>
    requires { s.done ≡ 0 }
    ensures { Takes s token.entry.at (λ st. reading.limited clauses_most (number_of token.entry.bytes.now) (reading.with_count st)) result }
{
    let count = header_number(token, CLAUSES_MOST)?;
    let header = Header {
        variables: s.header.variables,
        count,
    };
    Ok(Next::Go(State {
        place: Place::Block,
        header,
        ..s
    }))
}

// A token within a block: a variable, or the 0 that ends it.
fn block_token(s: State, universal: bool, some: bool, token: Token<'_>) -> Result<Next, Refused>
    ensures { Takes s token.entry.at (λ st. reading.block_token st (quant_of universal) some (number_of token.entry.bytes.now)) result }
{
    let l = literal_at(token)?;
    if l.negated {
        return Err(Refusal::NoVariable.at(token.at));
    }
    let v = l.variable;
    if v == 0 {
        return expect(s, some, Place::Block, token.at);
    }
    if s.header.variables < v {
        return Err(Refusal::NoVariable.at(token.at));
    }
    if s.prefix.bound.has(v) {
        return Err(Refusal::BoundTwice.at(token.at));
    }
    let place = Place::InBlock {
        universal,
        some: true,
    };
    let universals = s.prefix.universals;
    if universal {
        if UNIVERSALS_MOST <= universals {
            return Err(Refusal::TooManyUniversals.at(token.at));
        }
        let prefix = s.prefix.with(v, universals + 1);
        return Ok(Next::Bind(v + UNIVERSAL_MARK, State { place, prefix, ..s }));
    }
    let prefix = s.prefix.with(v, universals);
    Ok(Next::Bind(v, State { place, prefix, ..s }))
}

// A token within a clause: a literal, or the 0 that ends it.
fn clause_token(s: State, c: Clause, token: Token<'_>) -> Result<Next, Refused>
    requires { s.done < s.header.count }
    ensures { Takes s token.entry.at (λ st. reading.clause_token st (clause_of c) (number_of token.entry.bytes.now)) result }
{
    let l = literal_at(token)?;
    let v = l.variable;
    if v == 0 {
        return Ok(Next::Ended(
            c,
            State {
                place: Place::AtClause,
                done: s.done + 1,
                ..s
            },
        ));
    }
    if s.header.variables < v {
        return Err(Refusal::NoVariable.at(token.at));
    }
    if !s.prefix.bound.has(v) {
        return Err(Refusal::NotBound.at(token.at));
    }
    if c.has_opposite(l) {
        return Err(Refusal::BothWays.at(token.at));
    }
    Ok(Next::Go(State {
        place: Place::InClause(c.with(l)),
        ..s
    }))
}

// A token where a clause may begin; past the last clause it is one too many.
fn begin_clause(s: State, token: Token<'_>) -> Result<Next, Refused>
    ensures { Takes s token.entry.at (λ st. reading.begin_clause st token.entry.bytes.now) result }
{
    if s.header.count <= s.done {
        return Err(Refusal::ClauseCount.at(token.at));
    }
    clause_token(s, Clause::none(), token)
}

// A token in a block's place: a block, or the first clause, begins.
fn block_place(s: State, token: Token<'_>) -> Result<Next, Refused>
    ensures { Takes s token.entry.at (λ st. reading.block_place st token.entry.bytes.now) result }
{
    let universal = is_letter(token.bytes, LETTER_A);
    if universal || is_letter(token.bytes, LETTER_E) {
        return Ok(Next::Go(State {
            place: Place::InBlock {
                universal,
                some: false,
            },
            ..s
        }));
    }
    begin_clause(s, token)
}

// One token.
#[tactic(auto, using(crate::proofs::StepLaws::at_place, crate::proofs::StepLaws::after_expected))]
pub fn step(s: State, token: Token<'_>) -> Result<Next, Refused>
    requires { Room s.place s.done s.header.count }
    ensures { Takes s token.entry.at (λ st. reading.step st token.entry.bytes.now) result }
{
    match s.place {
        Place::Mark => expect(s, is_letter(token.bytes, LETTER_P), Place::Cnf, token.at),
        Place::Cnf => expect(s, is_cnf(token.bytes), Place::Variables, token.at),
        Place::Variables => variables_token(s, token),
        Place::Count => count_token(s, token),
        Place::Block => block_place(s, token),
        Place::InBlock { universal, some } => block_token(s, universal, some, token),
        Place::AtClause => begin_clause(s, token),
        Place::InClause(c) => clause_token(s, c, token),
    }
}

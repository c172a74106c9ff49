// Replies: 01's number and values for each answer.
ghost use Rattle.std.specs.Prelude.{◌≡◌};
ghost use Rattle.formula.specs.Readings.{reply_of};
ghost use Rattle.malintok.specs.Calls.{counted, refused};

use formula::reading::Counts;
use rules::Reply;
use rules::refusals::Refused;

// The counts of a formula that was read, and a line count.
// Kept: functions, here and below, which take parts over by name: a From in rules would need the definitions of replies there.
pub fn accepted(counts: Counts, lines: u32) -> Reply
    ensures { result ≡ counted counts lines }
{
    Reply {
        variables: counts.variables,
        clauses: counts.clauses,
        universals: counts.universals,
        lines,
        ..Reply::default()
    }
}

// The refusal's number, place and variable.
pub fn rejected(e: Refused) -> Reply
    ensures { result ≡ refused e }
{
    Reply {
        number: e.refusal.number(),
        place: e.place,
        variable: e.variable,
        ..Reply::default()
    }
}

// The reply that says what a text reads to.
pub fn read_reply(read: Result<Counts, Refused>) -> Reply
    ensures { result ≡ reply_of read }
{
    match read {
        Ok(counts) => accepted(counts, 0),
        Err(e) => rejected(e),
    }
}

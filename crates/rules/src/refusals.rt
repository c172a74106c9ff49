// What a refusal is: its number in document 01, and where it stands.
ghost use Rattle.std.specs.Prelude.{◌≡◌};
ghost use Rattle.rules.specs.definitions.Refusals.{refusal_number};

// Why a text, a proof or a call is refused, by the numbers of 01.
#[derive(Clone, Copy, Debug, PartialEq, Eq)]
pub enum Refusal {
    LongText = 1,
    ShortTable = 2,
    BadToken = 3,
    HeaderLimit = 4,
    NoVariable = 5,
    BoundTwice = 6,
    TooManyUniversals = 7,
    NotBound = 8,
    BothWays = 9,
    ClauseCount = 10,
    BadMark = 11,
    BadLength = 12,
    BadLineCount = 13,
    BadKind = 21,
    AxiomTail = 22,
    NoClause = 23,
    NoParent = 24,
    NoPivot = 25,
    LacksPlain = 26,
    LacksNegated = 27,
    NoUniversal = 28,
    ResultBothWays = 29,
    NotLeft = 30,
    NoSelect = 31,
    NotEmpty = 32,
    PlayRange = 41,
    PlayWord = 42,
}

impl Refusal {
    // Its number in 01.
    pub fn number(self) -> u32
        ensures { result ≡ refusal_number self }
    {
        self as u32
    }

    // The refusal of a line, with the variable that 01 names.
    pub fn of(self, variable: u32) -> Fault
        ensures { result ≡ record { refusal = self; variable = variable } }
    {
        Fault {
            refusal: self,
            variable,
        }
    }

    // The refusal of a text or a proof at an offset or a line, with no variable.
    pub fn at(self, place: u32) -> Refused
        ensures { result ≡ record { refusal = self; place = place; variable = 0 } }
    {
        Refused {
            refusal: self,
            place,
            variable: 0,
        }
    }
}

// Why a line is refused, and the variable that 01 names with it; 0 where it names none.
// Kept: 0 and no Option, here and in Refused, since that is 01's own reply, which C reads.
#[derive(Clone, Copy, Debug, PartialEq, Eq)]
pub struct Fault {
    pub refusal: Refusal,
    pub variable: u32,
}

// A refusal that names no variable.
impl From<Refusal> for Fault {
    ghost from_gives = { λ k f. f ≡ record { refusal = k; variable = 0 } };

    fn from(refusal: Refusal) -> Fault {
        refusal.of(0)
    }
}

impl Fault {
    // The line of the proof that has the fault.
    // Kept: two parts taken over by name, since the two structs have no more in common.
    pub fn at(self, line: u32) -> Refused
        ensures { result ≡ record { refusal = self.refusal; place = line; variable = self.variable } }
    {
        Refused {
            refusal: self.refusal,
            place: line,
            variable: self.variable,
        }
    }
}

// Why a text or a proof is refused; the offset, the line or 0 that is its place; and the variable.
#[derive(Clone, Copy, Debug, PartialEq, Eq)]
pub struct Refused {
    pub refusal: Refusal,
    pub place: u32,
    pub variable: u32,
}

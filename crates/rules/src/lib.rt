// The types of documents 01 and 004 that definitions and code share, and 01's numbers. The definitions are in
// specs/; the code here is what a refusal says of itself.
#![tactic(auto)]

pub mod limits;
pub mod refusals;

// What a map plays: no value, 1 or 0. Its number is its word in the tables.
#[derive(Clone, Copy, Debug, PartialEq, Eq)]
pub enum Value {
    Star = 1,
    One = 2,
    Zero = 3,
}

// A map's node: none, a leaf, or a branch (x, a, b): at x = 0 go to a, else to b.
// Kept: three cases, which an Option of two would take apart in two matches.
#[derive(Clone, Copy, Debug, PartialEq, Eq)]
pub enum Node {
    None,
    Leaf(Value),
    Branch { x: u32, a: u32, b: u32 },
}

// A resolution's two parents, its pivot and its merge set, universal j at bit j - 1.
#[derive(Clone, Copy, Debug, PartialEq, Eq)]
pub struct Resolution {
    pub a: u16,
    pub b: u16,
    pub pivot: u8,
    pub merge: u16,
}

// A proof's line: an axiom with its clause number, or a resolution.
#[derive(Clone, Copy, Debug, PartialEq, Eq)]
pub enum Line {
    Axiom(u16),
    Resolve(Resolution),
}

// The answer of reading and of checking: number 0 for success.
// Kept: a number beside the values, since C reads it so (include/malintok.h).
#[repr(C)]
#[derive(Clone, Copy, Debug, Default, PartialEq, Eq)]
pub struct Reply {
    pub number: u32,
    pub place: u32,
    pub variable: u32,
    pub variables: u32,
    pub clauses: u32,
    pub universals: u32,
    pub lines: u32,
}

// The answer of playing: number 0 for success; value 1 star, 2 one, 3 zero, 0 with a refusal.
// Kept: a number beside the value, since C reads it so (include/malintok.h).
#[repr(C)]
#[derive(Clone, Copy, Debug, Default, PartialEq, Eq)]
pub struct Played {
    pub number: u32,
    pub value: u32,
}

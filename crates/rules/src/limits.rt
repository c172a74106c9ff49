// The numbers of document 01 that the code needs, each named once.
use crate::Value;

// Sizes.
pub const TEXT_MOST: usize = 65536;

pub const VARIABLES_MOST: u32 = 64;

pub const UNIVERSALS_MOST: u32 = 16;

pub const CLAUSES_MOST: u32 = 256;

pub const LINES_MOST: u32 = 1024;

// Words that a lent table has at least; the node and the root table are of one length.
pub const PREFIX_WORDS: usize = 64;

pub const CLAUSE_WORDS: usize = 512;

pub const LINE_WORDS: usize = 2048;

pub const MAP_WORDS: usize = 16384;

// Words of a row of the node and the root table: one for each universal.
pub const ROW_WORDS: usize = UNIVERSALS_MOST as usize;

// A place for each line.
pub const LINE_PLACES: usize = LINES_MOST as usize;

// A universal's mark in the prefix table.
pub const UNIVERSAL_MARK: u32 = 256;

// A number of the text past this one counts as this one.
pub const NUMBER_MOST: u32 = 65536;

// A leaf's word.
pub const STAR_WORD: u32 = Value::Star as u32;

pub const ONE_WORD: u32 = Value::One as u32;

pub const ZERO_WORD: u32 = Value::Zero as u32;

// A branch's word: BRANCH_MARK + (x - 1) * VARIABLE_STEP + (a - 1) * END_STEP + (b - 1), below BRANCH_END.
pub const BRANCH_MARK: u32 = 1073741824;

pub const BRANCH_END: u32 = 1140850688;

pub const VARIABLE_STEP: u32 = 1048576;

pub const END_STEP: u32 = 1024;

// The proof file: its mark MRP and its version, bytes of the head and of a record, the kinds of a record.
pub const MARK: [u8; 3] = *b"MRP";

pub const VERSION: u16 = 1;

pub const HEAD_BYTES: usize = 7;

pub const RECORD_BYTES: usize = 8;

// Kept: the two kinds are numbers, since `decode` alone reads one, and what it gives is the enum Line.
pub const AXIOM_KIND: u8 = 1;

pub const RESOLUTION_KIND: u8 = 2;

// Formula text (01) to the prefix table and the clause table.
#![tactic(auto)]

mod numbers;
mod parts;
pub mod reading;
mod states;
pub mod tables;
mod tokens;
mod words;

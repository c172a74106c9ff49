// From a proof file's bytes to the checked rows in the lent tables.
#![tactic(auto)]

pub mod axioms;
pub mod check;
pub mod game;
pub mod lines;
pub mod maps_row;
pub mod resolutions;
pub mod rows;
pub mod run;
pub mod select;
pub mod tables;

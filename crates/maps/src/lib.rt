// Maps in a node table: a node's word and back, a column and its nodes, playing a map by its falling
// node numbers, and the comparison of two maps of one column.
#![tactic(auto)]

mod column;
mod comparing;
mod nodes;
mod playing;

pub use column::Column;
pub use nodes::{node_word, read_node};
pub use playing::play;

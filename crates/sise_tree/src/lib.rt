// Trees in tables of 32-bit words (parse_tree.rs and index_path of tree.rs of the crate sise 0.8.0). A node is four words, a list's children stand after it;
// nothing recurses, so a text may nest as deep as it is long.
#![tactic(auto)]

mod find;
mod parse;
mod tree;
mod whole;

pub use find::Found;
pub use parse::{TreeError, TreeRead, parse_tree};
pub use tree::{LONGEST, NodeWords, PathError, TableError, TreeTable, wide};
pub use whole::parse_text;

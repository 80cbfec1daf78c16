// Trees written from tables of 32-bit words (serialize_tree.rs of the crate sise 0.8.0), at a threshold or in house style.
#![tactic(auto)]

mod house;
mod measure;
mod serialize;
mod size;
mod walk;
mod whole;
mod write;
mod writing;

pub use house::{HOUSE_THRESHOLD, serialize_house, serialize_house_at};
pub use serialize::{TreeWrote, WriteTreeError, commit_tree, measure_tree, serialize_tree};
pub use size::TreeSize;
pub use whole::{commit_text, measure_text, write_text};

// Characters and atoms (util.rs of the crate sise 0.8.0), the classes of bytes, and a character by RFC 3629.
#![tactic(auto)]

pub mod classes;
mod table;
mod utf8;
mod util;

pub use utf8::{Character, IllFormed, character_at};
pub use util::{
    AtomKind, check_atom, check_atom_prefix, is_atom_byte, is_atom_chr, is_atom_string_chr,
    kind_number,
};

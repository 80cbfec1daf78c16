// The reader (parser.rs of the crate sise 0.8.0): the items of a SISE text, one a call.
#![tactic(auto)]

mod error;
mod lexer;
mod parser;
mod plain;
mod reader;

pub use error::{ParseError, Refusal, RefusalNumbers, answer_number};
pub use lexer::{atom_run, is_quote_at, skip_blanks};
pub use parser::{Parsed, Parser};
pub use plain::{PlainItem, plain_item};
pub use reader::{Next, ParsedItem, Phase, Reader, UnknownPhase, atom_bytes, item_ahead};

#[cfg(test)]
mod tests;

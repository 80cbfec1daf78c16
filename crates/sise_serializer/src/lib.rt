// The writer (serializer.rs of the crate sise 0.8.0): a SISE text, one item a call, into a lent buffer; or a whole list of calls at once.
#![tactic(auto)]

mod buffer;
mod calls;
mod plan;
mod serializer;
mod sound_serializer;
mod token;

pub use buffer::{LIMIT, SerializerStyle, Spot, find_spot, paste, paste_line, write_gap};
pub use calls::{Call, REFUSED, Ran, next_call, put_word, write_calls, write_calls_from};
pub use plan::{Layout, Planned};
pub use serializer::{Phase, Placed, Serializer, WriteError, Wrote, phase_after};
pub use sound_serializer::SoundSerializer;

// A number that no phase has: one type for the reader's phases and the writer's.
pub use sise_parser::UnknownPhase;

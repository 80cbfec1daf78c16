// The public calls of sise_serializer that write one item, and those about its record, under the contract that each has there and with a body that only
// calls it: the promises of the library on one page, with contract_calls. An edit of must-fail/ puts a wrong program in the place of a body, and the
// contract has to refuse it.
#![tactic(auto)]

ghost use Rattle.std.specs.Prelude.{◌≡◌, false, [], ◌∷◌, MatchOption};
ghost use Rattle.sise_serializer.specs.Serializer.{write_refusal, fresh_serializer, style_of, is_sound, answer_as, number_of, phase_after};
ghost use Rattle.sise_serializer.specs.Phases.{is_over, DecodesPhase};
ghost use Rattle.sise_serializer.specs.Parts.{
  wrote_of,
  behind_first,
  behind_new_line,
  behind_in_line,
  behind_end_on_new_line,
  behind_end_in_line,
  behind_finish,
};
ghost use Rattle.sise_serializer.specs.Plan.{PlansCall, PlansItem};
ghost use Rattle.sise_serializer.specs.Calls.{Does, put_atom_call, begin_list_call, end_list_call, finish_call};

use sise_parser::{Refusal, answer_number};
use sise_serializer::{
    Phase, Placed, Planned, Serializer, SerializerStyle, SoundSerializer, UnknownPhase, WriteError,
    Wrote,
};

// A writer before the first item, at the start of its buffer.
pub fn new() -> Serializer
    ensures { result ≡ fresh_serializer }
{
    Serializer::new()
}

// Whether a record is sound.
pub fn is_sound(serializer: Serializer) -> bool
    ensures { result ≡ is_sound serializer }
{
    serializer.is_sound()
}

// A record with the knowledge that it is sound, if it is.
pub fn sound(serializer: Serializer) -> Option<SoundSerializer>
    ensures { MatchOption result (is_sound serializer ≡ false) (λ w. w.serializer ≡ serializer) }
{
    serializer.sound()
}

// Puts an atom. In a list it goes on a new line if the line is at least `break_line_at` bytes long.
pub fn put_atom(
    serializer: Serializer,
    style: SerializerStyle<'_>,
    buf: &mut [u8],
    atom: &[u8],
    break_line_at: u64,
) -> Wrote
    ensures { Does (put_atom_call atom.now break_line_at) (style_of style.entry) serializer buf.old result buf.new }
{
    serializer.put_atom(style, buf, atom, break_line_at)
}

// Begins a list. Inside another it goes on a new line if the line is at least `break_line_at` bytes long.
pub fn begin_list(
    serializer: Serializer,
    style: SerializerStyle<'_>,
    buf: &mut [u8],
    break_line_at: u64,
) -> Wrote
    ensures { Does (begin_list_call break_line_at) (style_of style.entry) serializer buf.old result buf.new }
{
    serializer.begin_list(style, buf, break_line_at)
}

// Ends the innermost list that is open.
pub fn end_list(serializer: Serializer, style: SerializerStyle<'_>, buf: &mut [u8]) -> Wrote
    ensures { Does end_list_call (style_of style.entry) serializer buf.old result buf.new }
{
    serializer.end_list(style, buf)
}

// Finishes the text, with a line break if wished.
pub fn finish(
    serializer: Serializer,
    style: SerializerStyle<'_>,
    buf: &mut [u8],
    insert_line_break: bool,
) -> Wrote
    ensures { Does (finish_call insert_line_break) (style_of style.entry) serializer buf.old result buf.new }
{
    serializer.finish(style, buf, insert_line_break)
}

// The same record.
pub fn by_fields(serializer: Serializer) -> Serializer
    ensures { result ≡ serializer }
{
    serializer.by_fields()
}

// What a call on a record hands back.
pub fn wrote<E: Copy>(serializer: Serializer, placed: Result<Placed, E>) -> Wrote<E>
    ensures { result ≡ wrote_of serializer placed }
{
    serializer.wrote(placed)
}

// 01's number of an answer, 0 for an offset.
pub fn number(answer: Result<usize, WriteError>) -> u32
    ensures { result ≡ number_of (answer_as answer) }
{
    answer_number(answer)
}

// 01's number of a refusal.
pub fn error_number(error: WriteError) -> u32
    ensures { result ≡ number_of (answer_as (Err error)) }
{
    error.number()
}

// The phase after a list was closed inside `lists` open lists.
pub fn phase_after(lists: usize) -> Phase
    ensures { result ≡ phase_after lists }
{
    sise_serializer::phase_after(lists)
}

// The phase that a number means, or that it means none.
pub fn phase_from(word: u64) -> Result<Phase, UnknownPhase>
    ensures { DecodesPhase word result }
{
    Phase::try_from(word)
}

// Whether no item may follow in a phase.
pub fn is_over(phase: Phase) -> bool
    ensures { result ≡ is_over phase }
{
    phase.is_over()
}

// The place and the code point of a refusal: it has none. The trait has both methods once for all errors; here stands what they answer for this one.
pub fn refusal_place(refused: WriteError) -> usize
    ensures { result ≡ (write_refusal refused).place }
{
    refused.place()
}

pub fn refusal_code(refused: WriteError) -> u32
    ensures { result ≡ (write_refusal refused).code }
{
    refused.code()
}

// ---- the record behind each step, whose token ends at `position`

// Behind the first item, whose token has `len` bytes.
pub fn behind_first(w: SoundSerializer, position: usize, len: usize, is_list: bool) -> Serializer
    ensures { result ≡ behind_first w.serializer position len is_list }
{
    w.behind_first(position, len, is_list)
}

// Behind an item on a new line of `line_len` bytes.
pub fn behind_new_line(
    w: SoundSerializer,
    position: usize,
    line_len: usize,
    is_list: bool,
) -> Serializer
    ensures { result ≡ behind_new_line w.serializer position line_len is_list }
{
    w.behind_new_line(position, line_len, is_list)
}

// Behind an item in the same line, which then has `line_len` bytes.
pub fn behind_in_line(
    w: SoundSerializer,
    position: usize,
    line_len: usize,
    is_list: bool,
) -> Serializer
    ensures { result ≡ behind_in_line w.serializer position line_len is_list }
{
    w.behind_in_line(position, line_len, is_list)
}

// Behind a `)` on a new line of `line_len` bytes.
pub fn behind_end_on_new_line(w: SoundSerializer, position: usize, line_len: usize) -> Serializer
    ensures { result ≡ behind_end_on_new_line w.serializer position line_len }
{
    w.behind_end_on_new_line(position, line_len)
}

// Behind a `)` in the same line.
pub fn behind_end_in_line(w: SoundSerializer, position: usize) -> Serializer
    ensures { result ≡ behind_end_in_line w.serializer position }
{
    w.behind_end_in_line(position)
}

// Behind the end of the text, with a line break or without.
pub fn behind_finish(w: SoundSerializer, position: usize, insert_line_break: bool) -> Serializer
    ensures { result ≡ behind_finish w.serializer position insert_line_break }
{
    w.behind_finish(position, insert_line_break)
}

// ---- calls planned in a buffer of `room` bytes, with none written

// An item whose token has `len` bytes.
pub fn plan_item(
    w: SoundSerializer,
    style: SerializerStyle<'_>,
    room: usize,
    len: usize,
    is_list: bool,
    break_line_at: u64,
) -> Result<Planned, WriteError>
    ensures { PlansItem (style_of style.entry) room w.serializer len is_list break_line_at result }
{
    w.plan_item(style, room, len, is_list, break_line_at)
}

// The end of the innermost list.
pub fn plan_end(
    w: SoundSerializer,
    style: SerializerStyle<'_>,
    room: usize,
) -> Result<Planned, WriteError>
    ensures { PlansCall (style_of style.entry) room w.serializer (41 ∷ []) end_list_call result }
{
    w.plan_end(style, room)
}

// The end of the text, with a line break if wished.
pub fn plan_finish(
    w: SoundSerializer,
    style: SerializerStyle<'_>,
    room: usize,
    insert_line_break: bool,
) -> Result<Planned, WriteError>
    ensures { PlansCall (style_of style.entry) room w.serializer [] (finish_call insert_line_break) result }
{
    w.plan_finish(style, room, insert_line_break)
}

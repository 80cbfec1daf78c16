// The public calls of sise_serializer that run a list of calls or copy bytes, under the contract that each has there and with a body that only calls it:
// the promises of the library on one page, with contract_writer. An edit of must-fail/ puts a wrong program in the place of a body, and the contract has
// to refuse it.
#![tactic(auto)]

ghost use Rattle.std.specs.Prelude.{◌≡◌, ◌+◌, ◌*◌};
ghost use Rattle.sise_serializer.specs.Bytes.{pasted_if};
ghost use Rattle.sise_serializer.specs.Calls.{Does};
ghost use Rattle.sise_serializer.specs.Parts.{spot_of, gap_bytes, break_bytes};
ghost use Rattle.sise_serializer.specs.Serializer.{style_of, new_line_of, answer_as};
ghost use Rattle.sise_serializer.specs.Words.{call_as, answer_word, ReadsCall, Runs, RunsFrom};

use sise_serializer::{Call, Ran, Serializer, SerializerStyle, Spot, WriteError, Wrote};

// ---- calls.rt

// Runs the calls that the words mean, each with the record that the last one left, and writes the word of each answer at the call's index.
pub fn write_calls(
    words: &[u64],
    atoms: &[u8],
    style: SerializerStyle<'_>,
    buf: &mut [u8],
    answers: &mut [u64],
) -> Ran
    ensures { Runs (style_of style.entry) words.now atoms.now buf.old answers.old result buf.new answers.new }
{
    sise_serializer::write_calls(words, atoms, style, buf, answers)
}

// The same from any record on; from an unsound one no call runs.
pub fn write_calls_from(
    from: Serializer,
    words: &[u64],
    atoms: &[u8],
    style: SerializerStyle<'_>,
    buf: &mut [u8],
    answers: &mut [u64],
) -> Ran
    ensures { RunsFrom from (style_of style.entry) words.now atoms.now buf.old answers.old result buf.new answers.new }
{
    sise_serializer::write_calls_from(from, words, atoms, style, buf, answers)
}

// An answer's word: the offset, or 2 ^ 32 and the refusal's number.
pub fn put_word(answer: Result<usize, WriteError>) -> u64
    ensures { result ≡ answer_word (answer_as answer) }
{
    sise_serializer::put_word(answer)
}

// The call that the first four words mean, and the words behind them.
pub fn next_call<'a, 'b>(words: &'b [u64], atoms: &'a [u8]) -> Option<(Call<'a>, &'b [u64])>
    ensures { ReadsCall words.now atoms.now result }
{
    sise_serializer::next_call(words, atoms)
}

// Makes a call on any record.
pub fn make_call(
    serializer: Serializer,
    call: Call<'_>,
    style: SerializerStyle<'_>,
    buf: &mut [u8],
) -> Wrote
    ensures { Does (call_as call.entry) (style_of style.entry) serializer buf.old result buf.new }
{
    serializer.make_call(call, style, buf)
}

// ---- buffer.rt

// The spot of a token of `token` bytes behind `lead` bytes and `times` indentations, the whole beginning at `position` in a buffer of `room` bytes.
pub fn find_spot(
    position: usize,
    room: usize,
    lead: usize,
    times: usize,
    indentation: usize,
    token: usize,
) -> Option<Spot>
    ensures { result ≡ spot_of room position (lead + times * indentation) token }
{
    sise_serializer::find_spot(position, room, lead, times, indentation, token)
}

// Copies `src` to the bytes of `buf` that begin at `at`, if they have room.
pub fn paste(buf: &mut [u8], at: usize, src: &[u8])
    ensures { buf.new ≡ pasted_if buf.old at src.now }
{
    sise_serializer::paste(buf, at, src);
}

// Copies a line break and `times` indentations, if they have room.
pub fn paste_line(buf: &mut [u8], at: usize, style: SerializerStyle<'_>, times: usize)
    ensures { buf.new ≡ pasted_if buf.old at (new_line_of (style_of style.entry) times) }
{
    sise_serializer::paste_line(buf, at, style, times);
}

// The space before an item that stays in its line, unless it joins what is before it, if it has room.
pub fn write_gap(buf: &mut [u8], at: usize, joins: bool)
    ensures { buf.new ≡ pasted_if buf.old at (gap_bytes joins) }
{
    sise_serializer::write_gap(buf, at, joins);
}

// A style of two strings.
pub fn style<'a>(line_break: &'a [u8], indentation: &'a [u8]) -> SerializerStyle<'a>
    ensures { result ≡ record { line_break = line_break.entry; indentation = indentation.entry } }
{
    SerializerStyle::new(line_break, indentation)
}

// What ends a text: the line break, if wished.
pub fn final_break<'a>(style: SerializerStyle<'a>, wished: bool) -> &'a [u8]
    ensures { result.now ≡ break_bytes wished style.entry.line_break.now }
{
    style.final_break(wished)
}

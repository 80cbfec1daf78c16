// Every public call of sise_parser but those of Parser, under the contract that it has there and with a body that only calls it: the promises of the
// library on one page. An edit of must-fail/ puts a wrong program in the place of a body, and the contract has to refuse it. The wrong programs of the
// three calls of Parser stand in sise_parser.
#![tactic(auto)]

ghost use Rattle.std.specs.Prelude.{◌≡◌, ◌≤◌, ◌<◌, ◌↔◌, true, false, eqb, length, drop, get_or, IfSome, IsSome};
ghost use Rattle.sise_util.specs.Classes.{class_of};
ghost use Rattle.sise_parser.specs.Refusals.{refusal, refusal_of, answer_number};
ghost use Rattle.sise_parser.specs.Lexer.{between};
ghost use Rattle.sise_parser.specs.Plain.{is_blank, skip_blanks, atom_run, AtomTo};
ghost use Rattle.sise_parser.specs.Reader.{fresh_reader, is_sound, next_item, finish_reading, part_of, next, reader, item as answer_item};
ghost use Rattle.sise_parser.specs.PlainItems.{IsPlain};
ghost use Rattle.sise_parser.specs.Phases.{ReadsPhase};
ghost use Rattle.sise_parser.specs.Meaning.{next_as, finished_as};

use sise_parser::{
    Next, ParseError, Phase, PlainItem, Reader, Refusal, RefusalNumbers, UnknownPhase,
};

// ---- reader.rt

// A reader before the first item of a text.
pub fn new() -> Reader
    ensures { result ≡ fresh_reader }
{
    Reader::new()
}

// The next item of the text, or the refusal, and the record for the next call.
pub fn next_item(reader: Reader, text: &[u8]) -> Next
    ensures { next_as result ≡ next_item text.now reader }
{
    reader.next_item(text)
}

// Whether the text ends after the last item.
pub fn finish(reader: Reader, text: &[u8]) -> Result<(), ParseError>
    ensures { finished_as result ≡ finish_reading text.now reader }
{
    reader.finish(text)
}

// The bytes of an atom: that part of the text, or an empty part if place and length lie outside it.
pub fn atom_bytes(text: &[u8], place: usize, len: usize) -> &[u8]
    ensures { result.now ≡ part_of text.now place len }
{
    sise_parser::atom_bytes(text, place, len)
}

// The same as next_item, of a record in parts.
pub fn item_ahead(position: usize, phase: Phase, lists: usize, text: &[u8]) -> Next
    ensures { next_as result ≡ next_item text.now (reader position phase lists) }
{
    sise_parser::item_ahead(position, phase, lists, text)
}

// The phase that has a number, if one has.
pub fn phase_of(word: u64) -> Result<Phase, UnknownPhase>
    ensures { ReadsPhase word result }
{
    Phase::try_from(word)
}

// ---- lexer.rt

// The first place from `from` on that holds no blank, or the end; the token due there is the one that is due at `from`.
pub fn skip_blanks(text: &[u8], from: usize) -> usize
    ensures same { result ≡ skip_blanks (drop from text.now) from }
    ensures after { from ≤ result }
    ensures token { between (drop from text.now) from ≡ between (drop result text.now) result }
    ensures stop { result < length text.now → is_blank (class_of (get_or text.now result 0)) ≡ false }
{
    sise_parser::skip_blanks(text, from)
}

// The end of the run of atom characters that begins at `start`; without a `"` behind it, the run is an atom.
pub fn atom_run(text: &[u8], start: usize) -> usize
    ensures same { result ≡ atom_run (drop start text.now) start }
    ensures after { start ≤ result }
    ensures token { AtomTo text.now start result }
{
    sise_parser::atom_run(text, start)
}

// Whether a `"` stands at `at`.
pub fn is_quote_at(text: &[u8], at: usize) -> bool
    ensures { result ≡ eqb (get_or text.now at 0) 34 }
{
    sise_parser::is_quote_at(text, at)
}

// ---- plain.rt

// The next item, if it is a `(`, a `)` that does not end the outermost list, or an atom without strings, and the record for the next call.
pub fn plain_item(text: &[u8], reader: Reader) -> Option<PlainItem>
    ensures when { IsSome result ↔ (is_sound (length text.now) reader ≡ true) × IsPlain text.now reader }
    ensures item { IfSome result (λ p. next p.reader (answer_item p.item) ≡ next_item text.now reader) }
{
    sise_parser::plain_item(text, reader)
}

// ---- error.rt

// 01's number of an error.
pub fn number(error: ParseError) -> u32
    ensures { result ≡ (refusal_of error).number }
{
    error.number()
}

// Its place, 0 where there is none.
pub fn place(error: ParseError) -> usize
    ensures { result ≡ (refusal_of error).place }
{
    error.place()
}

// Its code point, 0 where there is none.
pub fn code(error: ParseError) -> u32
    ensures { result ≡ (refusal_of error).code }
{
    error.code()
}

// All three.
pub fn numbers(error: ParseError) -> RefusalNumbers
    ensures { refusal result.number result.place result.code ≡ refusal_of error }
{
    error.numbers()
}

// The numbers of a refusal with neither place nor code point.
pub fn unplaced(number: u32) -> RefusalNumbers
    ensures { result ≡ record { number = number; place = 0; code = 0 } }
{
    RefusalNumbers::unplaced(number)
}

// The numbers of a refusal with a place and no code point.
pub fn placed(number: u32, place: usize) -> RefusalNumbers
    ensures { result ≡ record { number = number; place = place; code = 0 } }
{
    RefusalNumbers::placed(number, place)
}

// The number of an answer's refusal, 0 where the call was accepted.
pub fn answer_number<T: Copy, E: Refusal>(answer: Result<T, E>) -> u32
    ensures { result ≡ answer_number E.meaning answer }
{
    sise_parser::answer_number(answer)
}

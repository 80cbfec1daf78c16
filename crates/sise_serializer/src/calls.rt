// A whole list of the writer's calls, as numbers: four words a call, and one word for each answer.
ghost use Rattle.std.specs.Prelude.{◌≡◌, get_or};
ghost use Rattle.sise_serializer.specs.Serializer.{style_of, answer_as};
ghost use Rattle.sise_serializer.specs.Calls.{Does};
ghost use Rattle.sise_serializer.specs.Parts.{Makes};
ghost use Rattle.sise_serializer.specs.Words.{call_as, answer_word, Decodes, ReadsCall, Runs, RunsFrom};

use crate::buffer::SerializerStyle;
use crate::serializer::{
    Placed, Serializer, WriteError, Wrote, close_list, finish_text, open_list, write_atom,
};
use crate::sound_serializer::SoundSerializer;
use sise_parser::{Refusal, atom_bytes};

// The record that the last call left, and how many calls ran.
#[derive(Clone, Copy, Debug, PartialEq, Eq)]
pub struct Ran {
    pub serializer: Serializer,
    pub calls: usize,
}

// A call of a list. An enum of its own: an Option or a Result has two cases, and not four.
#[derive(Clone, Copy, Debug, PartialEq, Eq)]
pub enum Call<'a> {
    PutAtom { atom: &'a [u8], break_line_at: u64 },
    BeginList { break_line_at: u64 },
    EndList,
    Finish { insert_line_break: bool },
}

impl<'a> Call<'a> {
    // The call that four words mean; none if the kind is above 4. Kinds are numbers here, since C writes them.
    #[inline(always)]
    #[tactic(auto, unfolding(crate::specs::Words::call_of))]
    fn of_words(four: [u64; 4], atoms: &'a [u8]) -> Option<Call<'a>>
        ensures { Decodes atoms.now (get_or four 0 0) (get_or four 1 0) (get_or four 2 0) (get_or four 3 0) result }
    {
        let [kind, place, len, break_line_at] = four;
        match kind {
            0 => {
                let atom = atom_bytes(atoms, place as usize, len as usize);
                Some(Call::PutAtom {
                    atom,
                    break_line_at,
                })
            }
            1 => Some(Call::BeginList { break_line_at }),
            2 => Some(Call::EndList),
            3 => Some(Call::Finish {
                insert_line_break: false,
            }),
            4 => Some(Call::Finish {
                insert_line_break: true,
            }),
            _ => None,
        }
    }
}

// The call that the first four words mean, and the words behind them. There is none where fewer are left, or where the first is no call's kind. `words` and
// `atoms` are no struct: C lends two arrays, and write_calls takes them as two parameters, in this order.
#[inline(always)]
pub fn next_call<'a, 'b>(words: &'b [u64], atoms: &'a [u8]) -> Option<(Call<'a>, &'b [u64])>
    ensures { ReadsCall words.now atoms.now result }
{
    let (four, behind) = words.split_first_chunk::<4>()?;
    let call = Call::of_words(*four, atoms)?;
    Some((call, behind))
}

// What is added to a refusal's number in its word: more than any offset.
pub const REFUSED: u64 = 4294967296;

// An answer's word, since C reads it: the offset, or 2 ^ 32 and the refusal's number.
pub fn put_word(answer: Result<usize, WriteError>) -> u64
    ensures { result ≡ answer_word (answer_as answer) }
{
    match answer {
        Ok(offset) => offset as u64,
        Err(error) => REFUSED + u64::from(error.number()),
    }
}

// Makes a call on a sound record.
#[inline(always)]
fn run_call(
    w: SoundSerializer,
    call: Call<'_>,
    style: SerializerStyle<'_>,
    buf: &mut [u8],
) -> Result<Placed, WriteError>
    ensures { Makes (call_as call.entry) (style_of style.entry) w.serializer buf.old result buf.new }
{
    match call {
        Call::PutAtom {
            atom,
            break_line_at,
        } => write_atom(w, style, buf, atom, break_line_at),
        Call::BeginList { break_line_at } => open_list(w, style, buf, break_line_at),
        Call::EndList => close_list(w, style, buf),
        Call::Finish { insert_line_break } => finish_text(w, style, buf, insert_line_break),
    }
}

impl Serializer {
    // Makes a call on any record: what the four methods share. A list of calls tests its first record alone, and goes by run_call.
    #[inline(always)]
    pub fn make_call(self, call: Call<'_>, style: SerializerStyle<'_>, buf: &mut [u8]) -> Wrote
        ensures { Does (call_as call.entry) (style_of style.entry) self buf.old result buf.new }
    {
        let Some(w) = self.sound() else {
            return self.wrote(Err(WriteError::UnsoundRecord));
        };
        self.wrote(run_call(w, call, style, buf))
    }
}

// Runs the calls that the words mean from a fresh record on.
pub fn write_calls(
    words: &[u64],
    atoms: &[u8],
    style: SerializerStyle<'_>,
    buf: &mut [u8],
    answers: &mut [u64],
) -> Ran
    ensures { Runs (style_of style.entry) words.now atoms.now buf.old answers.old result buf.new answers.new }
{
    write_calls_from(Serializer::new(), words, atoms, style, buf, answers)
}

// Runs the calls that the words mean, each with the record that the last one left, and writes the word of each answer at the call's index. Stops at a
// kind above 4, at a rest of fewer than four words, and where no word is left for an answer. From an unsound record none runs.
// `rest` is cut by next_call: with a zip over chunks of four the count behind the loop would be the smaller of two lengths, no plainer.
pub fn write_calls_from(
    from: Serializer,
    words: &[u64],
    atoms: &[u8],
    style: SerializerStyle<'_>,
    buf: &mut [u8],
    answers: &mut [u64],
) -> Ran
    ensures { RunsFrom from (style_of style.entry) words.now atoms.now buf.old answers.old result buf.new answers.new }
{
    if !from.is_sound() {
        return Ran {
            serializer: from,
            calls: 0,
        };
    }
    let mut serializer = from.by_fields();
    let mut rest = words;
    for (k, answer) in answers.iter_mut().enumerate() {
        let Some((call, behind)) = next_call(rest, atoms) else {
            return Ran {
                serializer,
                calls: k,
            };
        };
        let placed = run_call(SoundSerializer { serializer }, call, style, buf);
        let wrote = serializer.wrote(placed);
        *answer = put_word(wrote.answer);
        serializer = wrote.serializer.by_fields();
        rest = behind;
    }
    Ran {
        serializer,
        calls: answers.len(),
    }
}

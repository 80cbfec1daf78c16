// The reader's and the writer's calls made one at a time, for a program that measures them. It is a library of its own: sise_c exports what include/sise.h
// declares, and nothing for measurements.
#![tactic(auto)]

ghost use Rattle.std.specs.Prelude.{◌≡◌};
ghost use Rattle.sise_serializer.specs.Serializer.{style, style_of};
ghost use Rattle.sise_serializer.specs.Calls.{Does};
ghost use Rattle.sise_serializer.specs.Words.{call_as, Runs, WritesCalls};
ghost use Rattle.sise_singly.specs.Count.{count_items};

use sise_parser::Reader;
use sise_serializer::{Call, Ran, Serializer, SerializerStyle, Wrote, next_call, put_word};

// How many items a reader of the text gives before its first refusal; a whole text is refused with 9 after its last item. The `for` counts the items and
// bounds the calls, where a `loop` would count by hand. A text has no more items than bytes, so that the last line only ends the function.
#[unsafe(no_mangle)]
pub extern "C" fn sise_count_items(text: &[u8]) -> u64
    ensures { result ≡ count_items text.now }
{
    let mut reader = Reader::new();
    for count in 0..text.len() as u64 + 1 {
        let next = reader.next_item(text);
        let Ok(_) = next.answer else {
            return count;
        };
        reader = next.reader;
    }
    text.len() as u64 + 1
}

// Makes a call by its method, as a program does that makes the calls one at a time.
fn call_method(w: Serializer, call: Call<'_>, style: SerializerStyle<'_>, buf: &mut [u8]) -> Wrote
    ensures { Does (call_as call.entry) (style_of style.entry) w buf.old result buf.new }
{
    match call {
        Call::PutAtom {
            atom,
            break_line_at,
        } => w.put_atom(style, buf, atom, break_line_at),
        Call::BeginList { break_line_at } => w.begin_list(style, buf, break_line_at),
        Call::EndList => w.end_list(style, buf),
        Call::Finish { insert_line_break } => w.finish(style, buf, insert_line_break),
    }
}

// Does what write_calls of sise_serializer does, with each call made by its method, which tests the record. So the loop is that of write_calls_from with
// another call in it. A loop for both would be a public function over a closure, and would have to require of the closure that it makes each call as the
// definition says: no public function here requires anything.
// `rest` is cut as there.
fn run_calls(
    words: &[u64],
    atoms: &[u8],
    style: SerializerStyle<'_>,
    buf: &mut [u8],
    answers: &mut [u64],
) -> Ran
    ensures { Runs (style_of style.entry) words.now atoms.now buf.old answers.old result buf.new answers.new }
{
    let mut w = Serializer::new();
    let mut rest = words;
    for (k, answer) in answers.iter_mut().enumerate() {
        let Some((call, behind)) = next_call(rest, atoms) else {
            return Ran {
                serializer: w,
                calls: k,
            };
        };
        let wrote = call_method(w, call, style, buf);
        *answer = put_word(wrote.answer);
        w = wrote.serializer;
        rest = behind;
    }
    Ran {
        serializer: w,
        calls: answers.len(),
    }
}

// The same for callers in C. Returns how many bytes of the buffer are written.
#[unsafe(no_mangle)]
pub extern "C" fn sise_write_calls_singly(
    words: &[u64],
    atoms: &[u8],
    line_break: &[u8],
    indentation: &[u8],
    buf: &mut [u8],
    answers: &mut [u64],
) -> u64
    ensures { WritesCalls (style line_break.now indentation.now) words.now atoms.now buf.old answers.old result buf.new answers.new }
{
    let style = SerializerStyle::new(line_break, indentation);
    let ran = run_calls(words, atoms, style, buf, answers);
    ran.serializer.position as u64
}

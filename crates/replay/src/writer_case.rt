// The writer's cases.
ghost use Rattle.std.specs.Prelude.{OnOk};
ghost use Rattle.script.specs.Onward.{Onward};
ghost use Rattle.sise_serializer.specs.Serializer.{style_of};
ghost use Rattle.sise_serializer.specs.Calls.{Does};
ghost use Rattle.sise_serializer.specs.Words.{call_as};

use crate::FILL;
use lines::Printer;
use script::{MAX_LEN, Malformed, Script};
use sise_parser::Refusal;
use sise_serializer::{Call, Serializer, SerializerStyle, Wrote};

// Numbers behind their mark, or a refusal's number.
pub(crate) fn put_answer<E: Refusal, const N: usize>(
    out: &mut Printer,
    mark: u8,
    answer: Result<[usize; N], E>,
) {
    match answer {
        Ok(numbers) => {
            out.put_byte(mark);
            out.put_numbers(&numbers);
        }
        Err(error) => out.put_refusal(b"!", error, 1),
    }
}

// The record, behind a bar. It has other numbers than the reader's, which put_reader of replay_reader puts.
fn put_serializer(out: &mut Printer, serializer: Serializer) {
    out.put_bytes(b" |");
    out.put_numbers(&[
        serializer.position,
        serializer.phase as usize,
        serializer.lists,
        usize::from(serializer.list_beginning),
        serializer.line_len,
        serializer.spaces,
        serializer.breaks,
        serializer.indents,
        serializer.broken,
    ]);
}

// The line of a call: what it answered, and the record that it left. The line of a next_item call, by put_call of replay_reader, is another.
pub(crate) fn put_call<E: Refusal>(out: &mut Printer, answer: Result<usize, E>, left: Serializer) {
    put_answer(out, b'@', answer.map(|offset| [offset]));
    put_serializer(out, left);
    out.put_byte(b'\n');
}

// Makes a call by its own method, and not by `Serializer::make_call`: the comparison with the crate is one of the four methods.
fn make_call(
    serializer: Serializer,
    call: Call<'_>,
    style: SerializerStyle<'_>,
    buf: &mut [u8],
) -> Wrote
    ensures { Does (call_as call.entry) (style_of style.entry) serializer buf.old result buf.new }
{
    match call {
        Call::PutAtom {
            atom,
            break_line_at,
        } => serializer.put_atom(style, buf, atom, break_line_at),
        Call::BeginList { break_line_at } => serializer.begin_list(style, buf, break_line_at),
        Call::EndList => serializer.end_list(style, buf),
        Call::Finish { insert_line_break } => serializer.finish(style, buf, insert_line_break),
    }
}

// Runs the writer's case whose letter was read: makes its calls, all in one buffer.
pub(crate) fn run(out: &mut Printer, script: &mut Script<'_>) -> Result<(), Malformed>
    ensures { OnOk result (Onward script.old script.new) }
{
    let case = script.read_writer_case()?;
    let mut memory = [FILL; MAX_LEN];
    let buf = &mut memory[..case.room];
    let mut serializer = Serializer::new();
    out.put_bytes(b"case\n");
    for _ in 0..case.calls {
        let call = script.read_call()?;
        let wrote = make_call(serializer, call, case.style, buf);
        serializer = wrote.serializer;
        put_call(out, wrote.answer, serializer);
    }
    out.put_text(b"= ", buf.get(..serializer.position));
    Ok(())
}

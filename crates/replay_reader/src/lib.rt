// The reader's cases of a script.
#![tactic(auto)]

ghost use Rattle.std.specs.Prelude.{◌≡◌, ◌≤◌, OnOk};
ghost use Rattle.script.specs.Onward.{Onward};
ghost use Rattle.lines.specs.Put.{put};
ghost use Rattle.replay_reader.specs.Text.{reader_text, refusal_text};

use lines::Printer;
use script::{Malformed, Script, TextCase};
use sise_parser::{Next, ParseError, ParsedItem, Reader, Refusal, atom_bytes};

// A refusal: its number, its place and its code point. The printer's method of this name, with these lines' word and number of parts.
pub fn put_refusal<E: Refusal>(out: &mut Printer, error: E)
    ensures { out.new ≡ put out.old (refusal_text (E.meaning error)) }
{
    out.put_refusal(b"!", error, 3);
}

// The record, behind a bar: position, phase and lists.
pub fn put_reader(out: &mut Printer, reader: Reader)
    ensures { out.new ≡ put out.old (reader_text reader) }
{
    out.put_bytes(b" |");
    out.put_numbers(&[reader.position, reader.phase as usize, reader.lists]);
}

// The line of a next_item call.
fn put_call(out: &mut Printer, text: &[u8], next: Next)
    ensures { out.new.place ≤ 4096 }
{
    match next.answer {
        Ok(item) => out.put_item(item),
        Err(error) => put_refusal(out, error),
    }
    put_reader(out, next.reader);
    if let Ok(ParsedItem::Atom { pos, len }) = next.answer {
        out.put_bytes(b" | ");
        out.put_bytes(atom_bytes(text, pos, len));
    }
    out.put_byte(b'\n');
}

// The line of a finish call.
fn put_finished(out: &mut Printer, finished: Result<(), ParseError>)
    ensures { out.new.place ≤ 4096 }
{
    match finished {
        Ok(()) => out.put_bytes(b"ok"),
        Err(error) => put_refusal(out, error),
    }
    out.put_byte(b'\n');
}

// The case's last number says whether finish is called: 1, or 0.
fn put_case(out: &mut Printer, case: TextCase<'_>)
    ensures { out.new.place ≤ 4096 }
{
    out.put_bytes(b"case\n");
    let mut reader = Reader::new();
    for _ in 0..case.calls {
        let next = reader.next_item(case.text);
        put_call(out, case.text, next);
        reader = next.reader;
    }
    if case.last == 1 {
        put_finished(out, reader.finish(case.text));
    }
}

// Runs the reader's case whose letter was read.
pub fn run(out: &mut Printer, script: &mut Script<'_>) -> Result<(), Malformed>
    ensures read { OnOk result (Onward script.old script.new) }
    ensures within { out.old.place ≤ 4096 → out.new.place ≤ 4096 }
{
    put_case(out, script.read_text_case(1)?);
    Ok(())
}

// Prints the items of the SISE text on standard input, a line each: `L place` where a list starts, `A place length` for an atom, `E place` where a list
// ends. The last line is `ok`, or, at the first refusal, `refused number place` with document 01's number, and the place 0 where it has none. A text of
// more than 65,536 bytes gives the one line `long`.
#![tactic(auto)]

ghost use Rattle.std.specs.Prelude.{◌≡◌};
ghost use Rattle.lines.specs.Put.{put};
ghost use Rattle.items.specs.Last.{last_line};

use lines::Printer;
use sise_parser::{ParseError, Phase, Reader};

// replay_reader has a function of the same name for its own line: one for both would take both words and how many numbers stand behind them.
fn put_finished(out: &mut Printer, finished: Result<(), ParseError>)
    ensures { out.new ≡ put out.old (last_line finished) }
{
    match finished {
        Ok(()) => out.put_bytes(b"ok"),
        Err(error) => out.put_refusal(b"refused", error, 2),
    }
    out.put_byte(b'\n');
}

// Each turn but the last reads an item, and a text of n bytes has n items at most, so that n + 1 turns are enough. The turns are counted down, and no `for`
// over a range: that the loop ends is a fact of the count, which a proof states. No iterator over the items: the record goes by value from call to call, as
// document 01 names the form, and an iterator would keep it behind a `&mut`.
fn put_items(out: &mut Printer, text: &[u8]) -> Result<(), ParseError> {
    let mut reader = Reader::new();
    let mut turns = text.len() + 1;
    while 0 < turns && reader.phase != Phase::Finishing {
        turns -= 1;
        let next = reader.next_item(text);
        reader = next.reader;
        out.put_item(next.answer?);
        out.put_byte(b'\n');
    }
    reader.finish(text)
}

fn main() {
    let mut out = Printer::new();
    let mut bytes = io::large_buffer();
    let text = lines::read_input(&mut bytes);
    let mut more = [0];
    if text.len() == 65536 && !lines::read_input(&mut more).is_empty() {
        out.put_bytes(b"long\n");
    } else {
        let finished = put_items(&mut out, text);
        put_finished(&mut out, finished);
    }
    out.finish();
}

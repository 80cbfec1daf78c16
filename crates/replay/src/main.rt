// Runs the cases of a script and prints every answer, with the record that each call leaves.
//
// The script is read from standard input, 1,048,576 bytes at most: what follows is not read. It is cases with nothing between them, each begun by a letter
// for its kind. Numbers are decimal and below 1,000,000,000.
//
// R, the reader: the line `R N K F`, then the N bytes of a text, then a line end. next_item is called K times from a fresh reader, each time with the
// record that the last call left, and then finish if F is 1 (0: not). Printed is the line `case`; for each next_item the line
//     ANSWER | position phase lists
// with the record after the call, its phase 0 (beginning), 1 (parsing) or 2 (finishing), where ANSWER is `L place`, `A place length`, `E place` or
// `! number place code` (document 01's number, and 0 for a place or a code point that it has not); after an atom ` | ` and the atom's bytes follow; and
// for finish the line `ok` or `! number place code`.
//
// W, the writer: the line `W R B I K`, then the B bytes of a line break and the I bytes of an indentation, then a line end; R is at most 4096, B and
// I at most 1,048,576, which is no limit: no longer one fits into a script. K calls follow: `A N T`, a line end, the N bytes of an atom (put_atom);
// `( T` (begin_list); `) 0` (end_list); `F 1` or `F 0` (finish, with a final line break or without); and a line end after each. T is the threshold,
// 999999999 standing for the largest of 64 bits. All calls write into one buffer of R bytes, 0xAA at first: the first call gets a fresh record, each
// later one the record that the last left. Printed is the line `case`; for each call the line
//     ANSWER | position phase lists list_beginning line_len spaces breaks indents broken
// with the record after the call, its phase 0 (beginning), 1 (writing), 2 (finished) or 3 (done), list_beginning 0 or 1, where ANSWER is `@ offset` or
// `! number`; and last `= `, the buffer's bytes up to the position, and a line end.
//
// T, trees: the line `T N K W`, then the N bytes of a text, then a line end; the line `W R B I S` with a style after it, as in a writer's case; the
// line `P Q T O J`; a list of stores; and J lists, the paths. W is at most 4096, O at most W. A list is its count, at most 256, and its numbers, a
// space after each, then a line end; 999999999 stands for the largest of 64 bits.
// After K calls of next_item from a fresh reader, parse_tree is called with a table of W words, each 0xAAAAAAAA at first. Each pair of numbers among
// the stores is a place in the table and the word that is stored there: nothing for a place past the table, the largest of 32 bits for a greater
// number. The other calls are lent the table from word O on: S times serialize_tree at the threshold T, all into one buffer of R bytes, the first
// with the record that Q times begin_list and put_atom of `h`, at the largest threshold, left there, each later one with the record that the last
// left; serialize_house_at at the thresholds 0 and T and serialize_house, each from the start of another such buffer; measure_tree with a third such
// buffer's length and the first serialize_tree's record, and commit_tree three times into that buffer, each with the record that was left, with a refusal
// of 22 for the size, with that size, and with it again; and index_path and find_path with each path.
// Printed is the line `case`; for parse_tree the line
//     ANSWER | position phase lists
// where ANSWER is `# nodes` or `! number place code`, and the line of `:` and the W words, a space before each; for each writing the line of a
// writer's call, and `= ` with the buffer's bytes up to the position, before the commits the line `% bytes breaks indents` or `! number`; for each path a
// line with index_path's answer, `# index` or `! number`, then ` | `, and find_path's, `# index seen` or `! number`.
//
// At a case that is malformed, or that the script's end cuts off, the line `malformed` is printed, and nothing after it. Of a writer's case the calls
// before the malformed one are run, and of a tree's case those of the lines before the malformed one.
#![tactic(auto)]

mod tree_case;
mod writer_case;

ghost use Rattle.std.specs.Prelude.{OnOk};
ghost use Rattle.script.specs.Onward.{Onward};

use lines::Printer;
use script::{Malformed, Script};

// The byte that fills each buffer at first.
const FILL: u8 = 0xAA;

// The most bytes of a script.
const MAX_INPUT: usize = 1048576;

// Runs the case whose letter was read. It is a byte of the script, and no enum stands for it: that would be a second table of the letters.
fn run_case(out: &mut Printer, letter: u8, script: &mut Script<'_>) -> Result<(), Malformed>
    ensures { OnOk result (Onward script.old script.new) }
{
    match letter {
        b'R' => replay_reader::run(out, script),
        b'W' => writer_case::run(out, script),
        b'T' => tree_case::run(out, script),
        _ => Err(Malformed),
    }
}

// A `while` loop and no `for`: a case says by what it reads where the next one begins, so that an iterator over the script cannot be lent at the same time.
fn run_script(out: &mut Printer, script: &mut Script<'_>) -> Result<(), Malformed> {
    while let Some(letter) = script.next_byte() {
        run_case(out, letter, script)?;
    }
    Ok(())
}

// Runs the script on standard input, which is read into the array. The array's length comes from the parameter's type, and not from a proof that counts
// its zeros.
fn run_input(bytes: &mut [u8; MAX_INPUT]) {
    let mut script = Script::new(lines::read_input(bytes));
    let mut out = Printer::new();
    if run_script(&mut out, &mut script).is_err() {
        out.put_bytes(b"malformed\n");
    }
    out.finish();
}

fn main() {
    let mut bytes = [0; MAX_INPUT];
    run_input(&mut bytes);
}

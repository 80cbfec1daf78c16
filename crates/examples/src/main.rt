// Document 01's examples that are run: rows 11, 12, 14, 15, 20 and 22 of its table of refusals (row 13 takes a text of 16,777,217 bytes:
// examples/c/calls.c), its worked table and paths, and its worked writings; row 23, which request 2.2 adds; and 250 lists in each other, of which request
// 2.6 refuses none.
// Each gives a line, its name and what was answered: a number, or `refused` with the refusal's number and place. The other rows are proved
// (specs/Rows.antt of sise_tree_writer).
#![tactic(auto)]

mod line;
mod rows;
mod trees;
mod writings;

use lines::Printer;
use sise_serializer::SerializerStyle;

// The style of all examples: lines end with a line feed, and each list indents by two spaces.
pub(crate) const STYLE: SerializerStyle<'static> = SerializerStyle {
    line_break: b"\n",
    indentation: b"  ",
};

fn main() {
    let mut out = Printer::new();
    rows::put_rows(&mut out);
    trees::put_trees(&mut out);
    writings::put_writings(&mut out);
    out.finish();
}

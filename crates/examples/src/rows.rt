// Rows of the table of refusals, and lists in each other.
use crate::STYLE;
use crate::line::put_line;
use lines::Printer;
use sise_parser::{ParseError, ParsedItem, Phase, Reader};
use sise_serializer::{Serializer, WriteError};
use sise_tree::{PathError, TreeError, TreeTable, parse_tree};
use sise_tree_writer::{WriteTreeError, commit_text, measure_text};

// Position 3 in a text of one byte.
fn unsound() -> Result<ParsedItem, ParseError> {
    let reader = Reader {
        position: 3,
        phase: Phase::Beginning,
        lists: 0,
    };
    reader.next_item(b"a").answer
}

// A list that closes where a node is due.
fn closed() -> Result<usize, TreeError> {
    let mut table = [0; 4];
    let reader = Reader::new().next_item(b"()").reader;
    parse_tree(b"()", reader, &mut table).answer
}

fn table_full() -> Result<usize, TreeError> {
    let mut table = [0; 3];
    parse_tree(b"a", Reader::new(), &mut table).answer
}

// A first word that no node has.
fn no_tree() -> Result<usize, PathError> {
    let tree = TreeTable {
        text: b"a",
        table: &[4, 0, 1, 1],
    };
    tree.index_path(&[])
}

// This and no_room make one call each with a record of their own; a generic one would take the call as a closure, and is longer than both.
fn not_finished() -> Result<usize, WriteError> {
    let mut buf = [0; 1];
    Serializer::new().finish(STYLE, &mut buf, true).answer
}

// So many lists begun, one in the other, and one more in the innermost of them: what its begin_list answers.
fn nested(lists: usize) -> Result<usize, WriteError> {
    let mut buf = [0; 256];
    let mut serializer = Serializer::new();
    for _ in 0..lists {
        serializer = serializer.begin_list(STYLE, &mut buf, u64::MAX).serializer;
    }
    serializer.begin_list(STYLE, &mut buf, u64::MAX).answer
}

fn no_room() -> Result<usize, WriteError> {
    let mut buf = [0; 1];
    Serializer::new().put_atom(STYLE, &mut buf, b"ab", 0).answer
}

// `a` measured, and then `ab` committed: request 2.2.
fn size_changed() -> Result<usize, WriteTreeError> {
    let mut buf = [0; 2];
    let tree = TreeTable {
        text: b"a",
        table: &[1, 0, 1, 1],
    };
    let changed = TreeTable {
        text: b"ab",
        table: &[1, 0, 2, 1],
    };
    let size = measure_text(STYLE, 2, tree, 0, false);
    commit_text(STYLE, &mut buf, changed, 0, false, size).answer
}

pub(crate) fn put_rows(out: &mut Printer) {
    put_line(out, b"row 11", unsound().map(|_| 0));
    put_line(out, b"row 12", closed());
    put_line(out, b"row 14", table_full());
    put_line(out, b"row 15", no_tree());
    put_line(out, b"row 20", not_finished());
    put_line(out, b"list 250", nested(249));
    put_line(out, b"row 22", no_room());
    put_line(out, b"row 23", size_changed());
}

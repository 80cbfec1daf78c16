// The worked table and its paths; and the tree written again.
use crate::STYLE;
use crate::line::put_line;
use lines::Printer;
use sise_parser::Reader;
use sise_serializer::Serializer;
use sise_tree::{TreeTable, parse_tree};
use sise_tree_writer::{serialize_house, serialize_house_at, serialize_tree};

// The line of a node's words, a space between two.
fn put_row(out: &mut Printer, row: &[u32]) {
    for (i, &word) in row.iter().enumerate() {
        if 0 < i {
            out.put_byte(b' ');
        }
        out.put_decimal(word as u64);
    }
    out.put_byte(b'\n');
}

fn put_paths(out: &mut Printer, tree: TreeTable<'_>) {
    let paths: [(&[u8], &[u64]); 4] = [
        (b"no path", &[]),
        (b"path 1 1", &[1, 1]),
        (b"path 3", &[3]),
        (b"path 0 0", &[0, 0]),
    ];
    for (name, path) in paths {
        put_line(out, name, tree.index_path(path));
    }
}

// The tree on one line, in house style at 0, and in house style. A function for the line that puts what is written would be as long as that line: each call
// has to hand the buffer back before its bytes are read.
fn put_again(out: &mut Printer, tree: TreeTable<'_>) {
    let mut buf = [0; 64];
    let line = serialize_tree(Serializer::new(), STYLE, &mut buf, tree, u64::MAX).serializer;
    out.put_text(b"", buf.get(..line.position));
    let broken = serialize_house_at(&mut buf, tree, 0).serializer;
    out.put_text(b"", buf.get(..broken.position));
    let house = serialize_house(&mut buf, tree).serializer;
    out.put_text(b"", buf.get(..house.position));
}

pub(crate) fn put_trees(out: &mut Printer) {
    let text = b"(z (+1 \"a b\") ~)";
    let mut table = [7; 28];
    let read = parse_tree(text, Reader::new(), &mut table);
    put_line(out, b"nodes", read.answer);
    for row in table.chunks(4) {
        put_row(out, row);
    }
    let tree = TreeTable {
        text,
        table: &table,
    };
    put_paths(out, tree);
    put_again(out, tree);
}

// The trees' cases.
ghost use Rattle.std.specs.Prelude.{◌≤◌, OnOk};
ghost use Rattle.script.specs.Onward.{Onward};

use crate::FILL;
use crate::writer_case::{put_answer, put_call};
use lines::Printer;
use replay_reader::{put_reader, put_refusal};
use script::{MAX_LEN, Malformed, Script, TextCase, TreeCalls, WriterCase};
use sise_parser::Reader;
use sise_serializer::Serializer;
use sise_tree::{TreeTable, parse_tree};
use sise_tree_writer::{
    TreeSize, TreeWrote, WriteTreeError, commit_tree, measure_tree, serialize_house,
    serialize_house_at, serialize_tree,
};

// The line of all words of the table.
fn put_table(out: &mut Printer, table: &[u32]) {
    out.put_byte(b':');
    for &word in table {
        out.put_number(word as usize);
    }
    out.put_byte(b'\n');
}

// The reader after so many calls of next_item.
fn reader_after(text: &[u8], calls: usize) -> Reader {
    let mut reader = Reader::new();
    for _ in 0..calls {
        reader = reader.next_item(text).reader;
    }
    reader
}

// Reads a tree into the table after the case's calls of next_item, and puts the answer and the table.
fn read_tree(out: &mut Printer, case: TextCase<'_>, table: &mut [u32]) {
    out.put_bytes(b"case\n");
    let read = parse_tree(case.text, reader_after(case.text, case.calls), table);
    match read.answer {
        Ok(nodes) => out.put_letter(b'#', nodes),
        Err(error) => put_refusal(out, error),
    }
    put_reader(out, read.reader);
    out.put_byte(b'\n');
    put_table(out, table);
}

// Each pair of the numbers is a place in the table and the word that is stored there.
fn store(table: &mut [u32], numbers: &[u64]) {
    for pair in numbers.chunks_exact(2) {
        let place = usize::try_from(pair[0]).unwrap_or(usize::MAX);
        if let Some(word) = table.get_mut(place) {
            *word = u32::try_from(pair[1]).unwrap_or(u32::MAX);
        }
    }
}

// The lines of a call that wrote a tree: the call's, and what is written, the buffer up to the position, which no call moves past the buffer's end.
fn put_wrote(out: &mut Printer, buf: &[u8], wrote: TreeWrote) {
    put_call(out, wrote.answer, wrote.serializer);
    out.put_text(b"= ", buf.get(..wrote.serializer.position));
}

// The line of an enquiry.
fn put_size(out: &mut Printer, size: Result<TreeSize, WriteTreeError>) {
    let numbers = size.map(|size| [size.bytes, size.breaks, size.indents]);
    put_answer(out, b'%', numbers);
    out.put_byte(b'\n');
}

// What the writings of a case are made of: its writer's line, its tree's line, and the tree.
#[derive(Clone, Copy)]
struct Writing<'a> {
    writer: WriterCase<'a>,
    calls: TreeCalls,
    tree: TreeTable<'a>,
}

impl Writing<'_> {
    // A writer with the lists open, each with an atom in it.
    fn open_lists(self, buf: &mut [u8]) -> Serializer {
        let style = self.writer.style;
        let mut serializer = Serializer::new();
        for _ in 0..self.calls.lists {
            serializer = serializer.begin_list(style, buf, u64::MAX).serializer;
            serializer = serializer.put_atom(style, buf, b"h", u64::MAX).serializer;
        }
        serializer
    }

    // Writes the tree, again and again, in one buffer.
    fn put_trees(self, out: &mut Printer, buf: &mut [u8]) {
        let style = self.writer.style;
        let break_line_at = self.calls.break_line_at;
        let mut serializer = self.open_lists(buf);
        for _ in 0..self.writer.calls {
            let wrote = serialize_tree(serializer, style, buf, self.tree, break_line_at);
            serializer = wrote.serializer;
            put_wrote(out, buf, wrote);
        }
    }

    // Writes the tree in house style at 0, at the case's threshold, and at its own.
    fn put_houses(self, out: &mut Printer, buf: &mut [u8]) {
        for break_line_at in [0, self.calls.break_line_at] {
            let wrote = serialize_house_at(buf, self.tree, break_line_at);
            put_wrote(out, buf, wrote);
        }
        let wrote = serialize_house(buf, self.tree);
        put_wrote(out, buf, wrote);
    }

    // Measures the tree, and commits it with a refusal, and twice with its size.
    fn put_commits(self, out: &mut Printer, buf: &mut [u8]) {
        let style = self.writer.style;
        let break_line_at = self.calls.break_line_at;
        let mut serializer = self.open_lists(buf);
        let measured = measure_tree(serializer, style, buf.len(), self.tree, break_line_at);
        put_size(out, measured);
        for size in [Err(WriteTreeError::NoRoom), measured, measured] {
            let wrote = commit_tree(serializer, style, buf, self.tree, break_line_at, size);
            serializer = wrote.serializer;
            put_wrote(out, buf, wrote);
        }
    }

    // Writes the tree into a buffer of the case's length, then in house style, then by its size; before each the buffer is filled anew.
    fn put_writings(self, out: &mut Printer)
        requires { self.writer.room ≤ 4096 }
    {
        let mut memory = [FILL; MAX_LEN];
        let room = self.writer.room;
        self.put_trees(out, &mut memory[..room]);
        memory.fill(FILL);
        self.put_houses(out, &mut memory[..room]);
        memory.fill(FILL);
        self.put_commits(out, &mut memory[..room]);
    }
}

// The line of a path, which index_path and find_path follow.
fn put_path(out: &mut Printer, tree: TreeTable<'_>, path: &[u64]) {
    let index = tree.index_path(path);
    let found = tree.find_path(path);
    put_answer(out, b'#', index.map(|index| [index]));
    out.put_bytes(b" | ");
    put_answer(out, b'#', found.map(|found| [found.index, found.seen]));
    out.put_byte(b'\n');
}

// Runs the tree's case whose letter was read.
pub(crate) fn run(out: &mut Printer, script: &mut Script<'_>) -> Result<(), Malformed>
    ensures { OnOk result (Onward script.old script.new) }
{
    let case = script.read_text_case(MAX_LEN)?;
    let mut words = [0xAAAA_AAAA; MAX_LEN];
    let table = &mut words[..case.last];
    read_tree(out, case, table);
    script.read_byte(b'W')?;
    let writer = script.read_writer_case()?;
    let calls = script.read_tree_line()?;
    let mut list = [0; 256];
    store(table, script.read_numbers(&mut list)?);
    let table = table.get(calls.first..).ok_or(Malformed)?;
    let tree = TreeTable {
        text: case.text,
        table,
    };
    let writing = Writing {
        writer,
        calls,
        tree,
    };
    writing.put_writings(out);
    for _ in 0..calls.paths {
        put_path(out, tree, script.read_numbers(&mut list)?);
    }
    Ok(())
}

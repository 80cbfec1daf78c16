// Calls for programs in C and Rust, over numbers and slices alone: include/sise.h declares them and says what a caller owes. Each works on memory that is lent
// to it: it does a whole job, or is one call of the reader or the writer over the words of a record (reading.rt, writing.rt). The result is 0 or document 01's
// number of the refusal; `values` are what is answered, 0 behind a single number, or the refusal's place and code point. On a refusal nothing else is written
// but the item and the record of sise_next_item and the size of sise_measure_tree. Two calls answer otherwise: sise_atom_kind refuses nothing and returns a
// kind, and sise_write_calls returns how many bytes are written. Answers are numbers and words, a style is two slices and a tree a table and its text, since C
// hands them over and reads them so. Each call is a function of its own, under the contract of its exported name.
#![tactic(auto)]

mod items;
mod reading;
mod report;
mod writing;

ghost use Rattle.std.specs.Prelude.{◌≡◌, [], ◌∷◌, length};
ghost use Rattle.sise_util.specs.Atom.{is_atom, kind_of, kind_number};
ghost use Rattle.sise_serializer.specs.Serializer.{style};
ghost use Rattle.sise_serializer.specs.Words.{calls_of, WritesCalls};
ghost use Rattle.sise_tree.specs.IndexPath.{index_path};
ghost use Rattle.sise_tree.specs.FindPath.{find_path};
ghost use Rattle.sise_tree.specs.ParseText.{parse_text};
ghost use Rattle.sise_tree_writer.specs.Writing.{write_text};
ghost use Rattle.sise_c.specs.Reports.{checked, Reports, ReportsFound, size_of, ReportsSize, TellsCommit, WritesCommit};
ghost use Rattle.sise_c.specs.Items.{read_items};

use items::read_items;
pub use reading::{ItemWords, ReaderWords, sise_finish_reading, sise_next_item, sise_next_tree};
pub use report::{CallCount, Size, Values};
use report::{found_words, number_words, report, size_given, size_words, written};
use sise_parser::answer_number;
use sise_serializer::{SerializerStyle, WriteError, write_calls};
use sise_tree::{TreeTable, parse_text};
use sise_tree_writer::{commit_text, measure_text, write_text};
use sise_util::{check_atom, kind_number};
pub use writing::{
    WriterWords, sise_begin_list, sise_end_list, sise_finish_writing, sise_put_atom, sise_put_tree,
};

// Whether the bytes are an atom: 0 or 17.
pub fn sise_check_atom(atom: &[u8]) -> u32
    ensures { result ≡ checked (is_atom atom.now) }
{
    answer_number(check_atom(atom).ok_or(WriteError::InvalidAtom))
}

// Which atom the bytes are: 1 plain, with no `"` in it, 2 one whole string, 3 any other atom, and 0 no atom. It is the first word of such an atom in a table.
pub fn sise_atom_kind(atom: &[u8]) -> u32
    ensures { result ≡ kind_number (kind_of atom.now) }
{
    kind_number(check_atom(atom))
}

// Reads a whole text, which is one node, into the table. The first value is how many nodes it has.
pub fn sise_parse_tree(text: &[u8], table: &mut [u32], values: &mut Values) -> u32
    ensures answer { Reports (parse_text text.now table.old).answer result values.new }
    ensures words { table.new ≡ (parse_text text.now table.old).words }
{
    report(parse_text(text, table).map(number_words), values)
}

// Finds the node at the end of the path. The first value is its index in the table.
pub fn sise_index_path(table: &[u32], text: &[u8], path: &[u64], values: &mut Values) -> u32
    ensures { Reports (index_path table.now text.now path.now) result values.new }
{
    let tree = TreeTable { table, text };
    report(tree.index_path(path).map(number_words), values)
}

// Finds the node at the end of the path as the table has it, which is not tested: only the nodes on the way are read. The values are the node's index in the
// table and the number of nodes looked at.
pub fn sise_find_path(table: &[u32], text: &[u8], path: &[u64], values: &mut Values) -> u32
    ensures { ReportsFound (find_path table.now text.now path.now) result values.new }
{
    let tree = TreeTable { table, text };
    report(tree.find_path(path).map(found_words), values)
}

// Writes the tree that the table holds over the text to the buffer's start, and a line break after it if wished. The first value is how many bytes are written.
pub fn sise_serialize_tree(
    line_break: &[u8],
    indentation: &[u8],
    buf: &mut [u8],
    text: &[u8],
    table: &[u32],
    break_line_at: u64,
    final_break: bool,
    values: &mut Values,
) -> u32
    ensures answer { Reports (size_of (write_text (style line_break.now indentation.now) buf.old text.now table.now break_line_at final_break)) result values.new }
    ensures bytes { buf.new ≡ (write_text (style line_break.now indentation.now) buf.old text.now table.now break_line_at final_break).buffer }
{
    let style = SerializerStyle::new(line_break, indentation);
    let tree = TreeTable { table, text };
    let wrote = write_text(style, buf, tree, break_line_at, final_break);
    report(written(wrote), values)
}

// Size first: the bytes, line breaks and indentations that sise_serialize_tree would write with a buffer of `buf_len` bytes, or its refusal. Nothing is written
// but the three words of the size, which of a refusal are 0.
pub fn sise_measure_tree(
    line_break: &[u8],
    indentation: &[u8],
    buf_len: usize,
    text: &[u8],
    table: &[u32],
    break_line_at: u64,
    final_break: bool,
    size: &mut Size,
) -> u32
    ensures { ReportsSize buf_len (λ b. write_text (style line_break.now indentation.now) b text.now table.now break_line_at final_break) result size.new }
{
    let style = SerializerStyle::new(line_break, indentation);
    let tree = TreeTable { table, text };
    let answer = measure_text(style, buf_len, tree, break_line_at, final_break);
    report(answer.map(size_words), size)
}

// Then the text: writes it as sise_serialize_tree does, if the size is still what sise_measure_tree answers with a buffer of this length, and else refuses with
// 23, after all other refusals.
pub fn sise_commit_tree(
    line_break: &[u8],
    indentation: &[u8],
    buf: &mut [u8],
    text: &[u8],
    table: &[u32],
    break_line_at: u64,
    final_break: bool,
    size: &Size,
    values: &mut Values,
) -> u32
    ensures answer { TellsCommit (style line_break.now indentation.now) buf.old text.now table.now break_line_at final_break size.now result values.new }
    ensures bytes { WritesCommit (style line_break.now indentation.now) buf.old text.now table.now break_line_at final_break size.now buf.new }
{
    let style = SerializerStyle::new(line_break, indentation);
    let given = Ok(size_given(size));
    let tree = TreeTable { table, text };
    let wrote = commit_text(style, buf, tree, break_line_at, final_break, given);
    report(written(wrote), values)
}

// Reads the items of a whole text into words, four an item, as sise_write_calls takes them. The first value is how many items there are.
pub fn sise_read_items(text: &[u8], words: &mut [u64], values: &mut Values) -> u32
    ensures answer { Reports (read_items text.now words.old).answer result values.new }
    ensures words { words.new ≡ (read_items text.now words.old).words }
{
    report(read_items(text, words).map(number_words), values)
}

// Runs a list of writer calls, as write_calls of sise_serializer does, and returns how many bytes of the buffer are written. `ran` is how many calls ran.
pub fn sise_write_calls(
    words: &[u64],
    atoms: &[u8],
    line_break: &[u8],
    indentation: &[u8],
    buf: &mut [u8],
    answers: &mut [u64],
    ran: &mut CallCount,
) -> u64
    ensures writes { WritesCalls (style line_break.now indentation.now) words.now atoms.now buf.old answers.old result buf.new answers.new }
    ensures ran { ran.new ≡ length (calls_of words.now atoms.now (length answers.old)) ∷ [] }
{
    let style = SerializerStyle::new(line_break, indentation);
    let all = write_calls(words, atoms, style, buf, answers);
    *ran = [all.calls as u64];
    all.serializer.position as u64
}

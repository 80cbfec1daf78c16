// The calls of sise_c that do a whole job, for programs in C and Rust: include/sise.h declares them and says what a caller owes. Each calls the library's
// function of its name, under the contract that it has there. The bodies stand in sise_c, which the contract crates call: a crate is a library or a static
// library, and not both. The single calls are exported by sise_c_singly.
#![tactic(auto)]

ghost use Rattle.std.specs.Prelude.{◌≡◌, [], ◌∷◌, length};
ghost use Rattle.sise_serializer.specs.Words.{calls_of, WritesCalls};
ghost use Rattle.sise_util.specs.Atom.{is_atom, kind_of, kind_number};
ghost use Rattle.sise_serializer.specs.Serializer.{style};
ghost use Rattle.sise_tree.specs.IndexPath.{index_path};
ghost use Rattle.sise_tree.specs.FindPath.{find_path};
ghost use Rattle.sise_tree.specs.ParseText.{parse_text};
ghost use Rattle.sise_tree_writer.specs.Writing.{write_text};
ghost use Rattle.sise_c.specs.Reports.{checked, Reports, ReportsFound, size_of, ReportsSize, TellsCommit, WritesCommit};
ghost use Rattle.sise_c.specs.Items.{read_items};

use sise_c::{CallCount, Size, Values};

// Whether the bytes are an atom: 0 or 17.
#[unsafe(no_mangle)]
pub extern "C" fn sise_check_atom(atom: &[u8]) -> u32
    ensures { result ≡ checked (is_atom atom.now) }
{
    sise_c::sise_check_atom(atom)
}

// Which atom the bytes are: 1 plain, with no `"` in it, 2 one whole string, 3 any other atom, and 0 no atom. It is the first word of such an atom in a table.
#[unsafe(no_mangle)]
pub extern "C" fn sise_atom_kind(atom: &[u8]) -> u32
    ensures { result ≡ kind_number (kind_of atom.now) }
{
    sise_c::sise_atom_kind(atom)
}

// Reads a whole text, which is one node, into the table. The first value is how many nodes it has.
#[unsafe(no_mangle)]
pub extern "C" fn sise_parse_tree(text: &[u8], table: &mut [u32], values: &mut Values) -> u32
    ensures answer { Reports (parse_text text.now table.old).answer result values.new }
    ensures words { table.new ≡ (parse_text text.now table.old).words }
{
    sise_c::sise_parse_tree(text, table, values)
}

// Finds the node at the end of the path. The first value is its index in the table.
#[unsafe(no_mangle)]
pub extern "C" fn sise_index_path(
    table: &[u32],
    text: &[u8],
    path: &[u64],
    values: &mut Values,
) -> u32
    ensures { Reports (index_path table.now text.now path.now) result values.new }
{
    sise_c::sise_index_path(table, text, path, values)
}

// Finds the node at the end of the path as the table has it, which is not tested: only the nodes on the way are read. The values are the node's index in the
// table and the number of nodes looked at.
#[unsafe(no_mangle)]
pub extern "C" fn sise_find_path(
    table: &[u32],
    text: &[u8],
    path: &[u64],
    values: &mut Values,
) -> u32
    ensures { ReportsFound (find_path table.now text.now path.now) result values.new }
{
    sise_c::sise_find_path(table, text, path, values)
}

// Writes the tree that the table holds over the text to the buffer's start, and a line break after it if wished. The first value is how many bytes are written.
#[unsafe(no_mangle)]
pub extern "C" fn sise_serialize_tree(
    line_break: &[u8],
    indentation: &[u8],
    buf: &mut [u8],
    text: &[u8],
    table: &[u32],
    break_line_at: u64,
    final_break: bool,
    values: &mut Values,
) -> u32
    ensures answer { Reports (size_of (write_text (style line_break.now indentation.now) buf.old text.now table.now break_line_at final_break)) result values.new }
    ensures bytes { buf.new ≡ (write_text (style line_break.now indentation.now) buf.old text.now table.now break_line_at final_break).buffer }
{
    sise_c::sise_serialize_tree(
        line_break,
        indentation,
        buf,
        text,
        table,
        break_line_at,
        final_break,
        values,
    )
}

// Size first: the bytes, line breaks and indentations that sise_serialize_tree would write with a buffer of `buf_len` bytes, or its refusal. Nothing is written
// but the three words of the size, which of a refusal are 0.
#[unsafe(no_mangle)]
pub extern "C" fn sise_measure_tree(
    line_break: &[u8],
    indentation: &[u8],
    buf_len: usize,
    text: &[u8],
    table: &[u32],
    break_line_at: u64,
    final_break: bool,
    size: &mut Size,
) -> u32
    ensures { ReportsSize buf_len (λ b. write_text (style line_break.now indentation.now) b text.now table.now break_line_at final_break) result size.new }
{
    sise_c::sise_measure_tree(
        line_break,
        indentation,
        buf_len,
        text,
        table,
        break_line_at,
        final_break,
        size,
    )
}

// Then the text: writes it as sise_serialize_tree does, if the size is still what sise_measure_tree answers with a buffer of this length, and else refuses with
// 23, after all other refusals.
#[unsafe(no_mangle)]
pub extern "C" fn sise_commit_tree(
    line_break: &[u8],
    indentation: &[u8],
    buf: &mut [u8],
    text: &[u8],
    table: &[u32],
    break_line_at: u64,
    final_break: bool,
    size: &Size,
    values: &mut Values,
) -> u32
    ensures answer { TellsCommit (style line_break.now indentation.now) buf.old text.now table.now break_line_at final_break size.now result values.new }
    ensures bytes { WritesCommit (style line_break.now indentation.now) buf.old text.now table.now break_line_at final_break size.now buf.new }
{
    sise_c::sise_commit_tree(
        line_break,
        indentation,
        buf,
        text,
        table,
        break_line_at,
        final_break,
        size,
        values,
    )
}

// Reads the items of a whole text into words, four an item, as sise_write_calls takes them. The first value is how many items there are.
#[unsafe(no_mangle)]
pub extern "C" fn sise_read_items(text: &[u8], words: &mut [u64], values: &mut Values) -> u32
    ensures answer { Reports (read_items text.now words.old).answer result values.new }
    ensures words { words.new ≡ (read_items text.now words.old).words }
{
    sise_c::sise_read_items(text, words, values)
}

// Runs a list of writer calls, as write_calls of sise_serializer does, and returns how many bytes of the buffer are written. `ran` is how many calls ran.
#[unsafe(no_mangle)]
pub extern "C" fn sise_write_calls(
    words: &[u64],
    atoms: &[u8],
    line_break: &[u8],
    indentation: &[u8],
    buf: &mut [u8],
    answers: &mut [u64],
    ran: &mut CallCount,
) -> u64
    ensures writes { WritesCalls (style line_break.now indentation.now) words.now atoms.now buf.old answers.old result buf.new answers.new }
    ensures ran { ran.new ≡ length (calls_of words.now atoms.now (length answers.old)) ∷ [] }
{
    sise_c::sise_write_calls(words, atoms, line_break, indentation, buf, answers, ran)
}

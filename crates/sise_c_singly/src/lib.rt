// The single calls of sise_c, over the words of a record that the caller keeps, for programs in C and Rust: include/sise.h declares them. They are exported
// apart from those that do a whole job (sise_c_c), so that each of the two objects of libsise_c.a has the library's steps to itself: a second caller of a step
// changes what the compiler makes part of what, and made the whole jobs slower.
#![tactic(auto)]

ghost use Rattle.std.specs.Prelude.{◌≡◌};
ghost use Rattle.sise_serializer.specs.Calls.{put_atom_call, begin_list_call, end_list_call, finish_call};
ghost use Rattle.sise_serializer.specs.Serializer.{style};
ghost use Rattle.sise_c.specs.Reports.{Reports};
ghost use Rattle.sise_c.specs.Singly.{ReportsNext, next_of, finish_of, call_on, next_tree_of, put_tree_of};

use sise_c::{ItemWords, ReaderWords, Values, WriterWords};

// Reads the next item of the text. `item` is its kind, place and length; of a refusal 0, its place and code point. The record's words are for the next call.
#[unsafe(no_mangle)]
pub extern "C" fn sise_next_item(text: &[u8], record: &mut ReaderWords, item: &mut ItemWords) -> u32
    ensures answer { ReportsNext (next_of text.now «record».old).answer result item.new }
    ensures words { «record».new ≡ (next_of text.now «record».old).words }
{
    sise_c::sise_next_item(text, record, item)
}

// Whether the text ends after the last item. The record's words are of no use after it.
#[unsafe(no_mangle)]
pub extern "C" fn sise_finish_reading(text: &[u8], record: &ReaderWords, values: &mut Values) -> u32
    ensures { Reports (finish_of text.now «record».now) result values.new }
{
    sise_c::sise_finish_reading(text, record, values)
}

// Reads the node due into the table's first words. The first value is how many nodes it has; of a refusal the values are place and code point. The record's
// words are for the next call.
#[unsafe(no_mangle)]
pub extern "C" fn sise_next_tree(
    text: &[u8],
    record: &mut ReaderWords,
    table: &mut [u32],
    values: &mut Values,
) -> u32
    ensures answer { Reports (next_tree_of text.now «record».old table.old).answer result values.new }
    ensures words { «record».new ≡ (next_tree_of text.now «record».old table.old).words }
    ensures nodes { table.new ≡ (next_tree_of text.now «record».old table.old).table }
{
    sise_c::sise_next_tree(text, record, table, values)
}

// Puts an atom. The first value is its offset.
#[unsafe(no_mangle)]
pub extern "C" fn sise_put_atom(
    line_break: &[u8],
    indentation: &[u8],
    buf: &mut [u8],
    atom: &[u8],
    break_line_at: u64,
    record: &mut WriterWords,
    values: &mut Values,
) -> u32
    ensures answer { Reports (call_on (put_atom_call atom.now break_line_at) (style line_break.now indentation.now) «record».old buf.old).answer result values.new }
    ensures words { «record».new ≡ (call_on (put_atom_call atom.now break_line_at) (style line_break.now indentation.now) «record».old buf.old).words }
    ensures bytes { buf.new ≡ (call_on (put_atom_call atom.now break_line_at) (style line_break.now indentation.now) «record».old buf.old).buffer }
{
    sise_c::sise_put_atom(
        line_break,
        indentation,
        buf,
        atom,
        break_line_at,
        record,
        values,
    )
}

// Begins a list. The first value is the offset of its `(`.
#[unsafe(no_mangle)]
pub extern "C" fn sise_begin_list(
    line_break: &[u8],
    indentation: &[u8],
    buf: &mut [u8],
    break_line_at: u64,
    record: &mut WriterWords,
    values: &mut Values,
) -> u32
    ensures answer { Reports (call_on (begin_list_call break_line_at) (style line_break.now indentation.now) «record».old buf.old).answer result values.new }
    ensures words { «record».new ≡ (call_on (begin_list_call break_line_at) (style line_break.now indentation.now) «record».old buf.old).words }
    ensures bytes { buf.new ≡ (call_on (begin_list_call break_line_at) (style line_break.now indentation.now) «record».old buf.old).buffer }
{
    sise_c::sise_begin_list(line_break, indentation, buf, break_line_at, record, values)
}

// Ends the innermost open list. The first value is the offset of its `)`.
#[unsafe(no_mangle)]
pub extern "C" fn sise_end_list(
    line_break: &[u8],
    indentation: &[u8],
    buf: &mut [u8],
    record: &mut WriterWords,
    values: &mut Values,
) -> u32
    ensures answer { Reports (call_on end_list_call (style line_break.now indentation.now) «record».old buf.old).answer result values.new }
    ensures words { «record».new ≡ (call_on end_list_call (style line_break.now indentation.now) «record».old buf.old).words }
    ensures bytes { buf.new ≡ (call_on end_list_call (style line_break.now indentation.now) «record».old buf.old).buffer }
{
    sise_c::sise_end_list(line_break, indentation, buf, record, values)
}

// Ends the text, with a line break if wished. The first value is the text's end.
#[unsafe(no_mangle)]
pub extern "C" fn sise_finish_writing(
    line_break: &[u8],
    indentation: &[u8],
    buf: &mut [u8],
    final_break: bool,
    record: &mut WriterWords,
    values: &mut Values,
) -> u32
    ensures answer { Reports (call_on (finish_call final_break) (style line_break.now indentation.now) «record».old buf.old).answer result values.new }
    ensures words { «record».new ≡ (call_on (finish_call final_break) (style line_break.now indentation.now) «record».old buf.old).words }
    ensures bytes { buf.new ≡ (call_on (finish_call final_break) (style line_break.now indentation.now) «record».old buf.old).buffer }
{
    sise_c::sise_finish_writing(line_break, indentation, buf, final_break, record, values)
}

// Writes the tree that the table holds over `text` behind what the record has written. The first value is the offset of its first item.
#[unsafe(no_mangle)]
pub extern "C" fn sise_put_tree(
    line_break: &[u8],
    indentation: &[u8],
    buf: &mut [u8],
    text: &[u8],
    table: &[u32],
    break_line_at: u64,
    record: &mut WriterWords,
    values: &mut Values,
) -> u32
    ensures answer { Reports (put_tree_of (style line_break.now indentation.now) «record».old buf.old text.now table.now break_line_at).answer result values.new }
    ensures words { «record».new ≡ (put_tree_of (style line_break.now indentation.now) «record».old buf.old text.now table.now break_line_at).words }
    ensures bytes { buf.new ≡ (put_tree_of (style line_break.now indentation.now) «record».old buf.old text.now table.now break_line_at).buffer }
{
    sise_c::sise_put_tree(
        line_break,
        indentation,
        buf,
        text,
        table,
        break_line_at,
        record,
        values,
    )
}

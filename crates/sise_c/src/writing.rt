// The writer's calls one by one, over the words of a record that the caller keeps: position, phase (0 beginning, 1 writing, 2 finished, 3 done), open lists,
// how many of them have a line break in them, whether the list is at its beginning (0 or 1), line length, spaces, breaks and indents. The style is two slices,
// and each call a function of its own, as lib.rt says.
ghost use Rattle.std.specs.Prelude.{◌≡◌};
ghost use Rattle.sise_serializer.specs.Calls.{put_atom_call, begin_list_call, end_list_call, finish_call};
ghost use Rattle.sise_serializer.specs.Serializer.{style, style_of};
ghost use Rattle.sise_serializer.specs.Words.{call_as};
ghost use Rattle.sise_c.specs.Records.{flag_of, serializer_of, serializer_words};
ghost use Rattle.sise_c.specs.Reports.{Reports};
ghost use Rattle.sise_c.specs.Singly.{call_on, Makes, put_tree_of, PutsTree};

use crate::report::{Values, number_words, report};
use sise_serializer::{Call, Phase, Serializer, SerializerStyle, WriteError};
use sise_tree::{LONGEST, TreeTable};
use sise_tree_writer::{WriteTreeError, serialize_tree};

// A writer's record in words: C keeps it between the calls, and include/sise.h has it as an array.
pub type WriterWords = [u64; 9];

// A flag's word is 0 or 1. A `match` and no TryFrom: the library has none from u64 to bool.
fn flag_of(word: u64) -> Option<bool>
    ensures { result ≡ flag_of word }
{
    match word {
        0 => Some(false),
        1 => Some(true),
        _ => None,
    }
}

// Words mean a record if the second is a phase and the fifth a flag. A function, and so is writer_words, as in reading.rt: no impl of the two types can stand
// here.
#[tactic(auto, using(crate::proofs::RecordLaws::no_writer_phase), unfolding(crate::specs::Records::serializer_of))]
fn writer_of(words: &WriterWords) -> Option<Serializer>
    ensures { result ≡ serializer_of words.now }
{
    let phase = Phase::try_from(words[1]).ok()?;
    let list_beginning = flag_of(words[4])?;
    Some(Serializer {
        position: words[0] as usize,
        lists: words[2] as usize,
        broken: words[3] as usize,
        line_len: words[5] as usize,
        spaces: words[6] as usize,
        breaks: words[7] as usize,
        indents: words[8] as usize,
        phase,
        list_beginning,
    })
}

// The words of a record.
fn writer_words(w: Serializer) -> WriterWords
    ensures { result ≡ serializer_words w }
{
    let phase = w.phase;
    [
        w.position as u64,
        phase as u64,
        w.lists as u64,
        w.broken as u64,
        u64::from(w.list_beginning),
        w.line_len as u64,
        w.spaces as u64,
        w.breaks as u64,
        w.indents as u64,
    ]
}

// Makes a call with the record that the words mean, which become those of the record after it. Words that mean none are refused and stay.
#[inline(always)]
#[tactic(auto, unfolding(crate::specs::Singly::call_on, crate::specs::Singly::call_by))]
fn call_on(
    call: Call<'_>,
    style: SerializerStyle<'_>,
    buf: &mut [u8],
    record: &mut WriterWords,
) -> Result<usize, WriteError>
    ensures { Makes (call_on (call_as call.entry) (style_of style.entry) «record».old buf.old) result «record».new buf.new }
{
    let w = writer_of(record).ok_or(WriteError::UnsoundRecord)?;
    let wrote = w.make_call(call, style, buf);
    *record = writer_words(wrote.serializer);
    wrote.answer
}

// Puts an atom. The first value is its offset.
pub fn sise_put_atom(
    line_break: &[u8],
    indentation: &[u8],
    buf: &mut [u8],
    atom: &[u8],
    break_line_at: u64,
    record: &mut WriterWords,
    values: &mut Values,
) -> u32
    ensures answer { Reports (call_on (put_atom_call atom.now break_line_at) (style line_break.now indentation.now) «record».old buf.old).answer result values.new }
    ensures words { «record».new ≡ (call_on (put_atom_call atom.now break_line_at) (style line_break.now indentation.now) «record».old buf.old).words }
    ensures bytes { buf.new ≡ (call_on (put_atom_call atom.now break_line_at) (style line_break.now indentation.now) «record».old buf.old).buffer }
{
    let style = SerializerStyle::new(line_break, indentation);
    let call = Call::PutAtom {
        atom,
        break_line_at,
    };
    report(call_on(call, style, buf, record).map(number_words), values)
}

// Begins a list. The first value is the offset of its `(`.
pub fn sise_begin_list(
    line_break: &[u8],
    indentation: &[u8],
    buf: &mut [u8],
    break_line_at: u64,
    record: &mut WriterWords,
    values: &mut Values,
) -> u32
    ensures answer { Reports (call_on (begin_list_call break_line_at) (style line_break.now indentation.now) «record».old buf.old).answer result values.new }
    ensures words { «record».new ≡ (call_on (begin_list_call break_line_at) (style line_break.now indentation.now) «record».old buf.old).words }
    ensures bytes { buf.new ≡ (call_on (begin_list_call break_line_at) (style line_break.now indentation.now) «record».old buf.old).buffer }
{
    let style = SerializerStyle::new(line_break, indentation);
    let call = Call::BeginList { break_line_at };
    report(call_on(call, style, buf, record).map(number_words), values)
}

// Ends the innermost open list. The first value is the offset of its `)`.
pub fn sise_end_list(
    line_break: &[u8],
    indentation: &[u8],
    buf: &mut [u8],
    record: &mut WriterWords,
    values: &mut Values,
) -> u32
    ensures answer { Reports (call_on end_list_call (style line_break.now indentation.now) «record».old buf.old).answer result values.new }
    ensures words { «record».new ≡ (call_on end_list_call (style line_break.now indentation.now) «record».old buf.old).words }
    ensures bytes { buf.new ≡ (call_on end_list_call (style line_break.now indentation.now) «record».old buf.old).buffer }
{
    let style = SerializerStyle::new(line_break, indentation);
    let answer = call_on(Call::EndList, style, buf, record);
    report(answer.map(number_words), values)
}

// Ends the text, with a line break if wished. The first value is the text's end.
pub fn sise_finish_writing(
    line_break: &[u8],
    indentation: &[u8],
    buf: &mut [u8],
    final_break: bool,
    record: &mut WriterWords,
    values: &mut Values,
) -> u32
    ensures answer { Reports (call_on (finish_call final_break) (style line_break.now indentation.now) «record».old buf.old).answer result values.new }
    ensures words { «record».new ≡ (call_on (finish_call final_break) (style line_break.now indentation.now) «record».old buf.old).words }
    ensures bytes { buf.new ≡ (call_on (finish_call final_break) (style line_break.now indentation.now) «record».old buf.old).buffer }
{
    let style = SerializerStyle::new(line_break, indentation);
    let call = Call::Finish {
        insert_line_break: final_break,
    };
    report(call_on(call, style, buf, record).map(number_words), values)
}

// Writes a tree by the record that the words mean, as call_on makes a call.
#[tactic(auto, unfolding(crate::specs::Singly::put_tree_of, crate::specs::Singly::put_tree_by, crate::specs::Singly::no_record))]
fn put_tree(
    style: SerializerStyle<'_>,
    buf: &mut [u8],
    tree: TreeTable<'_>,
    break_line_at: u64,
    record: &mut WriterWords,
) -> Result<usize, WriteTreeError>
    ensures { PutsTree (put_tree_of (style_of style.entry) «record».old buf.old tree.entry.text.now tree.entry.table.now break_line_at) result «record».new buf.new }
{
    let unread = if tree.text.len() > LONGEST {
        WriteTreeError::TextTooLong
    } else {
        WriteTreeError::UnsoundRecord
    };
    let w = writer_of(record).ok_or(unread)?;
    let wrote = serialize_tree(w, style, buf, tree, break_line_at);
    *record = writer_words(wrote.serializer);
    wrote.answer
}

// Writes the tree that the table holds over `text` behind what the record has written. The first value is the offset of its first item.
pub fn sise_put_tree(
    line_break: &[u8],
    indentation: &[u8],
    buf: &mut [u8],
    text: &[u8],
    table: &[u32],
    break_line_at: u64,
    record: &mut WriterWords,
    values: &mut Values,
) -> u32
    ensures answer { Reports (put_tree_of (style line_break.now indentation.now) «record».old buf.old text.now table.now break_line_at).answer result values.new }
    ensures words { «record».new ≡ (put_tree_of (style line_break.now indentation.now) «record».old buf.old text.now table.now break_line_at).words }
    ensures bytes { buf.new ≡ (put_tree_of (style line_break.now indentation.now) «record».old buf.old text.now table.now break_line_at).buffer }
{
    let style = SerializerStyle::new(line_break, indentation);
    let tree = TreeTable { table, text };
    let answer = put_tree(style, buf, tree, break_line_at, record);
    report(answer.map(number_words), values)
}

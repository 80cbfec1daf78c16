// The tree that a table holds, written as the writer's calls would write it: in one call, or measured first and then committed. Each public call makes a
// `Writing` of its arguments and calls its method, as those of whole.rt do. The arguments are those of the crate's serialize_tree, in its order, and a room or
// a measured size.
ghost use Rattle.std.specs.Prelude.{◌≡◌};
ghost use Rattle.sise_serializer.specs.Serializer.{style_of};
ghost use Rattle.sise_tree_writer.specs.Answers.{refusal_of, write_refusal};
ghost use Rattle.sise_tree_writer.specs.SerializeTree.{serialize_tree, DoesWrite};
ghost use Rattle.sise_tree_writer.specs.Sizes.{MeasuresTree, CommitsTree};

use crate::size::TreeSize;
use crate::writing::Writing;
use sise_parser::{Refusal, RefusalNumbers};
use sise_serializer::{Serializer, SerializerStyle, Wrote};
use sise_tree::{TableError, TreeTable};

// Why a call that writes or measures a tree is refused, by document 01's numbers. Only a commit answers SizeChanged. Each error has only the refusals that its
// calls can give: so it holds no WriteError, two of whose cases, NoListToEnd and WritingNotFinished, no tree is refused for, and no PathError.
#[derive(Clone, Copy, Debug, PartialEq, Eq)]
pub enum WriteTreeError {
    TextTooLong = 13,
    UnsoundRecord = 11,
    NotATree = 15,
    InvalidAtom = 17,
    WritingFinished = 19,
    NoRoom = 22,
    SizeChanged = 23,
}

// What a call that writes a tree hands back: the record, and the offset of the first item.
pub type TreeWrote = Wrote<WriteTreeError>;

impl Refusal for WriteTreeError {
    ghost meaning = { write_refusal };

    // The same line stands in WriteError and PathError: the trait's own method could not cast, since it knows no numbers of its Self.
    fn numbers(self) -> RefusalNumbers {
        RefusalNumbers::unplaced(self as u32)
    }
}

// A table that holds no tree of atoms is refused for the same reason.
impl From<TableError> for WriteTreeError {
    ghost from_gives = { λ error e. e ≡ refusal_of error };

    fn from(error: TableError) -> WriteTreeError {
        match error {
            TableError::NotATree => WriteTreeError::NotATree,
            TableError::NoAtom => WriteTreeError::InvalidAtom,
        }
    }
}

// Size first: what serialize_tree would add with a buffer of `room` bytes, or its refusal. Nothing is written.
pub fn measure_tree(
    serializer: Serializer,
    style: SerializerStyle<'_>,
    room: usize,
    tree: TreeTable<'_>,
    break_line_at: u64,
) -> Result<TreeSize, WriteTreeError>
    ensures { MeasuresTree (style_of style.entry) room serializer tree.entry.text.now tree.entry.table.now break_line_at result }
{
    let writing = Writing::new(style, tree, break_line_at, None);
    writing.measure(serializer, room)
}

// Then the text: writes the tree as serialize_tree does, if `measured` is still what measure_tree answers with a buffer of this length. Where document 01
// refuses the tree, so does the commit; where another size is due, or a refusal was handed over, it answers SizeChanged.
pub fn commit_tree(
    serializer: Serializer,
    style: SerializerStyle<'_>,
    buf: &mut [u8],
    tree: TreeTable<'_>,
    break_line_at: u64,
    measured: Result<TreeSize, WriteTreeError>,
) -> TreeWrote
    ensures { CommitsTree (style_of style.entry) buf.old serializer tree.entry.text.now tree.entry.table.now break_line_at measured result buf.new }
{
    let writing = Writing::new(style, tree, break_line_at, None);
    serializer.wrote(writing.commit(serializer, buf, measured))
}

// Writes the tree that `tree` holds. An item goes on a new line if the line is at least `break_line_at` bytes long, but an atom that is its list's first child
// stays on the line of the `(`. A `)` goes on a new line if its list has a line break in it. A refusal writes nothing and leaves the record.
pub fn serialize_tree(
    serializer: Serializer,
    style: SerializerStyle<'_>,
    buf: &mut [u8],
    tree: TreeTable<'_>,
    break_line_at: u64,
) -> TreeWrote
    ensures { DoesWrite (serialize_tree (style_of style.entry) buf.old serializer tree.entry.text.now tree.entry.table.now break_line_at) result buf.new }
{
    let writing = Writing::new(style, tree, break_line_at, None);
    serializer.wrote(writing.write(serializer, buf))
}

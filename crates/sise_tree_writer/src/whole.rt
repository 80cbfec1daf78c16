// Whole texts, written from a lent table, or measured and then written: the tree, and a finish.
ghost use Rattle.sise_serializer.specs.Serializer.{style_of};
ghost use Rattle.sise_tree_writer.specs.SerializeTree.{DoesWrite};
ghost use Rattle.sise_tree_writer.specs.Writing.{write_text};
ghost use Rattle.sise_tree_writer.specs.Sizes.{MeasuresText, CommitsText};

use crate::serialize::{TreeWrote, WriteTreeError};
use crate::size::TreeSize;
use crate::writing::Writing;
use sise_serializer::{Serializer, SerializerStyle};
use sise_tree::TreeTable;

// Size first: what write_text would write with a buffer of `room` bytes, or its refusal. Nothing is written.
pub fn measure_text(
    style: SerializerStyle<'_>,
    room: usize,
    tree: TreeTable<'_>,
    break_line_at: u64,
    final_break: bool,
) -> Result<TreeSize, WriteTreeError>
    ensures { MeasuresText (style_of style.entry) room tree.entry.text.now tree.entry.table.now break_line_at final_break result }
{
    let writing = Writing::new(style, tree, break_line_at, Some(final_break));
    writing.measure(Serializer::new(), room)
}

// Then the text: writes it as write_text does, if `measured` is still what measure_text answers with a buffer of this length. Where document 01 refuses the
// tree, so does the commit; where another size is due, or a refusal was handed over, it answers SizeChanged.
pub fn commit_text(
    style: SerializerStyle<'_>,
    buf: &mut [u8],
    tree: TreeTable<'_>,
    break_line_at: u64,
    final_break: bool,
    measured: Result<TreeSize, WriteTreeError>,
) -> TreeWrote
    ensures { CommitsText (style_of style.entry) buf.old tree.entry.text.now tree.entry.table.now break_line_at final_break measured result buf.new }
{
    let fresh = Serializer::new();
    let writing = Writing::new(style, tree, break_line_at, Some(final_break));
    fresh.wrote(writing.commit(fresh, buf, measured))
}

// Writes a whole text: the tree that `tree` holds, and a line break behind it if wished.
pub fn write_text(
    style: SerializerStyle<'_>,
    buf: &mut [u8],
    tree: TreeTable<'_>,
    break_line_at: u64,
    final_break: bool,
) -> TreeWrote
    ensures { DoesWrite (write_text (style_of style.entry) buf.old tree.entry.text.now tree.entry.table.now break_line_at final_break) result buf.new }
{
    let fresh = Serializer::new();
    let writing = Writing::new(style, tree, break_line_at, Some(final_break));
    fresh.wrote(writing.write(fresh, buf))
}

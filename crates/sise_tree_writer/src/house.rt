// The house style: LF, two spaces, a new line for the next item where a line is at least 72 bytes long, and a line break at the end.
ghost use Rattle.sise_tree_writer.specs.SerializeTree.{DoesWrite};
ghost use Rattle.sise_tree_writer.specs.House.{house_at, house};

use crate::serialize::TreeWrote;
use crate::whole::write_text;
use sise_serializer::SerializerStyle;
use sise_tree::TreeTable;

// Where a line is at least this long, the next item goes on a new one.
pub const HOUSE_THRESHOLD: u64 = 72;

const HOUSE_STYLE: SerializerStyle<'static> = SerializerStyle {
    line_break: b"\n",
    indentation: b"  ",
};

// Writes a whole text in house style at a threshold: the tree that `tree` holds, and the line break at its end. 0 breaks every line.
pub fn serialize_house_at(buf: &mut [u8], tree: TreeTable<'_>, break_line_at: u64) -> TreeWrote
    ensures { DoesWrite (house_at break_line_at buf.old tree.entry.text.now tree.entry.table.now) result buf.new }
{
    write_text(HOUSE_STYLE, buf, tree, break_line_at, true)
}

// Writes a whole text in house style.
pub fn serialize_house(buf: &mut [u8], tree: TreeTable<'_>) -> TreeWrote
    ensures { DoesWrite (house buf.old tree.entry.text.now tree.entry.table.now) result buf.new }
{
    serialize_house_at(buf, tree, HOUSE_THRESHOLD)
}

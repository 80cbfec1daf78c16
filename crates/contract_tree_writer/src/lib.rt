// Every public call of sise_tree_writer, under the contract that it has there and with a body that only calls it: the promises of the library on one
// page. An edit of must-fail/ puts a wrong program in the place of a body, and the contract has to refuse it.
#![tactic(auto)]

ghost use Rattle.std.specs.Prelude.{◌≡◌};
ghost use Rattle.sise_serializer.specs.Serializer.{style_of};
ghost use Rattle.sise_tree.specs.Answers.{number_of};
ghost use Rattle.sise_tree_writer.specs.Answers.{error_number, put_as, refusal_of, write_refusal};
ghost use Rattle.sise_tree_writer.specs.SerializeTree.{serialize_tree, DoesWrite};
ghost use Rattle.sise_tree_writer.specs.Writing.{write_text};
ghost use Rattle.sise_tree_writer.specs.Sizes.{measured_as, number_in, MeasuresTree, CommitsTree, MeasuresText, CommitsText};
ghost use Rattle.sise_tree_writer.specs.House.{house_at, house};

use sise_parser::{Refusal, answer_number};
use sise_serializer::{Serializer, SerializerStyle};
use sise_tree::{TableError, TreeTable};
use sise_tree_writer::{TreeSize, TreeWrote, WriteTreeError};

// ---- serialize.rt

// Writes the tree that `tree` holds, where the writer stands.
pub fn serialize_tree(
    serializer: Serializer,
    style: SerializerStyle<'_>,
    buf: &mut [u8],
    tree: TreeTable<'_>,
    break_line_at: u64,
) -> TreeWrote
    ensures { DoesWrite (serialize_tree (style_of style.entry) buf.old serializer tree.entry.text.now tree.entry.table.now break_line_at) result buf.new }
{
    sise_tree_writer::serialize_tree(serializer, style, buf, tree, break_line_at)
}

// What serialize_tree would add with a buffer of `room` bytes. Nothing is written.
pub fn measure_tree(
    serializer: Serializer,
    style: SerializerStyle<'_>,
    room: usize,
    tree: TreeTable<'_>,
    break_line_at: u64,
) -> Result<TreeSize, WriteTreeError>
    ensures { MeasuresTree (style_of style.entry) room serializer tree.entry.text.now tree.entry.table.now break_line_at result }
{
    sise_tree_writer::measure_tree(serializer, style, room, tree, break_line_at)
}

// Writes the tree as serialize_tree does, if `measured` is still what measure_tree answers.
pub fn commit_tree(
    serializer: Serializer,
    style: SerializerStyle<'_>,
    buf: &mut [u8],
    tree: TreeTable<'_>,
    break_line_at: u64,
    measured: Result<TreeSize, WriteTreeError>,
) -> TreeWrote
    ensures { CommitsTree (style_of style.entry) buf.old serializer tree.entry.text.now tree.entry.table.now break_line_at measured result buf.new }
{
    sise_tree_writer::commit_tree(serializer, style, buf, tree, break_line_at, measured)
}

// ---- the answers' numbers, by sise_parser's Refusal and answer_number

// 01's number of an answer, 0 for an offset.
pub fn number(answer: Result<usize, WriteTreeError>) -> u32
    ensures { result ≡ number_of (put_as answer) }
{
    answer_number(answer)
}

// 01's number of a refusal.
pub fn error_number(error: WriteTreeError) -> u32
    ensures { result ≡ error_number error }
{
    error.number()
}

// 01's number of an enquiry's answer, 0 for a size.
pub fn measured_number(measured: Result<TreeSize, WriteTreeError>) -> u32
    ensures { result ≡ number_in (measured_as measured) }
{
    answer_number(measured)
}

// The place and the code point of a refusal: it has none. The trait has both methods once for all errors; here stands what they answer for this one.
pub fn refusal_place(refused: WriteTreeError) -> usize
    ensures { result ≡ (write_refusal refused).place }
{
    refused.place()
}

pub fn refusal_code(refused: WriteTreeError) -> u32
    ensures { result ≡ (write_refusal refused).code }
{
    refused.code()
}

// ---- whole.rt

// Writes a whole text: the tree that `tree` holds, and a line break behind it if wished.
pub fn write_text(
    style: SerializerStyle<'_>,
    buf: &mut [u8],
    tree: TreeTable<'_>,
    break_line_at: u64,
    final_break: bool,
) -> TreeWrote
    ensures { DoesWrite (write_text (style_of style.entry) buf.old tree.entry.text.now tree.entry.table.now break_line_at final_break) result buf.new }
{
    sise_tree_writer::write_text(style, buf, tree, break_line_at, final_break)
}

// What write_text would write with a buffer of `room` bytes. Nothing is written.
pub fn measure_text(
    style: SerializerStyle<'_>,
    room: usize,
    tree: TreeTable<'_>,
    break_line_at: u64,
    final_break: bool,
) -> Result<TreeSize, WriteTreeError>
    ensures { MeasuresText (style_of style.entry) room tree.entry.text.now tree.entry.table.now break_line_at final_break result }
{
    sise_tree_writer::measure_text(style, room, tree, break_line_at, final_break)
}

// Writes a whole text as write_text does, if `measured` is still what measure_text answers.
pub fn commit_text(
    style: SerializerStyle<'_>,
    buf: &mut [u8],
    tree: TreeTable<'_>,
    break_line_at: u64,
    final_break: bool,
    measured: Result<TreeSize, WriteTreeError>,
) -> TreeWrote
    ensures { CommitsText (style_of style.entry) buf.old tree.entry.text.now tree.entry.table.now break_line_at final_break measured result buf.new }
{
    sise_tree_writer::commit_text(style, buf, tree, break_line_at, final_break, measured)
}

// ---- house.rt

// Writes a whole text in house style at a threshold.
pub fn serialize_house_at(buf: &mut [u8], tree: TreeTable<'_>, break_line_at: u64) -> TreeWrote
    ensures { DoesWrite (house_at break_line_at buf.old tree.entry.text.now tree.entry.table.now) result buf.new }
{
    sise_tree_writer::serialize_house_at(buf, tree, break_line_at)
}

// Writes a whole text in house style.
pub fn serialize_house(buf: &mut [u8], tree: TreeTable<'_>) -> TreeWrote
    ensures { DoesWrite (house buf.old tree.entry.text.now tree.entry.table.now) result buf.new }
{
    sise_tree_writer::serialize_house(buf, tree)
}

// ---- serialize.rt, its From

// The refusal of a table that holds no tree of atoms, as one of the calls that write.
pub fn from_table(refused: TableError) -> WriteTreeError
    ensures { result ≡ refusal_of refused }
{
    WriteTreeError::from(refused)
}

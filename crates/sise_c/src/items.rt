// The items of a whole text as words, four an item: the words that write_calls takes for the calls that write them.
ghost use Rattle.std.specs.Prelude.{◌≡◌, ◌+◌, ◌*◌, ◌≤◌, length, MatchResult};
ghost use Rattle.sise_parser.specs.Refusals.{refusal_of};
ghost use Rattle.sise_parser.specs.Meaning.{finished_as};
ghost use Rattle.sise_parser.specs.Reader.{ended, not_ended};
ghost use Rattle.sise_tree.specs.Answers.{parsed_as};
ghost use Rattle.sise_serializer.specs.Bytes.{pasted};
ghost use Rattle.sise_c.specs.Items.{ending_by, items_of, ending_of, item_words, all_words, read_items};

use sise_parser::{ParseError, ParsedItem, Reader};
use sise_tree::TreeError;

// What the refusal that follows the items says: that they are all read, and then finish looks at the rest of the text, or why no more can be.
fn ending_by(text: &[u8], reader: Reader, error: ParseError) -> Result<(), ParseError>
    ensures { finished_as result ≡ ending_by text.now reader (refusal_of error) }
{
    if error == ParseError::ParsingFinished {
        return reader.finish(text);
    }
    Err(error)
}

// An item's words: its kind, its place, of an atom its length, and 0. The kinds are numbers, since C reads them: include/sise.h lists them.
pub(crate) fn item_words(item: ParsedItem) -> [u64; 4]
    ensures { result ≡ item_words item }
{
    match item {
        ParsedItem::Atom { pos, len } => [0, pos as u64, len as u64, 0],
        ParsedItem::ListStart { pos } => [1, pos as u64, 0, 0],
        ParsedItem::ListEnd { pos } => [2, pos as u64, 0, 0],
    }
}

// Writes an item's words behind those of so many items. One by one: what was copied from an array would lie in memory first, and be tested for an overlap.
fn put_item(words: &mut [u64], items: usize, item: ParsedItem)
    requires { 4 * (items + 1) ≤ length words.old }
    ensures { words.new ≡ pasted words.old (4 * items) (item_words item) }
{
    let at = 4 * items;
    let [kind, place, len, threshold] = item_words(item);
    words[at] = kind;
    words[at + 1] = place;
    words[at + 2] = len;
    words[at + 3] = threshold;
}

// How many items the text has, and whether it ends with the last. A `loop` and no `for`: the refusal that ends the items is part of the answer, and an iterator
// ends with None, so that the refusal would have to be kept beside it.
fn count_items(text: &[u8]) -> Result<usize, ParseError>
    ensures { MatchResult result (λ n. (n ≡ length (items_of text.now)) × (ending_of text.now ≡ ended)) (λ e. ending_of text.now ≡ not_ended (refusal_of e)) }
{
    let mut reader = Reader::new();
    let mut items = 0;
    loop {
        let next = reader.next_item(text);
        match next.answer {
            Ok(_) => {
                items += 1;
                reader = next.reader;
            }
            Err(error) => return ending_by(text, reader, error).and(Ok(items)),
        }
    }
}

// Reads the items again, for which there is room, and writes their words. It and count_items are two functions, since each item costs so little that what the
// other one does with it would show.
fn fill_items(text: &[u8], words: &mut [u64])
    requires { 4 * length (items_of text.now) ≤ length words.old }
    ensures { words.new ≡ pasted words.old 0 (all_words (items_of text.now)) }
{
    let mut reader = Reader::new();
    let mut items = 0;
    loop {
        let next = reader.next_item(text);
        let Ok(item) = next.answer else {
            return;
        };
        put_item(words, items, item);
        items += 1;
        reader = next.reader;
    }
}

// Reads the items of a whole text into words, if they have room, and answers how many there are. parse_text of sise_tree counts, tests the room and fills in
// the same order: one function for both would take the two passes as closures, and is longer than this body.
#[tactic(auto, unfolding(crate::specs::Items::read_items, crate::specs::Items::items_in))]
pub(crate) fn read_items(text: &[u8], words: &mut [u64]) -> Result<usize, TreeError>
    ensures answer { parsed_as result ≡ (read_items text.now words.old).answer }
    ensures words { words.new ≡ (read_items text.now words.old).words }
{
    let items = count_items(text)?;
    if items > words.len() / 4 {
        return Err(TreeError::TableFull);
    }
    fill_items(text, words);
    Ok(items)
}

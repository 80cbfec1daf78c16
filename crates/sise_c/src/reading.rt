// The reader's calls one by one, over the words of a record that the caller keeps: position, phase (0 beginning, 1 parsing, 2 finishing) and open lists.
ghost use Rattle.std.specs.Prelude.{◌≡◌, take};
ghost use Rattle.sise_parser.specs.Meaning.{answer_as, finished_as};
ghost use Rattle.sise_tree.specs.Answers.{parsed_as};
ghost use Rattle.sise_c.specs.Items.{item_words};
ghost use Rattle.sise_c.specs.Records.{reader_of, reader_words};
ghost use Rattle.sise_c.specs.Reports.{Reports};
ghost use Rattle.sise_c.specs.Singly.{ReportsNext, next_of, ending_answer, finish_of, next_tree_of};

use crate::items::item_words;
use crate::report::{Values, number_words, report};
use sise_parser::{ParseError, ParsedItem, Phase, Reader};
use sise_tree::{LONGEST, TreeError, parse_tree};

// A reader's record in words: C keeps it between the calls, and include/sise.h has it as an array.
pub type ReaderWords = [u64; 3];

// An item in words: kind, place, and of an atom its length.
pub type ItemWords = [u64; 3];

// Words mean a record if the second is a phase. A function and no TryFrom, and reader_words no From: neither the record nor an array of words is a type of this
// crate, and the record's own crate knows nothing of the words' order, which is C's.
#[tactic(auto, using(crate::proofs::RecordLaws::no_reader_phase), unfolding(crate::specs::Records::reader_of))]
fn reader_of(words: &ReaderWords) -> Option<Reader>
    ensures { result ≡ reader_of words.now }
{
    let phase = Phase::try_from(words[1]).ok()?;
    Some(Reader {
        position: words[0] as usize,
        phase,
        lists: words[2] as usize,
    })
}

// The words of a record.
fn reader_words(reader: Reader) -> ReaderWords
    ensures { result ≡ reader_words reader }
{
    [
        reader.position as u64,
        reader.phase as u64,
        reader.lists as u64,
    ]
}

// An item's kind, place and length.
fn item_values(item: ParsedItem) -> ItemWords
    ensures { result ≡ take 3 (item_words item) }
{
    let [kind, place, len, _] = item_words(item);
    [kind, place, len]
}

// The next item by the record that the words mean, which become those of the record after it, of a refusal too. Words that mean none are refused and stay.
#[tactic(auto, unfolding(crate::specs::Singly::next_of, crate::specs::Singly::next_by))]
fn next_item(text: &[u8], record: &mut ReaderWords) -> Result<ParsedItem, ParseError>
    ensures answer { answer_as result ≡ (next_of text.now «record».old).answer }
    ensures words { «record».new ≡ (next_of text.now «record».old).words }
{
    let reader = reader_of(record).ok_or(ParseError::UnsoundRecord)?;
    let next = reader.next_item(text);
    *record = reader_words(next.reader);
    next.answer
}

// Reads the next item of the text. `item` is its kind, place and length; of a refusal 0, its place and code point. The record's words are for the next call.
pub fn sise_next_item(text: &[u8], record: &mut ReaderWords, item: &mut ItemWords) -> u32
    ensures answer { ReportsNext (next_of text.now «record».old).answer result item.new }
    ensures words { «record».new ≡ (next_of text.now «record».old).words }
{
    let answer = next_item(text, record);
    report(answer.map(item_values), item)
}

// The end of the text by the record that the words mean.
#[tactic(auto, unfolding(crate::specs::Singly::finish_of, crate::specs::Singly::finish_by))]
fn finish(text: &[u8], record: &ReaderWords) -> Result<(), ParseError>
    ensures { ending_answer (finished_as result) ≡ finish_of text.now «record».now }
{
    let reader = reader_of(record).ok_or(ParseError::UnsoundRecord)?;
    reader.finish(text)
}

// Whether the text ends after the last item. The record's words are of no use after it.
pub fn sise_finish_reading(text: &[u8], record: &ReaderWords, values: &mut Values) -> u32
    ensures { Reports (finish_of text.now «record».now) result values.new }
{
    report(finish(text, record).and(Ok([0, 0])), values)
}

// The node due by the record that the words mean, which become those of the record after it, of a refusal too. Words that mean none are refused and stay.
#[tactic(auto, unfolding(crate::specs::Singly::next_tree_of, crate::specs::Singly::next_tree_by, crate::specs::Singly::no_record))]
fn next_tree(text: &[u8], record: &mut ReaderWords, table: &mut [u32]) -> Result<usize, TreeError>
    ensures answer { parsed_as result ≡ (next_tree_of text.now «record».old table.old).answer }
    ensures words { «record».new ≡ (next_tree_of text.now «record».old table.old).words }
    ensures nodes { table.new ≡ (next_tree_of text.now «record».old table.old).table }
{
    let unread = if text.len() > LONGEST {
        TreeError::TextTooLong
    } else {
        TreeError::Refused(ParseError::UnsoundRecord)
    };
    let reader = reader_of(record).ok_or(unread)?;
    let read = parse_tree(text, reader, table);
    *record = reader_words(read.reader);
    read.answer
}

// Reads the node due into the table's first words. The first value is how many nodes it has; of a refusal the values are place and code point. The record's
// words are for the next call.
pub fn sise_next_tree(
    text: &[u8],
    record: &mut ReaderWords,
    table: &mut [u32],
    values: &mut Values,
) -> u32
    ensures answer { Reports (next_tree_of text.now «record».old table.old).answer result values.new }
    ensures words { «record».new ≡ (next_tree_of text.now «record».old table.old).words }
    ensures nodes { table.new ≡ (next_tree_of text.now «record».old table.old).table }
{
    report(next_tree(text, record, table).map(number_words), values)
}

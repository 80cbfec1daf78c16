// How an answer is reported: its number as the result, its values in the words that the caller lent. What makes words of an answer, or a size of words, is a
// function and no From: neither the answers nor arrays of words are types of this crate.
ghost use Rattle.std.specs.Prelude.{◌≡◌, ◌≤◌, [], ◌∷◌, Ok, MatchResult};
ghost use Rattle.sise_tree_writer.specs.Answers.{put_as, error_number};
ghost use Rattle.sise_tree_writer.specs.Sizes.{measured_as};
ghost use Rattle.sise_c.specs.Reports.{refusal_words, Tells, size_or, size_given};

use sise_parser::Refusal;
use sise_tree::Found;
use sise_tree_writer::{TreeSize, TreeWrote, WriteTreeError};

// What a call answers beside its result: what it answers, 0 behind a single number, or the refusal's place and code point.
pub type Values = [u64; 2];

// The size of a tree: its bytes, line breaks and indentations.
pub type Size = [u64; 3];

// How many calls of a list ran.
pub type CallCount = [u64; 1];

// The words are those of what is answered. The last two of a refusal are its place and code point, and others are 0.
pub(crate) fn report<const N: usize, E: Refusal>(
    answer: Result<[u64; N], E>,
    words: &mut [u64; N],
) -> u32
    requires { 2 ≤ N }
    ensures { MatchResult answer (λ told. (result ≡ 0) × (words.new ≡ told)) (λ e. (result ≡ (E.meaning e).number) × (words.new ≡ refusal_words N (E.meaning e))) }
{
    match answer {
        Ok(told) => {
            *words = told;
            0
        }
        Err(error) => {
            words.fill(0);
            words[N - 2] = error.place() as u64;
            words[N - 1] = u64::from(error.code());
            error.number()
        }
    }
}

// A number as the first value, with 0 as the second.
pub(crate) fn number_words(number: usize) -> Values
    ensures { result ≡ number ∷ 0 ∷ [] }
{
    [number as u64, 0]
}

// A tree's size in words.
pub(crate) fn size_words(size: TreeSize) -> Size
    ensures { result ≡ size.bytes ∷ size.breaks ∷ size.indents ∷ [] }
{
    [size.bytes as u64, size.breaks as u64, size.indents as u64]
}

// What find_path answers as values: the node's index and how many nodes it looked at.
pub(crate) fn found_words(found: Found) -> Values
    ensures { result ≡ found.index ∷ found.seen ∷ [] }
{
    [found.index as u64, found.seen as u64]
}

// What is reported of a tree written from the buffer's start: how many bytes the text has.
pub(crate) fn written(wrote: TreeWrote) -> Result<Values, WriteTreeError>
    ensures { Tells (λ e. error_number e) (size_or wrote.serializer.position (put_as wrote.answer)) result }
{
    wrote
        .answer
        .and(Ok(number_words(wrote.serializer.position)))
}

// The size that three words are.
pub(crate) fn size_given(size: &Size) -> TreeSize
    ensures { measured_as (Ok result) ≡ size_given size.now }
{
    TreeSize {
        bytes: size[0] as usize,
        breaks: size[1] as usize,
        indents: size[2] as usize,
    }
}

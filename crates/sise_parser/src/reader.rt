// The reader's record and its two calls.
ghost use Rattle.std.specs.Prelude.{◌≡◌, ◌≤◌, ◌<◌, ◌^◌, true, false, length, drop, get_or};
ghost use Rattle.sise_util.specs.Classes.{class_of};
ghost use Rattle.sise_parser.specs.Plain.{is_blank, atom_run};
ghost use Rattle.sise_parser.specs.PlainItems.{GoesOn};
ghost use Rattle.sise_parser.specs.Reader.{fresh_reader, lists_fit, is_sound, in_beginning, in_parsing, next_item, finish_reading, part_of, next, reader};
ghost use Rattle.sise_parser.specs.Phases.{ReadsPhase};
ghost use Rattle.sise_parser.specs.Meaning.{lexeme_as, answer_as, next_as, finished_as};

use crate::error::ParseError;
use crate::lexer::{Lexeme, Token, atom_run, lex_token, skip_blanks};
use crate::plain::{Seen, look};

// Where the reader is in the text: before the first item, inside the outermost list, or after the last item.
#[derive(Clone, Copy, Debug, PartialEq, Eq)]
pub enum Phase {
    Beginning = 0,
    Parsing = 1,
    Finishing = 2,
}

// A number that no phase has, of a reader or of a writer.
#[derive(Clone, Copy, Debug, PartialEq, Eq)]
pub struct UnknownPhase(pub u64);

// The phase with a number: 0 beginning, 1 parsing, 2 finishing. The writer's phases have an impl of the same shape and other names and numbers.
impl TryFrom<u64> for Phase {
    type Error = UnknownPhase;

    ghost try_from_gives = { ReadsPhase };

    // By a `match`: a search among the three phases for the one whose number it is would name them all too, and be no plainer.
    fn try_from(word: u64) -> Result<Phase, UnknownPhase> {
        match word {
            0 => Ok(Phase::Beginning),
            1 => Ok(Phase::Parsing),
            2 => Ok(Phase::Finishing),
            _ => Err(UnknownPhase(word)),
        }
    }
}

// The reader's record, which each call takes and hands back: the position, the phase and the number of open lists.
#[derive(Clone, Copy, Debug, PartialEq, Eq)]
pub struct Reader {
    pub position: usize,
    pub phase: Phase,
    pub lists: usize,
}

// An item and its place; of an atom also its number of bytes.
#[derive(Clone, Copy, Debug, PartialEq, Eq)]
pub enum ParsedItem {
    Atom { pos: usize, len: usize },
    ListStart { pos: usize },
    ListEnd { pos: usize },
}

// What next_item hands back: the record for the next call, and the item. It is no Result, since document 01 names this form; a refusal has a record too.
#[derive(Clone, Copy, Debug, PartialEq, Eq)]
pub struct Next {
    pub reader: Reader,
    pub answer: Result<ParsedItem, ParseError>,
}

// Whether so many lists may be open in a phase: one at least exactly while parsing. The writer's is another function: its phases are other ones.
fn lists_fit(phase: Phase, lists: usize) -> bool
    ensures { result ≡ lists_fit phase lists }
{
    (phase == Phase::Parsing) == (1 <= lists)
}

// What next_item hands back, from the record's parts, which its callers have one by one.
fn answered(
    position: usize,
    phase: Phase,
    lists: usize,
    answer: Result<ParsedItem, ParseError>,
) -> Next
    ensures { next_as result ≡ next (reader position phase lists) (answer_as answer) }
{
    Next {
        reader: Reader {
            position,
            phase,
            lists,
        },
        answer,
    }
}

// What a token gives before the first item. It and `inner_item` are document 01's two phases, with other refusals and other records.
fn first_item(lists: usize, found: Lexeme) -> Next
    ensures { next_as result ≡ in_beginning lists (lexeme_as found) }
{
    let pos = found.start;
    let (phase, lists, answer) = match found.token {
        Token::Eof => (
            Phase::Beginning,
            lists,
            Err(ParseError::UnexpectedEof { pos }),
        ),
        Token::LeftParen => (Phase::Parsing, 1, Ok(ParsedItem::ListStart { pos })),
        Token::RightParen => (
            Phase::Beginning,
            lists,
            Err(ParseError::UnexpectedRightParen { pos }),
        ),
        Token::Atom(len) => (Phase::Finishing, lists, Ok(ParsedItem::Atom { pos, len })),
    };
    answered(found.end, phase, lists, answer)
}

// What a token gives inside the outermost list.
fn inner_item(lists: usize, found: Lexeme) -> Next
    requires { (1 ≤ lists) × (lists < 2 ^ 63) }
    ensures { next_as result ≡ in_parsing lists (lexeme_as found) }
{
    let pos = found.start;
    let (phase, lists, answer) = match found.token {
        Token::Eof => (
            Phase::Parsing,
            lists,
            Err(ParseError::UnexpectedEof { pos }),
        ),
        Token::LeftParen => (Phase::Parsing, lists + 1, Ok(ParsedItem::ListStart { pos })),
        Token::RightParen if lists == 1 => (Phase::Finishing, 0, Ok(ParsedItem::ListEnd { pos })),
        Token::RightParen => (Phase::Parsing, lists - 1, Ok(ParsedItem::ListEnd { pos })),
        Token::Atom(len) => (Phase::Parsing, lists, Ok(ParsedItem::Atom { pos, len })),
    };
    answered(found.end, phase, lists, answer)
}

impl Reader {
    // A reader before the first item of a text.
    pub fn new() -> Reader
        ensures { result ≡ fresh_reader }
    {
        Reader {
            position: 0,
            phase: Phase::Beginning,
            lists: 0,
        }
    }

    // Whether the record is one that a reader of a text of `len` bytes may have.
    pub(crate) fn is_sound(self, len: usize) -> bool
        ensures { result ≡ is_sound len self }
    {
        self.position <= len && self.lists <= self.position && lists_fit(self.phase, self.lists)
    }

    // The same record: its fields are copied one by one, and not the unused bytes behind the phase. A copy of the whole reads them too, and waits until all
    // that was written there a moment before is in memory.
    #[inline(always)]
    fn by_fields(self) -> Reader
        ensures { result ≡ self }
    {
        Reader {
            position: self.position,
            ..self
        }
    }

    // The next item of the text. The record that comes back is for the next call, after a refusal too. A plain item is found without the lexer, so that the
    // call costs little in a loop; where there is none, the lexer goes on where the look for one ended.
    #[inline(always)]
    pub fn next_item(self, text: &[u8]) -> Next
        ensures { next_as result ≡ next_item text.now self }
    {
        match look(text, self) {
            Seen::Plain(plain) => Next {
                reader: plain.reader,
                answer: Ok(plain.item),
            },
            Seen::Token { start, run } => self.behind(text, start, run),
            Seen::Outside => self.ahead(text),
        }
    }

    // What item_ahead hands back, moved out of the memory that it writes: a function of its own, since that memory is cleared where the function begins, and so
    // behind the test for a plain item, and not at each turn of a loop over next_item. The record of such a loop stays in registers.
    #[inline(always)]
    fn ahead(self, text: &[u8]) -> Next
        ensures { next_as result ≡ next_item text.now self }
    {
        let next = item_ahead(self.position, self.phase, self.lists, text);
        Next {
            reader: next.reader.by_fields(),
            answer: next.answer,
        }
    }

    // What token_ahead hands back, moved in the same way.
    #[inline(always)]
    fn behind(self, text: &[u8], start: usize, run: usize) -> Next
        requires { GoesOn text.now self start run }
        ensures { next_as result ≡ next_item text.now self }
    {
        let next = token_ahead(text, Phase::Parsing, self.lists, start, run);
        Next {
            reader: next.reader.by_fields(),
            answer: next.answer,
        }
    }

    // Whether the text ends after the last item.
    pub fn finish(self, text: &[u8]) -> Result<(), ParseError>
        ensures { finished_as result ≡ finish_reading text.now self }
    {
        if !self.is_sound(text.len()) {
            return Err(ParseError::UnsoundRecord);
        }
        if self.phase != Phase::Finishing {
            return Err(ParseError::ParsingNotFinished);
        }
        let start = skip_blanks(text, self.position);
        let found = lex_token(text, start, atom_run(text, start))?;
        match found.token {
            Token::Eof => Ok(()),
            _ => Err(ParseError::ExpectedEof { pos: found.start }),
        }
    }
}

// The bytes of an item's atom: that part of the text, or an empty part if the place and the length lie outside it. Two steps and no `and_then` over them:
// that was tried, and the proof did not close, since what the closure answers has no name in it.
pub fn atom_bytes(text: &[u8], place: usize, len: usize) -> &[u8]
    ensures { result.now ≡ part_of text.now place len }
{
    let Some(rest) = text.get(place..) else {
        return &[];
    };
    rest.get(..len).unwrap_or(&[])
}

// The next item of the text for a record of these parts, which are handed over one by one since that is faster than a struct.
// A loop over next_item seldom comes here: `#[cold]` says so to the compiler.
#[cold]
pub fn item_ahead(position: usize, phase: Phase, lists: usize, text: &[u8]) -> Next
    ensures { next_as result ≡ next_item text.now (reader position phase lists) }
{
    let record = Reader {
        position,
        phase,
        lists,
    };
    if !record.is_sound(text.len()) {
        return answered(position, phase, lists, Err(ParseError::UnsoundRecord));
    }
    if phase == Phase::Finishing {
        return answered(position, phase, lists, Err(ParseError::ParsingFinished));
    }
    let start = skip_blanks(text, position);
    token_ahead(text, phase, lists, start, atom_run(text, start))
}

// What the token at or after `start` gives before the last item, for a sound record of these parts. No blank stands there, and the run of atom characters ends
// at `run`.
#[inline(always)]
fn token_gives(text: &[u8], phase: Phase, lists: usize, start: usize, run: usize) -> Next
    requires sound { is_sound (length text.now) (reader start phase lists) ≡ true }
    requires early { phase ≡ Phase.Finishing → ⊥ }
    requires stop { start < length text.now → is_blank (class_of (get_or text.now start 0)) ≡ false }
    requires run { run ≡ atom_run (drop start text.now) start }
    ensures { next_as result ≡ next_item text.now (reader start phase lists) }
{
    match lex_token(text, start, run) {
        Err(wrong) => answered(wrong.position, phase, lists, Err(wrong.error)),
        Ok(found) => {
            if phase == Phase::Beginning {
                first_item(lists, found)
            } else {
                inner_item(lists, found)
            }
        }
    }
}

// The same for a loop over next_item, which seldom comes here. What it hands back is made of the record's fields, as there.
#[cold]
fn token_ahead(text: &[u8], phase: Phase, lists: usize, start: usize, run: usize) -> Next
    requires sound { is_sound (length text.now) (reader start phase lists) ≡ true }
    requires early { phase ≡ Phase.Finishing → ⊥ }
    requires stop { start < length text.now → is_blank (class_of (get_or text.now start 0)) ≡ false }
    requires run { run ≡ atom_run (drop start text.now) start }
    ensures { next_as result ≡ next_item text.now (reader start phase lists) }
{
    let next = token_gives(text, phase, lists, start, run);
    Next {
        reader: next.reader.by_fields(),
        answer: next.answer,
    }
}

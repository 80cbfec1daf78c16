// Why a call of the reader is refused. `pos` is a place, a byte offset in the text, and `chr` a code point. specs/Refusals.antt has document 01's
// number of each.
ghost use Rattle.std.specs.Prelude.{◌≡◌};
ghost use Rattle.sise_parser.specs.Refusals.{Refusal, refusal, refusal_of, answer_number};

#[derive(Clone, Copy, Debug, PartialEq, Eq)]
pub enum ParseError {
    // A character that begins no token.
    IllegalChr { pos: usize, chr: u32 },
    // A character that may not stand in a string.
    IllegalChrInString { pos: usize, chr: u32 },
    // A character that may not stand in a comment.
    IllegalChrInComment { pos: usize, chr: u32 },
    // The text ends inside a string.
    UnfinishedString { pos: usize },
    // The text ends where an item is due.
    UnexpectedEof { pos: usize },
    // A `)` where no list is open.
    UnexpectedRightParen { pos: usize },
    // A token where the text should end.
    ExpectedEof { pos: usize },
    // A character that is not well formed by RFC 3629.
    IllFormedChr { pos: usize },
    // The items are all read.
    ParsingFinished,
    // Items are left to read.
    ParsingNotFinished,
    // The record is none that the reader hands out for this text.
    UnsoundRecord,
}

// A refusal in numbers: document 01's number of it, its place and its code point. Where there is none they are 0 and no Option: C reads them as words.
#[derive(Clone, Copy, Debug, PartialEq, Eq)]
pub struct RefusalNumbers {
    pub number: u32,
    pub place: usize,
    pub code: u32,
}

impl RefusalNumbers {
    // Of a refusal with neither place nor code point.
    #[inline(always)]
    pub fn unplaced(number: u32) -> RefusalNumbers
        ensures { result ≡ record { number = number; place = 0; code = 0 } }
    {
        RefusalNumbers {
            number,
            place: 0,
            code: 0,
        }
    }

    // Of a refusal with a place and no code point.
    #[inline(always)]
    pub fn placed(number: u32, place: usize) -> RefusalNumbers
        ensures { result ≡ record { number = number; place = place; code = 0 } }
    {
        RefusalNumbers {
            number,
            place,
            code: 0,
        }
    }
}

// A type of refusals, which gives the numbers of each.
pub trait Refusal: Copy {
    ghost meaning: { Self → Refusal };

    fn numbers(self) -> RefusalNumbers
        ensures { refusal result.number result.place result.code ≡ meaning self };

    fn number(self) -> u32
        ensures { result ≡ (meaning self).number }
    {
        self.numbers().number
    }

    fn place(self) -> usize
        ensures { result ≡ (meaning self).place }
    {
        self.numbers().place
    }

    fn code(self) -> u32
        ensures { result ≡ (meaning self).code }
    {
        self.numbers().code
    }
}

// The number of an answer's refusal, 0 where the call was accepted.
pub fn answer_number<T: Copy, E: Refusal>(answer: Result<T, E>) -> u32
    ensures { result ≡ answer_number E.meaning answer }
{
    match answer {
        Ok(_) => 0,
        Err(error) => error.number(),
    }
}

impl Refusal for ParseError {
    ghost meaning = { refusal_of };

    // By a `match`: the cases carry values, and only an enum whose cases carry none is cast to a number.
    fn numbers(self) -> RefusalNumbers {
        match self {
            ParseError::IllegalChr { pos, chr } => RefusalNumbers {
                number: 1,
                place: pos,
                code: chr,
            },
            ParseError::IllegalChrInString { pos, chr } => RefusalNumbers {
                number: 2,
                place: pos,
                code: chr,
            },
            ParseError::IllegalChrInComment { pos, chr } => RefusalNumbers {
                number: 3,
                place: pos,
                code: chr,
            },
            ParseError::UnfinishedString { pos } => RefusalNumbers::placed(4, pos),
            ParseError::UnexpectedEof { pos } => RefusalNumbers::placed(5, pos),
            ParseError::UnexpectedRightParen { pos } => RefusalNumbers::placed(6, pos),
            ParseError::ExpectedEof { pos } => RefusalNumbers::placed(7, pos),
            ParseError::IllFormedChr { pos } => RefusalNumbers::placed(8, pos),
            ParseError::ParsingFinished => RefusalNumbers::unplaced(9),
            ParseError::ParsingNotFinished => RefusalNumbers::unplaced(10),
            ParseError::UnsoundRecord => RefusalNumbers::unplaced(11),
        }
    }
}

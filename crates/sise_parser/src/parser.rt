// The thin reader: a text and the reader's record in one struct, as the crate's Parser has them. Each call makes the call of that name
// on the record.
ghost use Rattle.std.specs.Prelude.{◌≡◌};
ghost use Rattle.sise_parser.specs.Reader.{finish_reading};
ghost use Rattle.sise_parser.specs.Meaning.{finished_as};
ghost use Rattle.sise_parser.specs.Parser.{parser_of, parsed_as, parsed_of};

use crate::error::ParseError;
use crate::reader::{ParsedItem, Reader};

#[derive(Clone, Copy, Debug, PartialEq, Eq)]
pub struct Parser<'a> {
    pub text: &'a [u8],
    pub reader: Reader,
}

// What next_item hands back: the parser for the next call, and the answer. It is no Result, as Next is none; a refusal has a parser too.
#[derive(Clone, Copy, Debug, PartialEq, Eq)]
pub struct Parsed<'a> {
    pub parser: Parser<'a>,
    pub answer: Result<ParsedItem, ParseError>,
}

impl<'a> Parser<'a> {
    // A parser before the first item of the text.
    pub fn new(text: &'a [u8]) -> Parser<'a>
        ensures { result ≡ parser_of text.entry }
    {
        Parser {
            text,
            reader: Reader::new(),
        }
    }

    // The next item of the text. The parser that comes back has the same text, and is for the next call, after a refusal too.
    pub fn next_item(self) -> Parsed<'a>
        ensures { parsed_as result ≡ parsed_of self.entry }
    {
        let next = self.reader.next_item(self.text);
        Parsed {
            parser: Parser {
                reader: next.reader,
                ..self
            },
            answer: next.answer,
        }
    }

    // Whether the text ends after the last item.
    pub fn finish(self) -> Result<(), ParseError>
        ensures { finished_as result ≡ finish_reading self.entry.text.now self.entry.reader }
    {
        self.reader.finish(self.text)
    }
}

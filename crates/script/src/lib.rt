// The parts of a script: replay's main file says what a script is. A part that cannot be read is malformed; one that is read is a part of the script.
#![tactic(auto)]

mod tree;

ghost use Rattle.std.specs.Prelude.{◌≡◌, [], ◌∷◌, ◌++◌, length, MatchOption, MatchResult, IfOk};
ghost use Rattle.script.specs.Numbers.{number_meant, Number, Field};
ghost use Rattle.script.specs.Script.{TextFrom, StyleFrom, CallFrom};

use sise_serializer::{Call, SerializerStyle};
use std::marker::Model;
pub use tree::TreeCalls;

// The largest number of a script, which stands for the largest of 64 bits.
const LARGEST: usize = 999999999;

// The most bytes of a case's buffer, and the most words of its table.
pub const MAX_LEN: usize = 4096;

// The most bytes of a style's line break, and of its indentation.
const MAX_STYLE: usize = 1048576;

// The next part of the script is not what was to be read.
#[derive(Clone, Copy, Debug, Drop, PartialEq, Eq)]
pub struct Malformed;

// The fields of a case that begins with a text: the text, the number of next_item calls, and the last number of the line. `last` is a number, since two kinds
// of case have this line: in one it says whether finish is called, in the other how long a table is, and a bool for the first would want a second function.
#[derive(Clone, Copy, Debug, PartialEq, Eq)]
pub struct TextCase<'a> {
    pub text: &'a [u8],
    pub calls: usize,
    pub last: usize,
}

// The fields of a writer's line: the buffer's length, the style, and the number of calls.
#[derive(Clone, Copy, Debug, PartialEq, Eq)]
pub struct WriterCase<'a> {
    pub room: usize,
    pub style: SerializerStyle<'a>,
    pub calls: usize,
}

// The number of 64 bits that a number of the script stands for.
#[tactic(auto, unfolding(crate::specs::Numbers::number_meant))]
pub fn meant(number: usize) -> u64
    ensures { result ≡ number_meant number }
{
    if number == LARGEST {
        u64::MAX
    } else {
        number as u64
    }
}

// A script that is read from its front. A clause sees the bytes that are left. They can be read, so that a caller who keeps them can go on from there
// after a refusal; no `Copy`, since a type with a model and a lifetime cannot have it.
#[derive(Clone, Drop)]
pub struct Script<'a> {
    pub rest: &'a [u8],
}

impl<'a> Model for Script<'a> {
    ghost use Rattle.std.specs.Prelude.{List, ℕ};

    ghost Value = { List ℕ };

    ghost view = { λ s. s.rest.now };
}

impl<'a> Script<'a> {
    pub fn new(bytes: &'a [u8]) -> Script<'a>
        ensures { result ≡ bytes.now }
    {
        Script { rest: bytes }
    }

    // The next byte, which is read with it.
    pub fn next_byte(&mut self) -> Option<u8>
        ensures { MatchOption result ((self.old ≡ []) × (self.new ≡ [])) (λ byte. self.old ≡ byte ∷ self.new) }
    {
        let (first, rest) = self.rest.split_first()?;
        self.rest = rest;
        Some(*first)
    }

    // Reads the byte, which has to come next. Another is not read.
    pub fn read_byte(&mut self, byte: u8) -> Result<(), Malformed>
        ensures { MatchResult result (λ _. self.old ≡ byte ∷ self.new) (λ _. self.new ≡ self.old) }
    {
        let before = self.rest;
        if self.next_byte() == Some(byte) {
            Ok(())
        } else {
            self.rest = before;
            Err(Malformed)
        }
    }

    fn read_bytes(&mut self, len: usize) -> Result<&'a [u8], Malformed>
        ensures len { IfOk result (λ bytes. length bytes.now ≡ len) }
        ensures front { IfOk result (λ bytes. self.old ≡ bytes.now ++ self.new) }
    {
        let (bytes, rest) = self.rest.split_at_checked(len).ok_or(Malformed)?;
        self.rest = rest;
        Ok(bytes)
    }

    // So many bytes, and the line end after them.
    fn read_text(&mut self, len: usize) -> Result<&'a [u8], Malformed>
        ensures len { IfOk result (λ text. length text.now ≡ len) }
        ensures front { IfOk result (λ text. self.old ≡ text.now ++ 10 ∷ self.new) }
    {
        let text = self.read_bytes(len)?;
        self.read_byte(b'\n')?;
        Ok(text)
    }

    // The number that ends before the byte `end`. One of 1,000,000,000 or more is malformed, so that no sum wraps. Of what is malformed nothing is read.
    pub fn read_number(&mut self, end: u8) -> Result<usize, Malformed>
        ensures { MatchResult result (λ n. Number end self.old n self.new) (λ _. self.new ≡ self.old) }
    {
        let mut value = 0;
        for (at, &byte) in self.rest.iter().enumerate() {
            if byte == end && 0 < at {
                self.rest = &self.rest[at + 1..];
                return Ok(value);
            }
            let digit = (byte as char).to_digit(10).ok_or(Malformed)?;
            if LARGEST / 10 < value {
                return Err(Malformed);
            }
            value = value * 10 + digit as usize;
        }
        Err(Malformed)
    }

    // A space and a number after it.
    pub fn read_field(&mut self, end: u8) -> Result<usize, Malformed>
        ensures { IfOk result (λ n. Field end self.old n self.new) }
    {
        self.read_byte(b' ')?;
        self.read_number(end)
    }

    // The case whose letter was read, with a last number of `most` at most.
    pub fn read_text_case(&mut self, most: usize) -> Result<TextCase<'a>, Malformed>
        ensures { IfOk result (TextFrom self.old self.new most) }
    {
        let len = self.read_field(b' ')?;
        let calls = self.read_number(b' ')?;
        let last = self.read_number(b'\n')?;
        if most < last {
            return Err(Malformed);
        }
        let text = self.read_text(len)?;
        Ok(TextCase { text, calls, last })
    }

    // The writer's line whose letter was read.
    pub fn read_writer_case(&mut self) -> Result<WriterCase<'a>, Malformed>
        ensures { IfOk result (StyleFrom self.old self.new) }
    {
        let room = self.read_field(b' ')?;
        let line_break_len = self.read_number(b' ')?;
        let indentation_len = self.read_number(b' ')?;
        let calls = self.read_number(b'\n')?;
        if MAX_LEN < room || MAX_STYLE < line_break_len || MAX_STYLE < indentation_len {
            return Err(Malformed);
        }
        let line_break = self.read_bytes(line_break_len)?;
        let indentation = self.read_text(indentation_len)?;
        Ok(WriterCase {
            room,
            style: SerializerStyle::new(line_break, indentation),
            calls,
        })
    }

    // A put_atom whose letter was read.
    fn read_atom_call(&mut self) -> Result<Call<'a>, Malformed>
        ensures { IfOk result (CallFrom (65 ∷ self.old) self.new) }
    {
        let len = self.read_field(b' ')?;
        let number = self.read_number(b'\n')?;
        let atom = self.read_text(len)?;
        Ok(Call::PutAtom {
            atom,
            break_line_at: meant(number),
        })
    }

    // The next call of a writer's case. Its letter is matched here alone, and no enum stands for it: that would be a second table of the letters.
    pub fn read_call(&mut self) -> Result<Call<'a>, Malformed>
        ensures { IfOk result (CallFrom self.old self.new) }
    {
        let letter = self.next_byte().ok_or(Malformed)?;
        if letter == b'A' {
            return self.read_atom_call();
        }
        let number = self.read_field(b'\n')?;
        match (letter, number) {
            (b'(', _) => Ok(Call::BeginList {
                break_line_at: meant(number),
            }),
            (b')', 0) => Ok(Call::EndList),
            (b'F', 0) => Ok(Call::Finish {
                insert_line_break: false,
            }),
            (b'F', 1) => Ok(Call::Finish {
                insert_line_break: true,
            }),
            _ => Err(Malformed),
        }
    }
}

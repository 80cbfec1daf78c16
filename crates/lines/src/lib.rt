// Text for a program's output, collected in a block, which is written whenever it is full.
#![tactic(auto)]

ghost use Rattle.std.specs.Prelude.{◌≡◌, ◌≤◌, [], ◌∷◌, length};
ghost use Rattle.lines.specs.Put.{output, put, decimal, number, numbers_text, text_line, item_text, refusal_text};

use sise_parser::{ParsedItem, Refusal, RefusalNumbers};
use std::marker::Model;

// The standard streams by their numbers. libc names them too: one more crate to list, for two numbers that `io` takes as numbers.
pub const STDIN: i32 = 0;

pub const STDOUT: i32 = 1;

// Reads standard input into `bytes`, until they are full, it ends or a read fails: the bytes read. No clause can say what a file holds.
pub fn read_input(bytes: &mut [u8]) -> &[u8]
    ensures { length result.now ≤ length bytes.old }
{
    let n = io::read_full(STDIN, bytes);
    &bytes[..n]
}

// Where the bytes of a program's output wait to be written.
pub type Block = [u8; 4096];

// A program's output: the block, and the place behind the bytes in it that wait to be written. A clause sees both as an `Output`. Both can be read and set.
// It cannot be dropped, so that a program has to end with `finish`, and no byte stays in the block; only a pattern that names both fields takes it apart. It
// is a block and a place, and no `Vec`, since the project uses no heap. A value's text is put by a method or by a function over a printer, and no value has a
// `Display`: `write!` promises its text only where it answers `Ok`, and no clause says that it does; the methods here cannot fail, and promise each byte.
pub struct Printer {
    pub place: usize,
    pub block: Block,
}

impl Model for Printer {
    ghost use Rattle.lines.specs.Put.{Output, output};

    ghost Value = { Output };

    ghost view = { λ p. output p.place p.block };
}

impl Printer {
    pub fn new() -> Printer
        ensures { result.place ≡ 0 }
    {
        Printer {
            place: 0,
            block: io::buffer(),
        }
    }

    // Writes the bytes that wait to standard output: none for a place past the block. A write that fails is not reported.
    pub fn flush(&mut self)
        ensures { self.new ≡ output 0 self.old.bytes }
    {
        if let Some(bytes) = self.block.get(..self.place) {
            io::write_all(STDOUT, bytes);
        }
        self.place = 0;
    }

    // Writes what waits, at the program's end. It has no clause: nothing is left of the output, and of a file no clause says what it holds.
    pub fn finish(mut self) {
        self.flush();
        let Printer { place: _, block: _ } = self;
    }

    // Puts a byte behind those that wait. At the block's end, and at a place past it, the whole block is written first.
    pub fn put_byte(&mut self, byte: u8)
        ensures { self.new ≡ put self.old (byte ∷ []) }
    {
        if self.block.len() <= self.place {
            self.place = self.block.len();
            self.flush();
        }
        self.block[self.place] = byte;
        self.place += 1;
    }

    pub fn put_bytes(&mut self, bytes: &[u8])
        ensures { self.new ≡ put self.old bytes.now }
    {
        for &byte in bytes {
            self.put_byte(byte);
        }
    }

    // Puts a mark, a text and a line end; nothing where there is no text.
    pub fn put_text(&mut self, mark: &[u8], text: Option<&[u8]>)
        ensures { self.new ≡ put self.old (text_line mark.now text.entry) }
    {
        if let Some(text) = text {
            self.put_bytes(mark);
            self.put_bytes(text);
            self.put_byte(b'\n');
        }
    }

    // Puts the decimal digits of n. `io::decimal` answers how many it wrote, and lends none of them.
    pub fn put_decimal(&mut self, n: u64)
        ensures { self.new ≡ put self.old (decimal n) }
    {
        let mut text = [0u8; 20];
        let k = io::decimal(n, &mut text);
        self.put_bytes(&text[..k]);
    }

    // Puts a space and the decimal digits of n.
    pub fn put_number(&mut self, n: usize)
        ensures { self.new ≡ put self.old (number n) }
    {
        self.put_byte(b' ');
        self.put_decimal(n as u64);
    }

    // Puts each of the numbers behind a space.
    pub fn put_numbers(&mut self, numbers: &[usize])
        ensures { self.new ≡ put self.old (numbers_text numbers.now) }
    {
        for &number in numbers {
            self.put_number(number);
        }
    }

    // Puts a letter, and a number behind it.
    pub fn put_letter(&mut self, letter: u8, n: usize)
        ensures { self.new ≡ put self.old (letter ∷ number n) }
    {
        self.put_byte(letter);
        self.put_number(n);
    }

    // Puts the words of an item: `L place`, `A place length` or `E place`.
    pub fn put_item(&mut self, item: ParsedItem)
        ensures { self.new ≡ put self.old (item_text item) }
    {
        match item {
            ParsedItem::ListStart { pos } => self.put_letter(b'L', pos),
            ParsedItem::Atom { pos, len } => {
                self.put_letter(b'A', pos);
                self.put_number(len);
            }
            ParsedItem::ListEnd { pos } => self.put_letter(b'E', pos),
        }
    }

    // Puts a word, and behind it so many parts of a refusal, in the order number, place, code point. How many is a number, since the parts put are a front of
    // one array: an enum of the three cases would be matched into the same number.
    pub fn put_refusal<E: Refusal>(&mut self, word: &[u8], error: E, parts: usize)
        ensures { self.new ≡ put self.old (refusal_text word.now parts (E.meaning error)) }
    {
        let RefusalNumbers {
            number,
            place,
            code,
        } = error.numbers();
        self.put_bytes(word);
        self.put_numbers(&[number as usize, place, code as usize][..parts.min(3)]);
    }
}

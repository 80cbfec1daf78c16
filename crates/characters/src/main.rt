// Runs sise_util and prints its answers: first for each byte its number, its class, and whether it is an atom character and a string character; then
// for each case, a line of standard input, what check_atom says, what check_atom_prefix says of each length from 0 to one past the case, and the
// character at each place from 0 to one past the case, as its code point, or `-` where none is well formed, and its number of bytes.
//
// A case is the line's bytes, or, after an `x`, bytes in hexadecimal, two digits each. Of standard input 4,096 bytes are read at most, of a hexadecimal case
// 64. crates/characters/stdout was made from the same cases by the Rust program compare/, which runs the crate's util.rs and the standard library's UTF-8
// decoder (`compare/run characters`).
#![tactic(auto)]

ghost use Rattle.std.specs.Prelude.{◌≡◌, ◌<◌};
ghost use Rattle.characters.specs.Digits.{digit_value};

use lines::Printer;
use sise_util::classes::class_of;
use sise_util::{
    AtomKind, Character, IllFormed, character_at, check_atom, check_atom_prefix, is_atom_chr,
    is_atom_string_chr, kind_number,
};

// 1, 2 or 3, and 0 for no atom.
fn put_kind(out: &mut Printer, kind: Option<AtomKind>) {
    out.put_decimal(kind_number(kind) as u64);
}

fn put_length(out: &mut Printer, len: usize) {
    out.put_byte(b'/');
    out.put_decimal(len as u64);
}

fn put_character(out: &mut Printer, found: Result<Character, IllFormed>) {
    out.put_byte(b' ');
    match found {
        Ok(Character { code, len }) => {
            out.put_decimal(code as u64);
            put_length(out, len);
        }
        Err(IllFormed { len }) => {
            out.put_byte(b'-');
            put_length(out, len);
        }
    }
}

// What four functions say of a byte, two of them 0 or 1. It is no value's text, so that no trait's method stands for it.
fn put_byte_line(out: &mut Printer, chr: u8) {
    out.put_decimal(chr as u64);
    out.put_number(class_of(chr) as usize);
    out.put_number(is_atom_chr(chr) as usize);
    out.put_decimal(is_atom_string_chr(chr) as u64);
    out.put_byte(b'\n');
}

// What check_atom_prefix says of each length, one past the case last. This and the next function are two: a generic one would take what a turn puts as a
// closure over the printer and the case, and is longer than its loop.
fn put_prefixes(out: &mut Printer, case: &[u8]) {
    for len in 0..=case.len() + 1 {
        put_kind(out, check_atom_prefix(case, len));
    }
}

// The character at each place, one past the case last.
fn put_characters(out: &mut Printer, case: &[u8]) {
    for place in 0..=case.len() + 1 {
        put_character(out, character_at(case, place));
    }
}

fn put_case_line(out: &mut Printer, case: &[u8]) {
    put_kind(out, check_atom(case));
    out.put_byte(b' ');
    put_prefixes(out, case);
    put_characters(out, case);
    out.put_byte(b'\n');
}

// A digit's value, and 0 for other bytes, the letters `a` to `f` among them.
#[tactic(auto, unfolding(crate::specs::Digits::digit_value))]
fn digit_value(digit: u8) -> u8
    ensures value { result ≡ digit_value digit }
    ensures below { result < 16 }
{
    match digit {
        b'a'..=b'f' => 0,
        _ => (digit as char).to_digit(16).unwrap_or(0) as u8,
    }
}

// Puts the bytes that the digits stand for, two for each byte, at the start of the buffer, and answers them.
fn read_hexadecimal<'a>(digits: &[u8], bytes: &'a mut [u8; 64]) -> &'a [u8] {
    for (byte, pair) in bytes.iter_mut().zip(digits.chunks_exact(2)) {
        *byte = digit_value(pair[0]) * 16 + digit_value(pair[1]);
    }
    let len = bytes.len().min(digits.len() / 2);
    &bytes[..len]
}

fn run_case(out: &mut Printer, line: &[u8]) {
    match line {
        [b'x', digits @ ..] => put_case_line(out, read_hexadecimal(digits, &mut [0; 64])),
        _ => put_case_line(out, line),
    }
}

// Runs each line that ends in the text.
fn run_cases(out: &mut Printer, text: &[u8]) {
    for line in text.split_inclusive(|&byte| byte == b'\n') {
        if let [case @ .., b'\n'] = line {
            run_case(out, case);
        }
    }
}

fn main() {
    let mut out = Printer::new();
    for chr in 0..=255 {
        put_byte_line(&mut out, chr);
    }
    let mut bytes = io::buffer();
    run_cases(&mut out, lines::read_input(&mut bytes));
    out.finish();
}

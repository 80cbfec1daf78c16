// Tokens (parser.rs, `Lexer`). Bytes of strings and comments go by the table of classes; a token's first byte is tested by cases, and an atom's by a mask.
// The functions take a text and a place in it, and not the rest from there on: most answer a place in the text, and one that answered a length would have its
// start added to it at each call.
ghost use Rattle.std.specs.Prelude.{◌≡◌, ◌≤◌, ◌<◌, false, eqb, length, drop, get_or};
ghost use Rattle.sise_util.specs.Classes.{class_of};
ghost use Rattle.sise_parser.specs.Refusals.{refusal, refusal_of};
ghost use Rattle.sise_parser.specs.Lexer.{found, between, plain, unfinished, wrong};
ghost use Rattle.sise_parser.specs.Plain.{is_blank, skip_blanks, atom_run, AtomTo};
ghost use Rattle.sise_parser.specs.Meaning.{token_as, lexeme_as, lexed_as, wrong_as, context_number, Reads, Ends};

use crate::error::ParseError;
use sise_util::classes::{BACKSLASH, LINE_END, OTHER, QUOTE, TAB, class_of};
use sise_util::{character_at, is_atom_byte};

// The text's end is one of the cases, as in the crate's `Token`: each match has them all, and none an Option around the other three.
#[derive(Clone, Copy, Debug, PartialEq, Eq)]
pub(crate) enum Token {
    Eof,
    LeftParen,
    RightParen,
    // An atom of so many bytes.
    Atom(usize),
}

// An error, and the position after it.
#[derive(Clone, Copy, Debug, PartialEq, Eq)]
pub(crate) struct Wrong {
    pub error: ParseError,
    pub position: usize,
}

impl From<Wrong> for ParseError {
    ghost from_gives = { λ w e. e ≡ w.error };

    fn from(wrong: Wrong) -> ParseError {
        wrong.error
    }
}

// A token, its place and the position after it. An atom's length, `end - start`, stands in its token too: whoever worked it out would have to be told that
// `start` is not past `end`, and a ghost field that says so is no shorter than the number.
#[derive(Clone, Copy, Debug, PartialEq, Eq)]
pub(crate) struct Lexeme {
    pub token: Token,
    pub start: usize,
    pub end: usize,
}

// What a character stands in that may not stand there. An enum and no closure that makes the error: the clauses name document 01's number of each.
#[derive(Clone, Copy)]
enum Context {
    Outside,
    InString,
    InComment,
}

// The class of the byte at `at`.
fn class_at(text: &[u8], at: usize) -> u8
    requires { at < length text.now }
    ensures { Reads text.now at result }
{
    class_of(text[at])
}

// The error of a character `chr` at `pos` that may not stand there.
fn illegal_chr(context: Context, pos: usize, chr: u32) -> ParseError
    ensures { refusal_of result ≡ refusal (context_number context) pos chr }
{
    match context {
        Context::Outside => ParseError::IllegalChr { pos, chr },
        Context::InString => ParseError::IllegalChrInString { pos, chr },
        Context::InComment => ParseError::IllegalChrInComment { pos, chr },
    }
}

// The error for the character at `at`, and the position after it.
fn wrong_chr(context: Context, text: &[u8], at: usize) -> Wrong
    requires { at < length text.now }
    ensures { wrong_as result ≡ wrong (context_number context) (drop at text.now) at }
{
    match character_at(text, at) {
        Ok(character) => Wrong {
            error: illegal_chr(context, at, character.code),
            position: at + character.len,
        },
        Err(broken) => Wrong {
            error: ParseError::IllFormedChr { pos: at },
            position: at + broken.len,
        },
    }
}

// A string that the text's end cuts off.
fn unfinished_string(at: usize) -> Wrong
    ensures { wrong_as result ≡ unfinished at }
{
    Wrong {
        error: ParseError::UnfinishedString { pos: at },
        position: at,
    }
}

// The rest of a string from `from` on, which is after its opening quote: the position after its closing one.
// The loop counts places by hand: an escape passes two bytes, and an error names its place. With slice patterns over the rest, each of the three places that
// are not the text's end would be worked out from two lengths: no plainer.
fn lex_string(text: &[u8], from: usize) -> Result<usize, Wrong>
    requires { from ≤ length text.now }
    ensures { Ends text.now from result }
{
    let mut at = from;
    loop {
        if text.len() <= at {
            return Err(unfinished_string(at));
        }
        match class_at(text, at) {
            QUOTE => {
                return Ok(at + 1);
            }
            BACKSLASH => {
                at += 1;
                if text.len() <= at {
                    return Err(unfinished_string(at));
                }
                match class_at(text, at) {
                    OTHER | LINE_END | TAB => {
                        return Err(wrong_chr(Context::InString, text, at));
                    }
                    _ => {
                        at += 1;
                    }
                }
            }
            TAB | LINE_END | OTHER => {
                return Err(wrong_chr(Context::InString, text, at));
            }
            _ => {
                at += 1;
            }
        }
    }
}

// Whether `byte` is a blank. Nearly every byte that is none lies above them, and so is told by one test.
fn is_blank(byte: u8) -> bool
    ensures { result ≡ is_blank (class_of byte) }
{
    if byte > b' ' {
        return false;
    }
    matches!(byte, b' ' | b'\t' | b'\r' | b'\n')
}

// The first place from `from` on that holds no blank, or the end. It goes over places, as atom_run does: an iterator of the bytes, tried in both, is one of the
// rest, which has to be made first, and a tree of short tokens took up to half as long again to read. The range's own `find` was tried here, and the proof did
// not close: what it promises is a row of its closure's runs, and the clauses are read off the turns of a loop.
pub fn skip_blanks(text: &[u8], from: usize) -> usize
    ensures same { result ≡ skip_blanks (drop from text.now) from }
    ensures after { from ≤ result }
    ensures token { between (drop from text.now) from ≡ between (drop result text.now) result }
    ensures stop { result < length text.now → is_blank (class_of (get_or text.now result 0)) ≡ false }
{
    for at in from..text.len() {
        if !is_blank(text[at]) {
            return at;
        }
    }
    from.max(text.len())
}

// The end of the run of atom characters that begins at `start`. Its loop stays as that of skip_blanks does. The two are not one function over a test: its
// promise would be one of any test, and each caller needs the definition that is named here.
pub fn atom_run(text: &[u8], start: usize) -> usize
    ensures same { result ≡ atom_run (drop start text.now) start }
    ensures after { start ≤ result }
    ensures token { AtomTo text.now start result }
{
    for at in start..text.len() {
        if !is_atom_byte(text[at]) {
            return at;
        }
    }
    start.max(text.len())
}

// The same for lex_token behind a comment. It stays a call: made part of the token loop, it would cost each byte of the comment's loop one more count.
#[inline(never)]
fn next_run(text: &[u8], start: usize) -> usize
    ensures { result ≡ atom_run (drop start text.now) start }
{
    atom_run(text, start)
}

// Whether a `"` stands at `at`.
pub fn is_quote_at(text: &[u8], at: usize) -> bool
    ensures { result ≡ eqb (get_or text.now at 0) 34 }
{
    text.get(at) == Some(&b'"')
}

// A token from `start` to `end`.
fn found(token: Token, start: usize, end: usize) -> Lexeme
    ensures { lexeme_as result ≡ found (token_as token) start end }
{
    Lexeme { token, start, end }
}

// The atom that begins at `start`: it runs to the end of the text or to a byte outside strings that is no atom character and no quote. Its first run of atom
// characters ends at `run`. The loop counts places by hand: each turn passes a string and the run behind it.
fn lex_atom(text: &[u8], start: usize, run: usize) -> Result<Lexeme, Wrong>
    requires inside { start ≤ length text.now }
    requires run { run ≡ atom_run (drop start text.now) start }
    ensures { lexed_as result ≡ plain (drop start text.now) start start }
{
    let mut at = run;
    while is_quote_at(text, at) {
        at = atom_run(text, lex_string(text, at + 1)?);
    }
    Ok(found(Token::Atom(at - start), start, at))
}

// The token at or after `from`, where no blank stands and the run of atom characters ends at `run`: comments and the blanks behind them are skipped.
// Both loops count by hand: document 01 names the form, a token loop with a comment's loop inside that is left by its label.
pub(crate) fn lex_token(text: &[u8], from: usize, run: usize) -> Result<Lexeme, Wrong>
    requires stop { from < length text.now → is_blank (class_of (get_or text.now from 0)) ≡ false }
    requires run { run ≡ atom_run (drop from text.now) from }
    ensures { lexed_as result ≡ between (drop from text.now) from }
{
    let mut at = from;
    let mut end = run;
    'token: loop {
        let Some(&byte) = text.get(at) else {
            break 'token Ok(found(Token::Eof, at, at));
        };
        match byte {
            b'(' => break 'token Ok(found(Token::LeftParen, at, at + 1)),
            b')' => break 'token Ok(found(Token::RightParen, at, at + 1)),
            b';' => {
                at += 1;
                'comment: loop {
                    if text.len() <= at {
                        break 'token Ok(found(Token::Eof, at, at));
                    }
                    match class_at(text, at) {
                        LINE_END => break 'comment,
                        OTHER => break 'token Err(wrong_chr(Context::InComment, text, at)),
                        _ => at += 1,
                    }
                }
                at = skip_blanks(text, at);
                end = next_run(text, at);
            }
            _ if byte == b'"' || at < end => break 'token lex_atom(text, at, end),
            _ => break 'token Err(wrong_chr(Context::Outside, text, at)),
        }
    }
}

// The token at or after `from`: blanks and comments are skipped. The calls of this crate have passed the blanks and the run themselves, and ask lex_token.
pub(crate) fn get_token(text: &[u8], from: usize) -> Result<Lexeme, Wrong>
    ensures { lexed_as result ≡ between (drop from text.now) from }
{
    let start = skip_blanks(text, from);
    lex_token(text, start, atom_run(text, start))
}

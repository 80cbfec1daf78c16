// Plain items: a bracket or an atom without strings, inside a list. next_item finds them here, without the states of the lexer. The functions become a part of
// the caller's loop, where the record stays in registers; so they are small.
ghost use Rattle.std.specs.Prelude.{◌≡◌, ◌≤◌, ◌↔◌, true, drop, length, IfSome, IsSome, IfOk, IfErr, IsOk};
ghost use Rattle.sise_parser.specs.Lexer.{between};
ghost use Rattle.sise_parser.specs.Plain.{atom_run};
ghost use Rattle.sise_parser.specs.PlainItems.{IsBracketAt, IsPlain, IsPlainAt, Sees};
ghost use Rattle.sise_parser.specs.Reader.{is_sound, in_parsing, next_item, next, reader, item as answer_item};

use crate::lexer::{atom_run, is_quote_at, skip_blanks};
use crate::reader::{ParsedItem, Phase, Reader};

// A plain item, and the reader's record behind it.
#[derive(Clone, Copy, Debug, PartialEq, Eq)]
pub struct PlainItem {
    pub reader: Reader,
    pub item: ParsedItem,
}

// What is seen where the next item is due: a plain item, or the place of a token that is none, and where the run of atom characters from there on ends.
#[derive(Clone, Copy)]
pub(crate) enum Seen {
    Plain(PlainItem),
    Token { start: usize, run: usize },
    Outside,
}

// An item that ends at `position`, with so many lists open.
fn inside(position: usize, lists: usize, item: ParsedItem) -> PlainItem
    ensures { result ≡ record { reader = reader position Phase.Parsing lists; item = item } }
{
    PlainItem {
        reader: Reader {
            position,
            phase: Phase::Parsing,
            lists,
        },
        item,
    }
}

// The bracket at `start`, if one is there that is plain where so many lists are open.
#[inline(always)]
#[tactic(auto, using(crate::proofs::ByteSteps::between_open, crate::proofs::ByteSteps::between_close), unfolding(crate::specs::Reader::in_parsing))]
fn bracket_at(text: &[u8], start: usize, lists: usize) -> Option<PlainItem>
    requires { lists ≤ start }
    ensures when { IsSome result ↔ IsBracketAt text.now lists start }
    ensures item { IfSome result (λ p. next p.reader (answer_item p.item) ≡ in_parsing lists (between (drop start text.now) start)) }
{
    let byte = *text.get(start)?;
    if byte == b'(' {
        let begun = ParsedItem::ListStart { pos: start };
        return Some(inside(start + 1, lists + 1, begun));
    }
    if byte == b')' && 1 < lists {
        let ended = ParsedItem::ListEnd { pos: start };
        return Some(inside(start + 1, lists - 1, ended));
    }
    None
}

// The plain item that begins at `start`, where so many lists are open, or else where the run of atom characters from there on ends.
#[inline(always)]
#[tactic(auto, unfolding(crate::specs::Reader::in_parsing))]
fn plain_at(text: &[u8], start: usize, lists: usize) -> Result<PlainItem, usize>
    requires { lists ≤ start }
    ensures when { IsOk result ↔ IsPlainAt text.now lists start }
    ensures item { IfOk result (λ p. next p.reader (answer_item p.item) ≡ in_parsing lists (between (drop start text.now) start)) }
    ensures run { IfErr result (λ e. e ≡ atom_run (drop start text.now) start) }
{
    if let Some(bracket) = bracket_at(text, start, lists) {
        return Ok(bracket);
    }
    let end = atom_run(text, start);
    if end == start || is_quote_at(text, end) {
        return Err(end);
    }
    let len = end - start;
    Ok(inside(end, lists, ParsedItem::Atom { pos: start, len }))
}

// What is seen at the reader's place: a plain item, or where another token is due and its run of atom characters ends; nothing outside a list, or by an
// unsound record. A bracket right at the position is looked for first, since most stand there.
#[inline(always)]
pub(crate) fn look(text: &[u8], reader: Reader) -> Seen
    ensures { Sees text.now reader result }
{
    if reader.phase != Phase::Parsing || text.len() <= reader.position {
        return Seen::Outside;
    }
    if !reader.is_sound(text.len()) {
        return Seen::Outside;
    }
    if let Some(bracket) = bracket_at(text, reader.position, reader.lists) {
        return Seen::Plain(bracket);
    }
    let start = skip_blanks(text, reader.position);
    match plain_at(text, start, reader.lists) {
        Ok(plain) => Seen::Plain(plain),
        Err(run) => Seen::Token { start, run },
    }
}

// The next item of the text, if the record is sound and the item is plain: a `(`, a `)` that does not end the outermost list, or a run of atom characters with
// no `"` behind it. next_item looks for it first, and goes by item_ahead where there is none.
#[inline(always)]
pub fn plain_item(text: &[u8], reader: Reader) -> Option<PlainItem>
    ensures when { IsSome result ↔ (is_sound (length text.now) reader ≡ true) × IsPlain text.now reader }
    ensures item { IfSome result (λ p. next p.reader (answer_item p.item) ≡ next_item text.now reader) }
{
    match look(text, reader) {
        Seen::Plain(plain) => Some(plain),
        _ => None,
    }
}

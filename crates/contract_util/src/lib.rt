// Every public call of sise_util, under the contract that it has there and with a body that only calls it: the promises of the library on one page; with
// them `kind_is_atom`, a call of the standard library by which a kind is asked whether it is an atom. An edit of must-fail/ puts a wrong program in the
// place of a body, and the contract has to refuse it.
#![tactic(auto)]

ghost use Rattle.std.specs.Prelude.{◌≡◌, drop, is_some};
ghost use Rattle.sise_util.specs.Chars.{is_atom_chr, is_string_chr};
ghost use Rattle.sise_util.specs.Atom.{kind_of, kind_prefix, kind_number};
ghost use Rattle.sise_util.specs.Classes.{class_of, class_number, class_table};
ghost use Rattle.sise_util.specs.Utf8.{character};

use sise_util::classes::ClassTable;
use sise_util::{AtomKind, Character, IllFormed};

// ---- util.rt

// Whether `chr` is an atom character.
pub fn is_atom_chr(chr: u8) -> bool
    ensures { result ≡ is_atom_chr chr }
{
    sise_util::is_atom_chr(chr)
}

// Whether `chr` is a string character.
pub fn is_atom_string_chr(chr: u8) -> bool
    ensures { result ≡ is_string_chr chr }
{
    sise_util::is_atom_string_chr(chr)
}

// Whether `byte` is an atom character, found by a mask.
pub fn is_atom_byte(byte: u8) -> bool
    ensures { result ≡ is_atom_chr byte }
{
    sise_util::is_atom_byte(byte)
}

// Which atom `atom` is.
pub fn check_atom(atom: &[u8]) -> Option<AtomKind>
    ensures { result ≡ kind_of atom.now }
{
    sise_util::check_atom(atom)
}

// Which atom the first `len` bytes of `rest` are; a length past its end is none.
pub fn check_atom_prefix(rest: &[u8], len: usize) -> Option<AtomKind>
    ensures { result ≡ kind_prefix rest.now len }
{
    sise_util::check_atom_prefix(rest, len)
}

// The first word of such an atom in a table, and 0 for no atom.
pub fn kind_number(kind: Option<AtomKind>) -> u32
    ensures { result ≡ kind_number kind }
{
    sise_util::kind_number(kind)
}

// Whether it is an atom at all.
pub fn kind_is_atom(kind: Option<AtomKind>) -> bool
    ensures { result ≡ is_some kind }
{
    kind.is_some()
}

// ---- classes.rt

// The class number of each byte.
pub fn classes() -> ClassTable
    ensures { result ≡ class_table }
{
    sise_util::classes::classes()
}

// The class number of `chr`.
pub fn class_of(chr: u8) -> u8
    ensures { result ≡ class_number (class_of chr) }
{
    sise_util::classes::class_of(chr)
}

// ---- utf8.rt

// The character that begins at a place of the text, by RFC 3629; none where none is well formed, and none at the text's end or past it.
pub fn character_at(text: &[u8], at: usize) -> Result<Character, IllFormed>
    ensures { result ≡ character (drop at text.now) }
{
    sise_util::character_at(text, at)
}

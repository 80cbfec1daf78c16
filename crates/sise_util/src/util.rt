// The characters of atoms and strings, and the check of an atom.
ghost use Rattle.std.specs.Prelude.{◌≡◌, ◌<◌, false, length, drop, MatchOption};
ghost use Rattle.sise_util.specs.Chars.{is_atom_chr, is_string_chr, is_escaped_chr};
ghost use Rattle.sise_util.specs.Atom.{inside, kind_of, kind_number, kind_prefix};
ghost use Rattle.sise_util.specs.Parts.{mask_of, StringTo, PlainTo, StopsAt};

use crate::classes::{ATOM_CHR, class_of};

// Which atom some bytes are, by the number that is such an atom's first word in a table.
#[derive(Clone, Copy, Debug, PartialEq, Eq)]
pub enum AtomKind {
    // No `"` in it.
    Plain = 1,
    // One whole string.
    String = 2,
    // Any other atom.
    Mixed = 3,
}

// The first word of such an atom in a table; 0 for no atom. It is a number, since a table's words and C's answer are numbers.
pub fn kind_number(kind: Option<AtomKind>) -> u32
    ensures { result ≡ kind_number kind }
{
    kind.map_or(0, |kind| kind as u32)
}

// Whether `chr` is an atom character outside a string. Small letters come first and the other marks last: the compiler tests the values of one `match`
// from below. Marks that ASCII has beside the digits or the capitals stand in one arm with them, which so is one range.
// An atom is checked by it, since document 01 asks for a set of cases, but for the run that the atom begins with: in_atom_class passes that one, and
// is_atom_byte the reader's runs.
pub fn is_atom_chr(chr: u8) -> bool
    ensures { result ≡ is_atom_chr chr }
{
    match chr {
        b'a'..=b'z' => true,
        _ => match chr {
            b'-' | b'.' | b'/' | b'0'..=b'9' | b':' => true,
            b'<' | b'=' | b'>' | b'?' | b'@' | b'A'..=b'Z' => true,
            _ => matches!(
                chr,
                b'!' | b'#' | b'$' | b'%' | b'&' | b'*' | b'+' | b'_' | b'~'
            ),
        },
    }
}

// Whether `chr` is a string character: one that stands inside a string without a `\`.
pub fn is_atom_string_chr(chr: u8) -> bool
    ensures { result ≡ is_string_chr chr }
{
    match chr {
        b'"' | b'\\' => false,
        b' '..=b'~' => true,
        _ => false,
    }
}

// The atom characters below 64 and from 64 to 127, a bit each.
const LOW_ATOM_CHRS: u64 = 0xF7FF_EC7A_0000_0000;

const HIGH_ATOM_CHRS: u64 = 0x47FF_FFFE_87FF_FFFF;

// The mask that has the bit of `byte`, below 128.
fn mask_of(byte: u8) -> u64
    ensures { result ≡ mask_of byte }
{
    if byte < 64 {
        LOW_ATOM_CHRS
    } else {
        HIGH_ATOM_CHRS
    }
}

// The same as is_atom_chr, by a bit of a mask: for loops over many bytes, where it is the faster one. Below 128 only the mask is chosen, so that no branch
// depends on the byte.
pub fn is_atom_byte(byte: u8) -> bool
    ensures { result ≡ is_atom_chr byte }
{
    if byte >= 128 {
        return false;
    }
    (mask_of(byte) >> ((byte % 64) as u64)) % 2 == 1
}

// Whether `chr` may follow a `\` in a string.
fn is_escaped_chr(chr: u8) -> bool
    ensures { result ≡ is_escaped_chr chr }
{
    matches!(chr, b'"' | b'\\') || is_atom_string_chr(chr)
}

// The place behind the closing quote of a string whose inside begins at `from`, if one is there.
// It counts places by hand: by slice patterns of what is left, which was tried, a string of 20,000 bytes takes 260,034 instructions and not 220,029.
fn string_end(atom: &[u8], from: usize) -> Option<usize>
    ensures { MatchOption result (inside (drop from atom.now) ≡ false) (StringTo atom.now from) }
{
    let mut at = from;
    while at < atom.len() {
        let chr = atom[at];
        at += 1;
        if chr == b'"' {
            return Some(at);
        }
        if chr == b'\\' {
            if atom.len() <= at || !is_escaped_chr(atom[at]) {
                return None;
            }
            at += 1;
        } else if !is_atom_string_chr(chr) {
            return None;
        }
    }
    None
}

// The same as is_atom_chr, by the table of classes: for a run of many bytes, where it is the fastest one, since no branch depends on the byte and there is no
// shift.
fn in_atom_class(byte: u8) -> bool
    ensures { result ≡ is_atom_chr byte }
{
    class_of(byte) == ATOM_CHR
}

// The end of the atom characters that `atom` begins with: most atoms have no others, so it goes by the table.
fn plain_end(atom: &[u8]) -> usize
    ensures run { PlainTo atom.now result }
    ensures stop { StopsAt atom.now result }
{
    atom.iter()
        .position(|&byte| !in_atom_class(byte))
        .unwrap_or(atom.len())
}

// The same of what stands behind a string of an atom, by the cases.
fn run_end(rest: &[u8]) -> usize
    ensures run { PlainTo rest.now result }
    ensures stop { StopsAt rest.now result }
{
    rest.iter()
        .position(|&byte| !is_atom_chr(byte))
        .unwrap_or(rest.len())
}

// Which atom `atom` is, whose first byte that is no atom character stands at `from`.
// The loop counts places by hand: each turn passes a string and the atom characters behind it, and no iterator goes by such steps.
fn kind_from(atom: &[u8], from: usize) -> Option<AtomKind>
    requires { (from < length atom.now) × PlainTo atom.now from × StopsAt atom.now from }
    ensures { result ≡ kind_of atom.now }
{
    let mut at = from;
    while at < atom.len() {
        if atom[at] != b'"' {
            return None;
        }
        let end = string_end(atom, at + 1)?;
        if at == 0 && end == atom.len() {
            return Some(AtomKind::String);
        }
        at = end + run_end(&atom[end..]);
    }
    Some(AtomKind::Mixed)
}

// Which atom `atom` is: one or more atom characters and strings, or no atom.
pub fn check_atom(atom: &[u8]) -> Option<AtomKind>
    ensures { result ≡ kind_of atom.now }
{
    let end = plain_end(atom);
    if end < atom.len() {
        return kind_from(atom, end);
    }
    (end > 0).then_some(AtomKind::Plain)
}

// Which atom the first `len` bytes of `rest` are, a text from an atom's first byte on; a length past its end is none.
// The length stands beside the slice, since a table's words name an atom's place and length, and the length may be past the end.
pub fn check_atom_prefix(rest: &[u8], len: usize) -> Option<AtomKind>
    ensures { result ≡ kind_prefix rest.now len }
{
    check_atom(rest.get(..len)?)
}

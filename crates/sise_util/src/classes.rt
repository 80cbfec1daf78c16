// The classes of bytes, which the definition of the reader goes by from state to state; the code asks for one inside strings and comments and in the run that
// an atom begins with, and the names are those that it asks for there. Those that share an arm of a `match` of the reader have no neighbouring
// numbers: neighbours would become a test of a range, and the arms' order would be another.
// They are numbers and no enum: document 01 asks for a constant array of 256 class numbers.
ghost use Rattle.std.specs.Prelude.{◌≡◌};
ghost use Rattle.sise_util.specs.Classes.{class_of, class_number, class_table};

use crate::table::CLASSES;

pub const QUOTE: u8 = 1;

pub const TAB: u8 = 2;

pub(crate) const ATOM_CHR: u8 = 3;

pub const LINE_END: u8 = 4;

pub const BACKSLASH: u8 = 5;

pub const OTHER: u8 = 6;

// A class number for each byte.
pub type ClassTable = [u8; 256];

// The table as a static: one array in memory, where the constant is built anew at each use.
static TABLE: ClassTable = CLASSES;

// The array that all who look up a class read: what it holds is tested once, here.
fn table() -> &'static ClassTable
    ensures { result.now ≡ class_table }
{
    &TABLE
}

// The whole table, for a caller that looks up many bytes: it is copied once.
pub fn classes() -> ClassTable
    ensures { result ≡ class_table }
{
    *table()
}

// The class of a byte.
pub fn class_of(chr: u8) -> u8
    ensures { result ≡ class_number (class_of chr) }
{
    table()[chr as usize]
}

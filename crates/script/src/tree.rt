// The parts of a script that trees alone have.
ghost use Rattle.std.specs.Prelude.{length, IfOk};
ghost use Rattle.script.specs.Script.{TreeFrom, NumbersFrom};

use crate::{Malformed, Script, meant};

// What a tree's line asks for: how many lists the writer has open, the threshold, the table's first word that the tree calls are lent, and the number
// of paths.
#[derive(Clone, Copy, Debug, PartialEq, Eq)]
pub struct TreeCalls {
    pub lists: usize,
    pub break_line_at: u64,
    pub first: usize,
    pub paths: usize,
}

impl Script<'_> {
    // The tree's line.
    pub fn read_tree_line(&mut self) -> Result<TreeCalls, Malformed>
        ensures { IfOk result (TreeFrom self.old self.new) }
    {
        self.read_byte(b'P')?;
        let lists = self.read_field(b' ')?;
        let threshold = self.read_number(b' ')?;
        let first = self.read_number(b' ')?;
        let paths = self.read_number(b'\n')?;
        Ok(TreeCalls {
            lists,
            break_line_at: meant(threshold),
            first,
            paths,
        })
    }

    // A list of numbers, as many as `list` has room for at most, which are read into it.
    pub fn read_numbers<'l>(&mut self, list: &'l mut [u64]) -> Result<&'l [u64], Malformed>
        ensures { IfOk result (NumbersFrom self.old self.new (length list.old)) }
    {
        let count = self.read_number(b' ')?;
        let numbers = list.get_mut(..count).ok_or(Malformed)?;
        for number in numbers.iter_mut() {
            *number = meant(self.read_number(b' ')?);
        }
        self.read_byte(b'\n')?;
        Ok(numbers)
    }
}

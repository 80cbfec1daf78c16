// A node looked up by its path alone: only the nodes on the way are read.
ghost use Rattle.std.specs.Prelude.{◌≡◌, ◌≤◌, ◌+◌, IfSome};
ghost use Rattle.sise_tree.specs.FindPath.{find_path, found_as, Passes};

use crate::tree::{LONGEST, PathError, TreeTable, wide};

// What find_path answers: the node's index, and the number of nodes looked at.
#[derive(Clone, Copy, Debug, PartialEq, Eq)]
pub struct Found {
    pub index: usize,
    pub seen: usize,
}

impl<'a> TreeTable<'a> {
    // The node behind so many children, of which the first is node `first`, by their spans as they stand: none where a child is not in the table, or has the
    // span 0.
    fn passed(self, first: usize, children: u64) -> Option<usize>
        ensures same { Passes self.entry.table.now first children result }
        ensures forward { IfSome result (λ j. first + children ≤ j) }
    {
        // By try_fold the same lines stand in a closure, behind a `?` and an Option of its own: no plainer.
        let mut at = first;
        for _ in 0..children {
            let span = self.node(at)?.span;
            if span == 0 {
                return None;
            }
            at += wide(span);
        }
        Some(at)
    }

    // The node at the end of the path, as index_path finds it where the table holds a tree, but the table is not tested: the root is looked at, and at each
    // list its children up to the wanted one, and their words are taken as they stand.
    pub fn find_path(self, path: &[u64]) -> Result<Found, PathError>
        ensures { found_as result ≡ find_path self.entry.table.now self.entry.text.now path.now }
    {
        if self.text.len() > LONGEST {
            return Err(PathError::TextTooLong);
        }
        let mut at = 0;
        let mut seen = 1;
        for &index in path {
            let list = self.node(at).ok_or(PathError::NotATree)?;
            if list.kind != 0 || index >= list.first as u64 {
                return Err(PathError::NoSuchNode);
            }
            at = self.passed(at + 1, index).ok_or(PathError::NotATree)?;
            seen += 1 + index as usize;
        }
        self.node(at).ok_or(PathError::NotATree)?;
        Ok(Found { index: at, seen })
    }
}

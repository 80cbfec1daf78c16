// A walk over a table that holds a tree: an iterator of its turns. It keeps the next node and the innermost open list, whose span says where it ends and whose
// third word says how far before it the list around it stands. At each turn it closes that list, or passes a node.
ghost use Rattle.std.specs.Prelude.{◌≡◌, ◌+◌, ◌*◌, ◌≤◌, length, Some};
ghost use Rattle.std.specs.Iterator.{at_most};
ghost use Rattle.sise_tree.specs.NodeWords.{Words};
ghost use Rattle.sise_tree_writer.specs.Walking.{NodeIn, AtomIn, IsTurn, Leavable, Passable, started, left_list, passed, CanTurn, TakesTurn, turns_left};

use sise_tree::{NodeWords, TreeTable, wide};

// What is due: the innermost list ends, a list begins, or an atom comes, with its bytes and whether it is its list's first child. Three cases, and no Option
// of one.
#[derive(Clone, Copy)]
pub(crate) enum Turn<'a> {
    End,
    List,
    Atom { bytes: &'a [u8], begins: bool },
}

// Where a walk is: the next node, the innermost open list and its end, and whether that list has just begun. The tree stands beside it in Walk, and is no
// field: each turn makes a new place in the same tree.
#[derive(Clone, Copy)]
struct Place {
    i: usize,
    list: usize,
    end: usize,
    begins: bool,
}

// Node `i`'s words, which the table has.
#[inline(always)]
fn node(tree: TreeTable<'_>, i: usize) -> NodeWords
    requires { 4 * (i + 1) ≤ length tree.table.now }
    ensures { Words tree.entry.table.now i result }
{
    tree.node(i).unwrap()
}

impl Place {
    // Where a walk begins: before the first node.
    fn start(tree: TreeTable<'_>) -> Place
        requires { 4 ≤ length tree.table.now }
        ensures { result ≡ started tree.entry.table.now }
    {
        Place {
            i: 0,
            list: 0,
            end: wide(node(tree, 0).span),
            begins: false,
        }
    }

    // The turn that is due.
    #[inline(always)]
    fn turn<'a>(self, tree: TreeTable<'a>) -> Turn<'a>
        requires node { NodeIn tree.table.now self }
        requires atom { AtomIn tree.text.now tree.table.now self }
        ensures { IsTurn tree.entry.text.now tree.entry.table.now self result }
    {
        if self.i == self.end {
            return Turn::End;
        }
        let node = node(tree, self.i);
        if node.kind == 0 {
            return Turn::List;
        }
        let at = wide(node.first);
        Turn::Atom {
            bytes: &tree.text[at..at + wide(node.second)],
            begins: self.begins,
        }
    }

    // Goes on past a turn: out of the innermost list, into the list that begins, or past an atom. The end of the first node ends the walk.
    #[inline(always)]
    fn pass(self, tree: TreeTable<'_>, turn: Turn<'_>) -> Option<Place>
        requires { Passable tree.table.now self turn }
        ensures { result ≡ passed tree.entry.table.now self turn.entry }
    {
        match turn {
            Turn::End => self.leave(tree),
            Turn::List => Some(Place {
                i: self.i + 1,
                list: self.i,
                end: self.i + wide(node(tree, self.i).span),
                begins: true,
            }),
            Turn::Atom { .. } if self.i == 0 => None,
            Turn::Atom { .. } => Some(Place {
                i: self.i + 1,
                begins: false,
                ..self
            }),
        }
    }

    // Out of the innermost list, into the one around it.
    #[inline(always)]
    fn leave(self, tree: TreeTable<'_>) -> Option<Place>
        requires { Leavable tree.table.now self }
        ensures { result ≡ left_list tree.entry.table.now self }
    {
        if self.list == 0 {
            return None;
        }
        let parent = self.list - wide(node(tree, self.list).second);
        Some(Place {
            list: parent,
            end: parent + wide(node(tree, parent).span),
            begins: false,
            ..self
        })
    }
}

// A walk: the table, and where it is, or None behind the last turn.
#[derive(Drop)]
pub(crate) struct Walk<'a> {
    tree: TreeTable<'a>,
    due: Option<Place>,
}

impl<'a> Walk<'a> {
    // A walk that begins.
    pub(crate) fn new(tree: TreeTable<'a>) -> Walk<'a>
        requires { 4 ≤ length tree.table.now }
        ensures { result ≡ record { tree = tree.entry; due = Some (started tree.entry.table.now) } }
    {
        Walk {
            tree,
            due: Some(Place::start(tree)),
        }
    }
}

// Its turns, one after the other.
impl<'a> Iterator for Walk<'a> {
    type Item = Turn<'a>;

    ghost can_next = { λ s. CanTurn s.tree.text.now s.tree.table.now s.due };

    ghost next_gives = { λ s r t. TakesTurn s.tree.text.now s.tree.table.now s.due r t.due × (t.tree ≡ s.tree) };

    ghost remaining = { λ s. at_most (turns_left s.tree.table.now s.due) };

    #[inline(always)]
    fn next(&mut self) -> Option<Turn<'a>> {
        let place = self.due?;
        let turn = place.turn(self.tree);
        self.due = place.pass(self.tree, turn);
        Some(turn)
    }
}

// Tables: whether one holds a tree, and the node at the end of a path.
ghost use Rattle.std.specs.Prelude.{◌≡◌, ◌+◌, ◌/◌, ◌^◌, ◌≤◌, ◌<◌, true, cond, eqb, length, is_some};
ghost use Rattle.sise_tree.specs.Tree.{fills_in, fits_kind};
ghost use Rattle.sise_tree.specs.Parts.{SameFrom, good_in, atom_holds_at};
ghost use Rattle.sise_tree.specs.NodeWords.{words_at, node_words};
ghost use Rattle.sise_tree.specs.Decision.{decide};
ghost use Rattle.sise_tree.specs.Held.{held_if, held_as};
ghost use Rattle.sise_tree.specs.IndexPath.{index_path};
ghost use Rattle.sise_tree.specs.Answers.{indexed_as, path_refusal};

use sise_parser::{Refusal, RefusalNumbers};
use sise_util::{AtomKind, check_atom_prefix};

// The longest text of a tree call.
pub const LONGEST: usize = 16777216;

// Why a table holds no tree of atoms over a text.
#[derive(Clone, Copy, Debug, PartialEq, Eq)]
pub enum TableError {
    // It holds no tree.
    NotATree,
    // It holds a tree, but the bytes of some atom are none.
    NoAtom,
}

// Why no node is found at the end of a path, by document 01's numbers.
#[derive(Clone, Copy, Debug, PartialEq, Eq)]
pub enum PathError {
    TextTooLong = 13,
    NotATree = 15,
    NoSuchNode = 16,
}

impl Refusal for PathError {
    ghost meaning = { path_refusal };

    // `as` wants the enum itself, so that neither a generic function nor a default body of the trait can cast for all three enums of such numbers.
    fn numbers(self) -> RefusalNumbers {
        RefusalNumbers::unplaced(self as u32)
    }
}

// A table, and the text in which its atoms lie.
#[derive(Clone, Copy, Debug, PartialEq, Eq)]
pub struct TreeTable<'a> {
    pub table: &'a [u32],
    pub text: &'a [u8],
}

// A node's four words: of a list 0, its number of children, the distance back to its parent and its span; of an atom its kind, its place, its length and 1.
// Four numbers and no enum of the two: they are read from a lent table, whose words may be any, a first word too that is none of the four kinds; both kinds use
// all four; and C reads the words as document 01 lays them out.
#[derive(Clone, Copy, Debug, PartialEq, Eq)]
pub struct NodeWords {
    pub kind: u32,
    pub first: u32,
    pub second: u32,
    pub span: u32,
}

// A word as an index: a cast, with the promise that the index is below 2^32, which the sums of indices need. The cast alone does not promise it.
pub fn wide(x: u32) -> usize
    ensures same { result ≡ x }
    ensures small { result < 2 ^ 32 }
{
    x as usize
}

// Node `i`'s words, where it is known to be in the table; `node`, which does not know it, answers an Option. A type for the fact would be the table and an
// index, made at each turn of a loop for this one call.
pub(crate) fn words_of(table: &[u32], i: usize) -> NodeWords
    requires { i < length table.now / 4 }
    ensures { result ≡ words_at table.now i }
{
    let [kind, first, second, span] = table.as_chunks::<4>().0[i];
    NodeWords {
        kind,
        first,
        second,
        span,
    }
}

// How many nodes from `at` on, `left` at most and before node `end`, are no lists and have the span 1, as atoms have. Counted so, the next node's place does
// not depend on the word that says how far it is. A `for`: `position` over the chunks of four was tried, and the proof of `same` did not close, which has to go
// from its answers, chunk by chunk, back to the words of the table.
fn singles(table: &[u32], left: usize, at: usize, end: usize) -> usize
    requires { (end ≤ length table.now / 4) × (at < end) }
    ensures same { SameFrom table.now left at end result }
    ensures few { result ≤ left }
    ensures within { at + result ≤ end }
{
    let most = left.min(end - at);
    for run in 0..most {
        let node = words_of(table, at + run);
        if node.kind == 0 || node.span != 1 {
            return run;
        }
    }
    most
}

// Whether node `i`, a child of the first node, has the distance to it as its third word, if it is a list.
fn is_linked(node: NodeWords, i: usize) -> bool
    ensures { result ≡ cond (eqb node.kind 0) (eqb node.second i) true }
{
    node.kind != 0 || wide(node.second) == i
}

// Whether the spans of so many children of the first node, which stand after it, end exactly at node `end`, which is in the table or just past it, and each
// list among them has its distance. A turn passes a run of atoms at once, or a list by its span: the words are no sequence of children to go over.
fn fills(table: &[u32], children: usize, end: usize) -> bool
    ensures { result ≡ fills_in table.now 0 children 1 end }
{
    if end > table.len() / 4 {
        return false;
    }
    let mut left = children;
    let mut at = 1;
    while left > 0 {
        if at >= end {
            return false;
        }
        let run = singles(table, left, at, end);
        if run > 0 {
            at += run;
            left -= run;
        } else {
            let node = words_of(table, at);
            if node.span == 0 || !is_linked(node, at) {
                return false;
            }
            at += wide(node.span);
            left -= 1;
        }
    }
    at == end
}

// Whether a table that is one atom with the first word `kind` over these bytes holds a tree of atoms: it does if the word is the number of their kind; where
// they are no atom, each of the three numbers makes a tree.
fn kind_holds(kind: u32, atom: Option<AtomKind>) -> Result<(), TableError>
    ensures { result ≡ held_if (fits_kind atom kind) (is_some atom) }
{
    match (atom, kind) {
        (Some(own), _) if kind == own as u32 => Ok(()),
        (None, 1..=3) => Err(TableError::NoAtom),
        _ => Err(TableError::NotATree),
    }
}

impl<'a> TreeTable<'a> {
    // Node `i`'s words, where the table has them all.
    #[inline(always)]
    pub fn node(self, i: usize) -> Option<NodeWords>
        ensures { result ≡ node_words self.entry.table.now i }
    {
        if i >= self.table.len() / 4 {
            return None;
        }
        Some(words_of(self.table, i))
    }

    // What the first node is: it is in the table and has one of the two forms, and an atom's bytes are an atom, or not. A list's third word is looked at where
    // its parent steps over it.
    fn node_holds(self) -> Result<(), TableError>
        ensures { result ≡ held_if (good_in self.entry.text.now self.entry.table.now 0) (atom_holds_at self.entry.text.now self.entry.table.now 0) }
    {
        let node = self.node(0).ok_or(TableError::NotATree)?;
        let first = wide(node.first);
        if node.kind == 0 {
            if fills(self.table, first, wide(node.span)) {
                return Ok(());
            }
            return Err(TableError::NotATree);
        }
        let len = wide(node.second);
        if node.span != 1 || self.text.len() < first + len {
            return Err(TableError::NotATree);
        }
        kind_holds(node.kind, check_atom_prefix(&self.text[first..], len))
    }

    // What the table holds over the text. Each node is tested by itself, as the first of the part of the table from it on, which is enough
    // (proofs/LocalLaws.antt), and stepped over once, by its list; an atom's bytes are looked at once. So the time is linear in the first node's span and the
    // bytes of its atoms.
    pub fn holds_tree(self) -> Result<(), TableError>
        ensures { result ≡ held_as self.entry.text.now (decide self.entry.text.now self.entry.table.now) }
    {
        let root = self.node(0).ok_or(TableError::NotATree)?;
        let end = wide(root.span);
        if end == 0 || end > self.table.len() / 4 {
            return Err(TableError::NotATree);
        }
        let mut held = Ok(());
        // By the index, by which the part of the table is found.
        for i in 0..end {
            let part = TreeTable {
                table: &self.table[4 * i..],
                ..self
            };
            match part.node_holds() {
                Ok(()) => {}
                Err(TableError::NoAtom) => held = Err(TableError::NoAtom),
                Err(TableError::NotATree) => return Err(TableError::NotATree),
            }
        }
        held
    }

    // The node at the end of the path: its index in the table. An index of the path counts a list's children from 0.
    pub fn index_path(self, path: &[u64]) -> Result<usize, PathError>
        ensures { indexed_as result ≡ index_path self.entry.table.now self.entry.text.now path.now }
    {
        if self.text.len() > LONGEST {
            return Err(PathError::TextTooLong);
        }
        if self.holds_tree() == Err(TableError::NotATree) {
            return Err(PathError::NotATree);
        }
        Ok(self.find_path(path)?.index)
    }
}

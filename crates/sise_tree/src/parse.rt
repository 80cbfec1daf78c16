// A node of a text, read into a lent table.
ghost use Rattle.std.specs.Prelude.{◌≡◌, ◌≤◌, ◌<◌, ◌/◌, length};
ghost use Rattle.sise_tree.specs.Tree.{kind_at};
ghost use Rattle.sise_tree.specs.Answers.{tree_refusal};
ghost use Rattle.sise_tree.specs.declared.parse.TreeError.TheVariants.{Refused};
ghost use Rattle.sise_tree.specs.ParseTree.{read_node, parse_tree, DoesParse};
ghost use Rattle.sise_tree.specs.Filling.{DoesCount, put_at, CanAttach, Attaches, CanClose, Closes, CanPut, Puts};
ghost use Rattle.sise_tree.specs.Filling.{GivesDue, CanWrite, Writes, CanStart, Starts, CanFill, DoesFill};

use crate::tree::{LONGEST, NodeWords, wide, words_of};
use sise_parser::{
    ParseError, ParsedItem, Phase, Reader, Refusal, RefusalNumbers, item_ahead, plain_item,
};
use sise_util::{check_atom_prefix, kind_number};

// Why no tree is read.
#[derive(Clone, Copy, Debug, PartialEq, Eq)]
pub enum TreeError {
    // A refusal of the reader.
    Refused(ParseError),
    // A list closes where a node is due.
    UnexpectedListEnd { pos: usize },
    TextTooLong,
    TableFull,
}

impl From<ParseError> for TreeError {
    ghost from_gives = { λ error e. e ≡ Refused error };

    fn from(error: ParseError) -> TreeError {
        TreeError::Refused(error)
    }
}

impl Refusal for TreeError {
    ghost meaning = { tree_refusal };

    // By a `match`, as ParseError's: two cases carry values, so `as` is refused.
    fn numbers(self) -> RefusalNumbers {
        match self {
            TreeError::Refused(error) => error.numbers(),
            TreeError::UnexpectedListEnd { pos } => RefusalNumbers::placed(12, pos),
            TreeError::TextTooLong => RefusalNumbers::unplaced(13),
            TreeError::TableFull => RefusalNumbers::unplaced(14),
        }
    }
}

// What parse_tree hands back: the record behind the node, and the number of nodes. The record stands beside the answer, since a refusal has one too.
#[derive(Clone, Copy, Debug, PartialEq, Eq)]
pub struct TreeRead {
    pub reader: Reader,
    pub answer: Result<usize, TreeError>,
}

// Reads the node that is due and counts its nodes. The record is left behind the node, or behind what is refused. Items are asked for until one ends the node:
// an iterator of them would give each as a Result and keep the record, which is wanted behind the loop: a struct, an impl and its three ghost parts for the
// two lines that begin this loop and that of fill_nodes. No plainer. The first item stands before the loop: inside the node a list is open, and so the reader
// is parsing, which the loop need not ask at each turn. The node ends where as many lists are open as before it.
pub(crate) fn count_nodes(text: &[u8], reader: &mut Reader) -> Result<usize, TreeError>
    ensures { DoesCount (read_node text.now reader.old) reader.new result }
{
    let lists = reader.lists;
    let first = reader.next_item(text);
    *reader = first.reader;
    match first.answer? {
        ParsedItem::Atom { .. } => return Ok(1),
        ParsedItem::ListStart { .. } => {}
        ParsedItem::ListEnd { pos } => return Err(TreeError::UnexpectedListEnd { pos }),
    }
    let mut nodes: usize = 1;
    loop {
        let inside = Reader {
            phase: Phase::Parsing,
            ..*reader
        };
        let next = inside.next_item(text);
        *reader = next.reader;
        match next.answer? {
            ParsedItem::Atom { .. } => nodes += 1,
            ParsedItem::ListStart { .. } => nodes += 1,
            ParsedItem::ListEnd { .. } => {
                if reader.lists == lists {
                    return Ok(nodes);
                }
            }
        }
    }
}

// The words of node `i`, for which the caller knows that there is room, become these. Word by word: a copy of all four asks at each node whether the four and
// the table share their memory.
fn put(table: &mut [u32], i: usize, node: NodeWords)
    requires { i < length table.old / 4 }
    ensures { table.new ≡ put_at table.old i node.kind node.first node.second node.span }
{
    table[4 * i] = node.kind;
    table[4 * i + 1] = node.first;
    table[4 * i + 2] = node.second;
    table[4 * i + 3] = node.span;
}

// The first word of the atom at `pos`, of `len` bytes.
fn kind_at(text: &[u8], pos: usize, len: usize) -> u32
    requires { pos ≤ length text.now }
    ensures { result ≡ kind_at text.now pos len }
{
    kind_number(check_atom_prefix(&text[pos..], len))
}

// An item that next_item gives, the record behind it, and the first word that its node gets: an atom's kind, and 0 of a list.
#[derive(Clone, Copy)]
struct Due {
    reader: Reader,
    item: ParsedItem,
    kind: u32,
}

// What item_ahead gives of it: a function of its own, as the record's `ahead` is, so that the memory which item_ahead writes is cleared here, and not at each turn
// of the loop.
#[inline(always)]
fn ahead_item(text: &[u8], reader: Reader) -> Option<Due>
    ensures { GivesDue text.now reader result }
{
    let next = item_ahead(reader.position, reader.phase, reader.lists, text);
    let Ok(item) = next.answer else {
        return None;
    };
    let kind = match item {
        ParsedItem::Atom { pos, len } => kind_at(text, pos, len),
        _ => 0,
    };
    Some(Due {
        reader: next.reader,
        item,
        kind,
    })
}

// The item that next_item gives, if it gives one. A run of atom characters is plain, and is not looked at again; the bytes of another atom are.
#[inline(always)]
fn due_item(text: &[u8], reader: Reader) -> Option<Due>
    ensures { GivesDue text.now reader result }
{
    match plain_item(text, reader) {
        Some(plain) => Some(Due {
            reader: plain.reader,
            item: plain.item,
            kind: 1,
        }),
        None => ahead_item(text, reader),
    }
}

// Where the filling stands: the index of the next node, and that of the innermost open list. Before the root, where none is open, both are 0: document 02 gives
// the root the distance 0, so the difference of the two is its third word, as it is any other list's. An Option would be asked at each node. The table is lent
// beside the mark, and is no field of it: a `&mut self` that holds a `&mut` has a before and an after twice, and the clauses would say of both what they say of
// the table.
#[derive(Clone, Copy)]
struct Mark {
    next: u32,
    parent: u32,
}

impl Mark {
    // The list `parent` has one child more, the node `next`, and counts it in its second word; the root is no child.
    fn count_child(self, table: &mut [u32])
        requires { CanAttach table.old self.parent self.next }
        ensures { Attaches table.old self.parent self.next table.new }
    {
        if self.next == self.parent {
            return;
        }
        let i = wide(self.parent);
        table[4 * i + 1] += 1;
    }

    // The list `parent` ends before the node `next`, and gets its fourth word. Its own parent, at the distance of its third word, is the innermost open list
    // then, and counts it.
    fn close_list(self, table: &mut [u32]) -> Mark
        requires { CanClose table.old self.next self.parent }
        ensures same { result.next ≡ self.next }
        ensures closes { Closes table.old self.next self.parent result.parent table.new }
    {
        let i = wide(self.parent);
        let parent = self.parent - words_of(table, i).second;
        table[4 * i + 3] = self.next - self.parent;
        // The closed list counts as a child where it stands itself.
        let list = Mark {
            next: self.parent,
            parent,
        };
        list.count_child(table);
        Mark { parent, ..self }
    }

    // An atom at `pos`, of `len` bytes, is written with its kind, and counted as a child.
    fn put_atom(self, table: &mut [u32], kind: u32, pos: usize, len: usize) -> Mark
        requires { CanPut table.old self kind pos len }
        ensures { Puts table.old self kind pos len result table.new }
    {
        let node = NodeWords {
            kind,
            first: pos as u32,
            second: len as u32,
            span: 1,
        };
        put(table, wide(self.next), node);
        self.count_child(table);
        Mark {
            next: self.next + 1,
            ..self
        }
    }

    // A list that begins is written, with the distance to its parent, which does not change.
    fn put_start(self, table: &mut [u32]) -> Mark
        requires { CanStart table.old self }
        ensures { Starts table.old self result table.new }
    {
        let node = NodeWords {
            kind: 0,
            first: 0,
            second: self.next - self.parent,
            span: 0,
        };
        put(table, wide(self.next), node);
        Mark {
            next: self.next + 1,
            parent: self.next,
        }
    }

    // The item that next_item gave is written, an atom with its kind.
    #[inline(always)]
    fn put_item(self, table: &mut [u32], item: ParsedItem, kind: u32) -> Mark
        requires { CanWrite table.old self item kind }
        ensures { Writes table.old self item kind result table.new }
    {
        match item {
            ParsedItem::Atom { pos, len } => self.put_atom(table, kind, pos, len),
            ParsedItem::ListStart { .. } => self.put_start(table),
            ParsedItem::ListEnd { .. } => self.close_list(table),
        }
    }
}

// Reads a node again, which is known to be one and to have room, and writes its words. Items are asked for, and the node ends, as in count_nodes. A function of
// its own for the compiler, too: inside its caller the loop would have to read the text's place and the table's from memory at each turn.
#[inline(never)]
pub(crate) fn fill_nodes(text: &[u8], reader: Reader, table: &mut [u32])
    requires { CanFill text.now reader table.old }
    ensures { DoesFill text.now reader table.old table.new }
{
    let Some(first) = due_item(text, reader) else {
        return;
    };
    let start = Mark { next: 0, parent: 0 };
    let mut mark = start.put_item(table, first.item, first.kind);
    let mut behind = first.reader;
    if behind.lists == reader.lists {
        return;
    }
    loop {
        let inside = Reader {
            phase: Phase::Parsing,
            ..behind
        };
        let Some(due) = due_item(text, inside) else {
            return;
        };
        behind = due.reader;
        mark = mark.put_item(table, due.item, due.kind);
        if behind.lists == reader.lists {
            return;
        }
    }
}

// Reads the node that is due, where the reader stands, into the table's first words. It serves in the middle of a list too.
pub fn parse_tree(text: &[u8], reader: Reader, table: &mut [u32]) -> TreeRead
    ensures { DoesParse (parse_tree text.now reader table.old) result table.new }
{
    if text.len() > LONGEST {
        return TreeRead {
            reader,
            answer: Err(TreeError::TextTooLong),
        };
    }
    let mut behind = reader;
    let answer = count_nodes(text, &mut behind);
    let Ok(nodes) = answer else {
        return TreeRead {
            reader: behind,
            answer,
        };
    };
    if nodes > table.len() / 4 {
        return TreeRead {
            reader,
            answer: Err(TreeError::TableFull),
        };
    }
    fill_nodes(text, reader, table);
    TreeRead {
        reader: behind,
        answer,
    }
}

// Every public call of sise_tree, under the contract that it has there and with a body that only calls it: the promises of the library on one page; with
// them what sise_parser says in numbers of the library's answers: `answer_number` of each, and of parse_tree's the place and the code point, by `map_or_else`.
// An edit of must-fail/ puts a wrong program in the place of a body, and the contract has to refuse it.
#![tactic(auto)]

ghost use Rattle.std.specs.Prelude.{◌≡◌, ◌<◌, ◌^◌};
ghost use Rattle.sise_parser.specs.Refusals.{refusal};
ghost use Rattle.sise_tree.specs.NodeWords.{node_words};
ghost use Rattle.sise_tree.specs.Decision.{decide};
ghost use Rattle.sise_tree.specs.Held.{held_as};
ghost use Rattle.sise_tree.specs.IndexPath.{index_path};
ghost use Rattle.sise_tree.specs.FindPath.{find_path, found_as, found_number};
ghost use Rattle.sise_tree.specs.declared.parse.TreeError.TheVariants.{Refused};
ghost use Rattle.sise_tree.specs.Answers.{indexed_as, path_refusal, parsed_as, tree_refusal, number_of, place_of, code_of};
ghost use Rattle.sise_tree.specs.ParseTree.{parse_tree, DoesParse};
ghost use Rattle.sise_tree.specs.ParseText.{parse_text, DoesParseText};

use sise_parser::{ParseError, Reader, Refusal, RefusalNumbers, answer_number};
use sise_tree::{Found, NodeWords, PathError, TableError, TreeError, TreeRead, TreeTable};

// ---- parse.rt

// Reads the node that is due, where the reader stands, into the table's first words.
pub fn parse_tree(text: &[u8], reader: Reader, table: &mut [u32]) -> TreeRead
    ensures { DoesParse (parse_tree text.now reader table.old) result table.new }
{
    sise_tree::parse_tree(text, reader, table)
}

// 01's number of an answer of parse_tree, 0 for a node.
pub fn number(answer: Result<usize, TreeError>) -> u32
    ensures { result ≡ number_of (parsed_as answer) }
{
    answer_number(answer)
}

// Its place, 0 where there is none.
pub fn place(answer: Result<usize, TreeError>) -> usize
    ensures { result ≡ place_of (parsed_as answer) }
{
    answer.map_or_else(|error| error.place(), |_| 0)
}

// Its code point, 0 where there is none.
pub fn code(answer: Result<usize, TreeError>) -> u32
    ensures { result ≡ code_of (parsed_as answer) }
{
    answer.map_or_else(|error| error.code(), |_| 0)
}

// The three numbers of a refusal of parse_tree or parse_text.
pub fn tree_numbers(error: TreeError) -> RefusalNumbers
    ensures { refusal result.number result.place result.code ≡ tree_refusal error }
{
    error.numbers()
}

// ---- whole.rt

// Reads a text that is one node and nothing behind it into the table's first words.
pub fn parse_text(text: &[u8], table: &mut [u32]) -> Result<usize, TreeError>
    ensures { DoesParseText (parse_text text.now table.old) result table.new }
{
    sise_tree::parse_text(text, table)
}

// ---- tree.rt

// Node `i`'s words, where the table has them all.
pub fn node(tree: TreeTable<'_>, i: usize) -> Option<NodeWords>
    ensures { result ≡ node_words tree.entry.table.now i }
{
    tree.node(i)
}

// The node at the end of the path: its index in the table.
pub fn index_path(tree: TreeTable<'_>, path: &[u64]) -> Result<usize, PathError>
    ensures { indexed_as result ≡ index_path tree.entry.table.now tree.entry.text.now path.now }
{
    tree.index_path(path)
}

// 01's number of an answer of index_path, 0 for a node.
pub fn indexed_number(indexed: Result<usize, PathError>) -> u32
    ensures { result ≡ number_of (indexed_as indexed) }
{
    answer_number(indexed)
}

// Whether the table holds a tree of atoms over the text, or why not.
pub fn holds_tree(tree: TreeTable<'_>) -> Result<(), TableError>
    ensures { result ≡ held_as tree.entry.text.now (decide tree.entry.text.now tree.entry.table.now) }
{
    tree.holds_tree()
}

// A word of a table as an index.
pub fn wide(x: u32) -> usize
    ensures same { result ≡ x }
    ensures small { result < 2 ^ 32 }
{
    sise_tree::wide(x)
}

// ---- find.rt

// The node at the end of the path, where only the nodes on the way are read: its index in the table, and the number of nodes looked at.
pub fn find_path(tree: TreeTable<'_>, path: &[u64]) -> Result<Found, PathError>
    ensures { found_as result ≡ find_path tree.entry.table.now tree.entry.text.now path.now }
{
    tree.find_path(path)
}

// 01's number of an answer of find_path, 0 for a node.
pub fn found_number(found: Result<Found, PathError>) -> u32
    ensures { result ≡ found_number (found_as found) }
{
    answer_number(found)
}

// The place and the code point of a refusal of the two: it has none.
pub fn path_place(refused: PathError) -> usize
    ensures { result ≡ (path_refusal refused).place }
{
    refused.place()
}

pub fn path_code(refused: PathError) -> u32
    ensures { result ≡ (path_refusal refused).code }
{
    refused.code()
}

// The three numbers together.
pub fn path_numbers(refused: PathError) -> RefusalNumbers
    ensures { refusal result.number result.place result.code ≡ path_refusal refused }
{
    refused.numbers()
}

// A refusal of the reader, as one of the tree calls.
pub fn from_reader(refused: ParseError) -> TreeError
    ensures { result ≡ Refused refused }
{
    TreeError::from(refused)
}

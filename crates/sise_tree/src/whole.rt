// Whole texts, read into a lent table.
ghost use Rattle.sise_tree.specs.ParseText.{parse_text, DoesParseText};

use crate::parse::{TreeError, count_nodes, fill_nodes};
use crate::tree::LONGEST;
use sise_parser::Reader;

// Reads a text that is one node and nothing behind it into the table's first words, and answers the number of nodes. Unlike parse_tree it looks at what
// follows the node, and before it asks whether the table has room. The two end alike, by the test of the room and the filling: a function of that would
// be no plainer, since parse_tree would test its answer again to choose the record that it hands back.
pub fn parse_text(text: &[u8], table: &mut [u32]) -> Result<usize, TreeError>
    ensures { DoesParseText (parse_text text.now table.old) result table.new }
{
    if text.len() > LONGEST {
        return Err(TreeError::TextTooLong);
    }
    let mut behind = Reader::new();
    let nodes = count_nodes(text, &mut behind)?;
    behind.finish(text)?;
    if nodes > table.len() / 4 {
        return Err(TreeError::TableFull);
    }
    fill_nodes(text, Reader::new(), table);
    Ok(nodes)
}

// The bytes of a tree whose calls are known to fit. No plan is asked for: it would look for room once more, and in one comparison that wrote at 1.21 to 1.25 of
// the crate's speed where this wrote at 1.32 to 1.40 (docs/DECISIONS.md, "Measured, then written"). Each step asks for room for a piece of its own (`Room`),
// which is no fact of a value that a type could hold. Nor is there a struct of `w` and `buf` with a `&mut self`: it would hold a sound record, so that each of
// the five steps had to show that its own is sound; now the loop does, once.
ghost use Rattle.std.specs.Prelude.{◌≡◌, true, ◌<◌};
ghost use Rattle.sise_serializer.specs.Serializer.{style_of, new_line, inner_as, close_as};
ghost use Rattle.sise_serializer.specs.Calls.{end_list_call};
ghost use Rattle.sise_serializer.specs.Parts.{first_item, in_line};
ghost use Rattle.sise_tree_writer.specs.Planning.{Room, WritesPiece, CanPut, Puts, CanMake, Makes};
ghost use Rattle.sise_tree_writer.specs.Walking.{GoodTurn, turn_call, Writable, WritesNodes};

use crate::walk::{Turn, Walk};
use crate::writing::Writing;
use sise_serializer::{
    Phase, Serializer, SerializerStyle, SoundSerializer, paste, paste_line, write_gap,
};

// The first item of a text. It is `token` and `is_list` here and below, as in the definition and behind_first, and no Turn: a Turn may be an end.
#[inline(always)]
fn write_first(w: SoundSerializer, buf: &mut [u8], token: &[u8], is_list: bool) -> Serializer
    requires { Room w.serializer (first_item w.serializer token.now is_list) buf.old }
    ensures { WritesPiece w.serializer (first_item w.serializer token.now is_list) buf.old result buf.new }
{
    let at = w.serializer.position;
    paste(buf, at, token);
    w.behind_first(at + token.len(), token.len(), is_list)
}

// An item on a new line.
#[inline(always)]
fn write_on_new_line(
    w: SoundSerializer,
    style: SerializerStyle<'_>,
    buf: &mut [u8],
    token: &[u8],
    is_list: bool,
) -> Serializer
    requires { Room w.serializer (inner_as (style_of style) w.serializer token.now is_list new_line) buf.old }
    ensures { WritesPiece w.serializer (inner_as (style_of style.entry) w.serializer token.now is_list new_line) buf.old result buf.new }
{
    let position = w.serializer.position;
    let lists = w.serializer.lists;
    paste_line(buf, position, style, lists);
    let indent = lists * style.indentation.len();
    let at = position + style.line_break.len() + indent;
    paste(buf, at, token);
    w.behind_new_line(at + token.len(), indent + token.len(), is_list)
}

// An item in the same line.
#[inline(always)]
fn write_in_line(w: SoundSerializer, buf: &mut [u8], token: &[u8], is_list: bool) -> Serializer
    requires { Room w.serializer (in_line w.serializer token.now is_list) buf.old }
    ensures { WritesPiece w.serializer (in_line w.serializer token.now is_list) buf.old result buf.new }
{
    let position = w.serializer.position;
    let joins = w.serializer.list_beginning;
    let lead = usize::from(!joins);
    write_gap(buf, position, joins);
    paste(buf, position + lead, token);
    let line = w.serializer.line_len + lead + token.len();
    w.behind_in_line(position + lead + token.len(), line, is_list)
}

// A list's `(`, or an atom that was checked.
#[inline(always)]
fn write_item(
    w: SoundSerializer,
    style: SerializerStyle<'_>,
    buf: &mut [u8],
    token: &[u8],
    is_list: bool,
    break_line_at: u64,
) -> Serializer
    requires { CanPut (style_of style) w.serializer token.now is_list break_line_at buf.old }
    ensures { Puts (style_of style.entry) w.serializer token.now is_list break_line_at buf.old result buf.new }
{
    if let Phase::Beginning = w.serializer.phase {
        return write_first(w, buf, token, is_list);
    }
    if break_line_at <= w.serializer.line_len as u64 {
        return write_on_new_line(w, style, buf, token, is_list);
    }
    write_in_line(w, buf, token, is_list)
}

// A `)` on a line of its own. The line begins as in write_on_new_line: a function for the three lines in common would have to answer two numbers, `at` and
// `indent`, and to promise both beside the bytes.
fn end_on_new_line(w: SoundSerializer, style: SerializerStyle<'_>, buf: &mut [u8]) -> Serializer
    requires lists { 0 < w.serializer.lists }
    requires broken { w.serializer.broken ≡ w.serializer.lists }
    requires room { Room w.serializer (close_as (style_of style) w.serializer true) buf.old }
    ensures { WritesPiece w.serializer (close_as (style_of style.entry) w.serializer true) buf.old result buf.new }
{
    let position = w.serializer.position;
    let left = w.serializer.lists - 1;
    paste_line(buf, position, style, left);
    let indent = left * style.indentation.len();
    let at = position + style.line_break.len() + indent;
    buf[at] = b')';
    w.behind_end_on_new_line(at + 1, indent + 1)
}

// The `)` of the innermost list.
fn write_end(w: SoundSerializer, style: SerializerStyle<'_>, buf: &mut [u8]) -> Serializer
    requires { CanMake end_list_call (style_of style) w.serializer buf.old }
    ensures { Makes end_list_call (style_of style.entry) w.serializer buf.old result buf.new }
{
    if w.serializer.broken == w.serializer.lists {
        return end_on_new_line(w, style, buf);
    }
    let at = w.serializer.position;
    buf[at] = b')';
    w.behind_end_in_line(at + 1)
}

impl Writing<'_> {
    // One turn, whose call is known to fit.
    #[inline(always)]
    fn write_turn(self, w: SoundSerializer, buf: &mut [u8], turn: Turn<'_>) -> Serializer
        requires good { GoodTurn turn }
        requires accepted { CanMake (turn_call turn self.break_line_at) (style_of self.style) w.serializer buf.old }
        ensures { Makes (turn_call turn.entry self.entry.break_line_at) (style_of self.entry.style) w.serializer buf.old result buf.new }
    {
        let style = self.style;
        match turn {
            Turn::End => write_end(w, style, buf),
            Turn::List => write_item(w, style, buf, b"(", true, self.break_line_at),
            Turn::Atom { bytes, begins } => {
                write_item(w, style, buf, bytes, false, self.threshold(begins))
            }
        }
    }

    // Writes the tree's calls, and answers where they end. A loop of its own beside measure_nodes: one loop with an argument that says whether it writes was
    // built, and wrote at 0.74 to 0.79 of the speed of two (docs/DECISIONS.md, "Measured, then written").
    pub(crate) fn write_nodes(self, serializer: Serializer, buf: &mut [u8]) -> usize
        requires { Writable (style_of self.style) buf.old serializer self.tree.text.now self.tree.table.now self.break_line_at }
        ensures { WritesNodes (style_of self.entry.style) buf.old serializer self.entry.tree.text.now self.entry.tree.table.now self.entry.break_line_at result buf.new }
    {
        let mut w = serializer.by_fields();
        for turn in Walk::new(self.tree) {
            let sound = SoundSerializer { serializer: w };
            w = self.write_turn(sound, buf, turn).by_fields();
        }
        w.position
    }
}

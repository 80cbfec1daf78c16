// A call planned in a buffer of so many bytes, with none written: the record behind it, and where its bytes go.
ghost use Rattle.std.specs.Prelude.{◌≡◌, true, false, [], ◌∷◌, ◌+◌, ◌*◌, ◌<◌, length};
ghost use Rattle.sise_serializer.specs.Serializer.{style_of, new_line, inner_as, close_as, last};
ghost use Rattle.sise_serializer.specs.Calls.{end_list_call, finish_call};
ghost use Rattle.sise_serializer.specs.Parts.{first_item, in_line, spot_or_full};
ghost use Rattle.sise_serializer.specs.Plan.{layout_bytes, PlansCall, PlansPiece, PlansPieces, PlansItem};

use crate::buffer::{SerializerStyle, Spot, find_spot};
use crate::serializer::{Phase, Placed, Serializer, WriteError};
use crate::sound_serializer::SoundSerializer;

// What stands before a token: nothing, a space, or a line break and so many indentations. An enum of its own: an Option has two cases, and not three.
#[derive(Clone, Copy, Debug, PartialEq, Eq)]
pub enum Layout {
    Nothing,
    Space,
    Line(usize),
}

// A call that has room: what it leaves, and the layout before its token.
#[derive(Clone, Copy, Debug, PartialEq, Eq)]
pub struct Planned {
    pub placed: Placed,
    pub layout: Layout,
}

impl Layout {
    // Its bytes before the indentations, and how many of those.
    #[inline(always)]
    fn lead_and_times(self, style: SerializerStyle<'_>) -> (usize, usize)
        ensures { result.0 + result.1 * length style.entry.indentation.now ≡ length (layout_bytes (style_of style.entry) self) }
    {
        match self {
            Layout::Nothing => (0, 0),
            Layout::Space => (1, 0),
            Layout::Line(times) => (style.line_break.len(), times),
        }
    }
}

impl Planned {
    #[inline(always)]
    fn new(serializer: Serializer, offset: usize, layout: Layout) -> Planned
        ensures { result ≡ record { placed = record { serializer = serializer; offset = offset }; layout = layout } }
    {
        Planned {
            placed: Placed { serializer, offset },
            layout,
        }
    }
}

// The six functions that `plan_item`, `plan_end` and `plan_finish` choose from take the same steps: a layout, the spot, the record behind it. They stay six:
// each is a case of the definition (`first_item`, `inner_as`, `in_line`, `close_as`, `last`). A function that took the record behind as a closure of the
// spot's end would need what `find` promises of the spot as the closure's `requires`: without it the sums for the length of a line may wrap. `style` and
// `room` are no struct: it would be made at each of the eight calls of `plan_item`, `plan_end` and `plan_finish`, and taken apart by `find` at once. An item is planned by `len` and `is_list`, and not by its token: the walk
// that measures a tree goes by lengths, and writes no token. A phase that is over is an arm of each `match`, as in the definitions, and not asked for by
// `is_over`.
impl SoundSerializer {
    // The spot of a token of `len` bytes behind its layout, from the writer's position on.
    #[inline(always)]
    fn find(
        self,
        style: SerializerStyle<'_>,
        room: usize,
        layout: Layout,
        len: usize,
    ) -> Result<Spot, WriteError>
        ensures { result ≡ spot_or_full room self.serializer.position (length (layout_bytes (style_of style.entry) layout)) len }
    {
        let position = self.serializer.position;
        let (lead, times) = layout.lead_and_times(style);
        find_spot(position, room, lead, times, style.indentation.len(), len).ok_or(
            WriteError::NoRoom,
        )
    }

    // An item whose token has `len` bytes: begin_list, or put_atom of what is an atom. In a list it goes on a new line if the line is at least `break_line_at`
    // bytes long.
    #[inline(always)]
    pub fn plan_item(
        self,
        style: SerializerStyle<'_>,
        room: usize,
        len: usize,
        is_list: bool,
        break_line_at: u64,
    ) -> Result<Planned, WriteError>
        ensures { PlansItem (style_of style.entry) room self.serializer len is_list break_line_at result }
    {
        match self.serializer.phase {
            Phase::Beginning => self.plan_first(style, room, len, is_list),
            Phase::Writing if break_line_at <= self.serializer.line_len as u64 => {
                self.plan_on_new_line(style, room, len, is_list)
            }
            Phase::Writing => self.plan_in_line(style, room, len, is_list),
            Phase::Finished | Phase::Done => Err(WriteError::WritingFinished),
        }
    }

    // The first item of the text.
    #[inline(always)]
    fn plan_first(
        self,
        style: SerializerStyle<'_>,
        room: usize,
        len: usize,
        is_list: bool,
    ) -> Result<Planned, WriteError>
        ensures { PlansPieces (style_of style.entry) room self.serializer len (λ token. first_item self.serializer token is_list) result }
    {
        let layout = Layout::Nothing;
        let spot = self.find(style, room, layout, len)?;
        let serializer = self.behind_first(spot.end, len, is_list);
        Ok(Planned::new(serializer, spot.at, layout))
    }

    // An item on a new line.
    #[inline(always)]
    fn plan_on_new_line(
        self,
        style: SerializerStyle<'_>,
        room: usize,
        len: usize,
        is_list: bool,
    ) -> Result<Planned, WriteError>
        ensures { PlansPieces (style_of style.entry) room self.serializer len (λ token. inner_as (style_of style.entry) self.serializer token is_list new_line) result }
    {
        let lists = self.serializer.lists;
        let layout = Layout::Line(lists);
        let spot = self.find(style, room, layout, len)?;
        let line_len = lists * style.indentation.len() + len;
        let serializer = self.behind_new_line(spot.end, line_len, is_list);
        Ok(Planned::new(serializer, spot.at, layout))
    }

    // An item in the same line, behind a space unless it is the first of its list.
    #[inline(always)]
    fn plan_in_line(
        self,
        style: SerializerStyle<'_>,
        room: usize,
        len: usize,
        is_list: bool,
    ) -> Result<Planned, WriteError>
        ensures { PlansPieces (style_of style.entry) room self.serializer len (λ token. in_line self.serializer token is_list) result }
    {
        let w = self.serializer;
        let layout = if w.list_beginning {
            Layout::Nothing
        } else {
            Layout::Space
        };
        let spot = self.find(style, room, layout, len)?;
        let line_len = w.line_len + (spot.end - w.position);
        let serializer = self.behind_in_line(spot.end, line_len, is_list);
        Ok(Planned::new(serializer, spot.at, layout))
    }

    // The end of the innermost list.
    #[inline(always)]
    pub fn plan_end(self, style: SerializerStyle<'_>, room: usize) -> Result<Planned, WriteError>
        ensures { PlansCall (style_of style.entry) room self.serializer (41 ∷ []) end_list_call result }
    {
        match self.serializer.phase {
            Phase::Beginning => Err(WriteError::NoListToEnd),
            Phase::Writing if self.serializer.broken == self.serializer.lists => {
                self.plan_end_on_new_line(style, room)
            }
            Phase::Writing => self.plan_end_in_line(style, room),
            Phase::Finished | Phase::Done => Err(WriteError::WritingFinished),
        }
    }

    // A `)` on a line of its own, since a break is in its list.
    #[inline(always)]
    fn plan_end_on_new_line(
        self,
        style: SerializerStyle<'_>,
        room: usize,
    ) -> Result<Planned, WriteError>
        requires open { 0 < self.serializer.lists }
        requires broken { self.serializer.broken ≡ self.serializer.lists }
        ensures { PlansPiece (style_of style.entry) room self.serializer (41 ∷ []) (close_as (style_of style.entry) self.serializer true) result }
    {
        let left = self.serializer.lists - 1;
        let layout = Layout::Line(left);
        let spot = self.find(style, room, layout, 1)?;
        let line_len = left * style.indentation.len() + 1;
        let serializer = self.behind_end_on_new_line(spot.end, line_len);
        Ok(Planned::new(serializer, spot.at, layout))
    }

    // A `)` in the same line.
    #[inline(always)]
    fn plan_end_in_line(
        self,
        style: SerializerStyle<'_>,
        room: usize,
    ) -> Result<Planned, WriteError>
        requires { self.serializer.broken < self.serializer.lists }
        ensures { PlansPiece (style_of style.entry) room self.serializer (41 ∷ []) (close_as (style_of style.entry) self.serializer false) result }
    {
        let layout = Layout::Nothing;
        let spot = self.find(style, room, layout, 1)?;
        let serializer = self.behind_end_in_line(spot.end);
        Ok(Planned::new(serializer, spot.at, layout))
    }

    // The end of the text, with a line break if wished. The indentation is unused: every call takes the same style.
    #[inline(always)]
    pub fn plan_finish(
        self,
        style: SerializerStyle<'_>,
        room: usize,
        insert_line_break: bool,
    ) -> Result<Planned, WriteError>
        ensures { PlansCall (style_of style.entry) room self.serializer [] (finish_call insert_line_break) result }
    {
        match self.serializer.phase {
            Phase::Beginning | Phase::Writing => Err(WriteError::WritingNotFinished),
            Phase::Finished => self.plan_last(style, room, insert_line_break),
            Phase::Done => Err(WriteError::WritingFinished),
        }
    }

    // The same of a text whose last item is written.
    #[inline(always)]
    fn plan_last(
        self,
        style: SerializerStyle<'_>,
        room: usize,
        insert_line_break: bool,
    ) -> Result<Planned, WriteError>
        ensures { PlansPiece (style_of style.entry) room self.serializer [] (last (style_of style.entry) self.serializer insert_line_break) result }
    {
        let layout = if insert_line_break {
            Layout::Line(0)
        } else {
            Layout::Nothing
        };
        let spot = self.find(style, room, layout, 0)?;
        let serializer = self.behind_finish(spot.end, insert_line_break);
        Ok(Planned::new(serializer, spot.at, layout))
    }
}

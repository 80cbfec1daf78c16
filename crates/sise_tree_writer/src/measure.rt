// What the calls of a tree come to in a buffer of so many bytes, with no byte written.
ghost use Rattle.std.specs.Prelude.{◌≡◌};
ghost use Rattle.sise_serializer.specs.Serializer.{style_of};
ghost use Rattle.sise_tree_writer.specs.Planning.{behind_of, Plans, Starts};
ghost use Rattle.sise_tree_writer.specs.Walking.{GoodTurn, turn_call, Walkable, Walks};

use crate::serialize::WriteTreeError;
use crate::walk::{Turn, Walk};
use crate::writing::Writing;
use sise_serializer::{Placed, Planned, Serializer, SerializerStyle, SoundSerializer, WriteError};

// The offset that a walk answers: where its first item's token begins, which does not depend on the token, so an item of no bytes is planned. It is asked for
// when all calls have been planned; where it is refused, each item is, and no walk comes here. Kept in the loop, the offset would be an Option that every turn
// looks at and the first one sets: no plainer, and a twentieth slower on deep trees (docs/DECISIONS.md).
fn first_offset(
    w: SoundSerializer,
    style: SerializerStyle<'_>,
    room: usize,
    break_line_at: u64,
) -> usize
    ensures { Starts (style_of style.entry) room w.serializer break_line_at result }
{
    match w.plan_item(style, room, 0, false, break_line_at) {
        Ok(planned) => planned.placed.offset,
        Err(_) => w.serializer.position,
    }
}

// The record behind a call that was planned, if it has room: a walk's call is refused for lack of room alone. No From: two of the planner's refusals,
// NoListToEnd and WritingNotFinished, have no case in WriteTreeError that it could give.
#[inline(always)]
pub(crate) fn behind(planned: Result<Planned, WriteError>) -> Result<Serializer, WriteTreeError>
    ensures { result ≡ behind_of planned }
{
    planned
        .map(|planned| planned.placed.serializer)
        .map_err(|_| WriteTreeError::NoRoom)
}

impl Writing<'_> {
    // One turn, whose call is planned in a buffer of `room` bytes. A match like that of write_turn, whose arms do something else: an atom is planned by its
    // length, and written by its bytes.
    #[inline(always)]
    fn plan_turn(
        self,
        w: SoundSerializer,
        room: usize,
        turn: Turn<'_>,
    ) -> Result<Serializer, WriteTreeError>
        requires { GoodTurn turn }
        ensures { Plans (turn_call turn.entry self.entry.break_line_at) (style_of self.entry.style) room w.serializer result }
    {
        let style = self.style;
        match turn {
            Turn::End => behind(w.plan_end(style, room)),
            Turn::List => behind(w.plan_item(style, room, 1, true, self.break_line_at)),
            Turn::Atom { bytes, begins } => {
                let line = self.threshold(begins);
                behind(w.plan_item(style, room, bytes.len(), false, line))
            }
        }
    }

    // Plans the tree's calls in a buffer of `room` bytes, up to the first that does not fit.
    pub(crate) fn measure_nodes(
        self,
        serializer: Serializer,
        room: usize,
    ) -> Result<Placed, WriteTreeError>
        requires { Walkable serializer self.tree.text.now self.tree.table.now }
        ensures { Walks (style_of self.entry.style) room serializer self.entry.tree.text.now self.entry.tree.table.now self.entry.break_line_at result }
    {
        let mut w = serializer.by_fields();
        for turn in Walk::new(self.tree) {
            let sound = SoundSerializer { serializer: w };
            w = self.plan_turn(sound, room, turn)?.by_fields();
        }
        let sound = SoundSerializer { serializer };
        let offset = first_offset(sound, self.style, room, self.break_line_at);
        Ok(Placed {
            serializer: w,
            offset,
        })
    }
}

// One writing of a tree, with or without a finish behind it: measured, written and committed. Whether all of it fits is known before a byte is written, so that
// a refusal leaves the buffer: one walk plans the calls, and another one writes them.
ghost use Rattle.std.specs.Prelude.{◌≡◌};
ghost use Rattle.sise_serializer.specs.Parts.{wrote_of};
ghost use Rattle.sise_tree_writer.specs.SerializeTree.{DoesWrite};
ghost use Rattle.sise_tree_writer.specs.Writing.{IsWritten, writes, tree_alone, PlansWriting, line_of};
ghost use Rattle.sise_tree_writer.specs.Sizes.{MeasuresWriting, CommitsWriting};

use crate::measure::behind;
use crate::serialize::WriteTreeError;
use crate::size::{TreeSize, is_size, size_between};
use sise_serializer::{Placed, Serializer, SerializerStyle, SoundSerializer, paste};
use sise_tree::{LONGEST, TreeTable};

// What is written: the tree that a table holds, in a style and at a threshold, and a finish behind it, with a line break or without, or none. `finish` is None,
// or Some of a public call's `final_break`: an enum of three would be made of that bool and turned back into it for plan_finish and final_break.
#[derive(Clone, Copy)]
pub(crate) struct Writing<'a> {
    pub(crate) style: SerializerStyle<'a>,
    pub(crate) tree: TreeTable<'a>,
    pub(crate) break_line_at: u64,
    pub(crate) finish: Option<bool>,
}

impl<'a> Writing<'a> {
    pub(crate) fn new(
        style: SerializerStyle<'a>,
        tree: TreeTable<'a>,
        break_line_at: u64,
        finish: Option<bool>,
    ) -> Writing<'a>
        ensures { result ≡ record { style = style.entry; tree = tree.entry; break_line_at = break_line_at; finish = finish } }
    {
        Writing {
            style,
            tree,
            break_line_at,
            finish,
        }
    }

    // The threshold of an atom, which at the beginning of a list is the largest: no line is that long.
    #[inline(always)]
    pub(crate) fn threshold(self, begins: bool) -> u64
        ensures { result ≡ line_of self.entry begins }
    {
        if begins { u64::MAX } else { self.break_line_at }
    }

    // What the tree comes to in a buffer of `room` bytes. Nothing is written.
    fn plan_tree(self, serializer: Serializer, room: usize) -> Result<Placed, WriteTreeError>
        ensures { PlansWriting (tree_alone self.entry) room serializer (wrote_of serializer result) }
    {
        if self.tree.text.len() > LONGEST {
            return Err(WriteTreeError::TextTooLong);
        }
        if !serializer.is_sound() {
            return Err(WriteTreeError::UnsoundRecord);
        }
        self.tree.holds_tree()?;
        if serializer.phase.is_over() {
            return Err(WriteTreeError::WritingFinished);
        }
        self.measure_nodes(serializer, room)
    }

    // What the tree and the finish come to.
    fn plan(self, serializer: Serializer, room: usize) -> Result<Placed, WriteTreeError>
        ensures { PlansWriting self.entry room serializer (wrote_of serializer result) }
    {
        let nodes = self.plan_tree(serializer, room)?;
        let Some(final_break) = self.finish else {
            return Ok(nodes);
        };
        let sound = SoundSerializer {
            serializer: nodes.serializer,
        };
        let last = behind(sound.plan_finish(self.style, room, final_break))?;
        Ok(Placed {
            serializer: last,
            ..nodes
        })
    }

    // The size of what would be written in a buffer of `room` bytes, or the refusal. Nothing is written.
    pub(crate) fn measure(
        self,
        serializer: Serializer,
        room: usize,
    ) -> Result<TreeSize, WriteTreeError>
        ensures { MeasuresWriting self.entry room serializer result }
    {
        let planned = self.plan(serializer, room)?;
        Ok(size_between(serializer, planned.serializer))
    }

    // The bytes of what is known to fit.
    fn put(self, serializer: Serializer, buf: &mut [u8])
        requires { IsWritten (writes self buf.old serializer) }
        ensures { buf.new ≡ (writes self.entry buf.old serializer).buffer }
    {
        let end = self.write_nodes(serializer, buf);
        if let Some(final_break) = self.finish {
            paste(buf, end, self.style.final_break(final_break));
        }
    }

    // Writes it, if it fits.
    pub(crate) fn write(
        self,
        serializer: Serializer,
        buf: &mut [u8],
    ) -> Result<Placed, WriteTreeError>
        ensures { DoesWrite (writes self.entry buf.old serializer) (wrote_of serializer result) buf.new }
    {
        let planned = self.plan(serializer, buf.len())?;
        self.put(serializer, buf);
        Ok(planned)
    }

    // Writes it, if `measured` is still its size.
    pub(crate) fn commit(
        self,
        serializer: Serializer,
        buf: &mut [u8],
        measured: Result<TreeSize, WriteTreeError>,
    ) -> Result<Placed, WriteTreeError>
        ensures { CommitsWriting self.entry buf.old serializer measured (wrote_of serializer result) buf.new }
    {
        let planned = self.plan(serializer, buf.len())?;
        if !is_size(measured, serializer, planned.serializer) {
            return Err(WriteTreeError::SizeChanged);
        }
        self.put(serializer, buf);
        Ok(planned)
    }
}

// The writer's record and its four calls. Each method goes on to `make_call`, which tests the record and runs the function below that wants a sound one; that
// one plans the call, and writes only what has room. Those, the plans and the records behind their steps are made part of their callers, so that no record goes
// through memory between them.
ghost use Rattle.std.specs.Prelude.{◌≡◌, false, ◌+◌, ◌≤◌, ◌++◌, length, MatchOption};
ghost use Rattle.sise_serializer.specs.Bytes.{pasted};
ghost use Rattle.sise_serializer.specs.Plan.{layout_bytes};
ghost use Rattle.sise_serializer.specs.Serializer.{fresh_serializer, style_of, lists_fit, last_break, is_sound, write_refusal, phase_after};
ghost use Rattle.sise_serializer.specs.Calls.{Does, put_atom_call, begin_list_call, end_list_call, finish_call};
ghost use Rattle.sise_serializer.specs.Parts.{wrote_of, Makes, PutsItem};
ghost use Rattle.sise_serializer.specs.Phases.{is_over, DecodesPhase};

use crate::buffer::{LIMIT, SerializerStyle, write_layout};
use crate::calls::Call;
use crate::plan::Planned;
use crate::sound_serializer::SoundSerializer;
use crate::token::{Atom, ListEnd, ListStart, NoBytes, Token};
use sise_parser::{Refusal, RefusalNumbers, UnknownPhase};
use sise_util::check_atom;

// Where the writer is: before the first item, inside the outermost list, after the last item, or after an accepted finish.
#[derive(Clone, Copy, Debug, PartialEq, Eq)]
pub enum Phase {
    Beginning = 0,
    Writing = 1,
    Finished = 2,
    Done = 3,
}

impl Phase {
    // Whether no item may follow.
    pub fn is_over(self) -> bool
        ensures { result ≡ is_over self }
    {
        matches!(self, Phase::Finished | Phase::Done)
    }
}

// The phase with a number, by a `match`, as the reader's phases are made of theirs: other names and numbers.
impl TryFrom<u64> for Phase {
    type Error = UnknownPhase;

    ghost try_from_gives = { DecodesPhase };

    fn try_from(word: u64) -> Result<Phase, UnknownPhase> {
        match word {
            0 => Ok(Phase::Beginning),
            1 => Ok(Phase::Writing),
            2 => Ok(Phase::Finished),
            3 => Ok(Phase::Done),
            _ => Err(UnknownPhase(word)),
        }
    }
}

// The writer's record, which each call takes and hands back. The two small fields come last, so that few bytes are unused.
#[derive(Clone, Copy, Debug, PartialEq, Eq)]
pub struct Serializer {
    pub position: usize,
    // How many lists are open, and how many of them, from the outermost, have a line break in them.
    pub lists: usize,
    pub broken: usize,
    pub line_len: usize,
    // What layout has been written: spaces, line breaks and indentations.
    pub spaces: usize,
    pub breaks: usize,
    pub indents: usize,
    pub phase: Phase,
    pub list_beginning: bool,
}

// Why a call is refused, by document 01's numbers.
#[derive(Clone, Copy, Debug, PartialEq, Eq)]
pub enum WriteError {
    UnsoundRecord = 11,
    InvalidAtom = 17,
    NoListToEnd = 18,
    WritingFinished = 19,
    WritingNotFinished = 20,
    NoRoom = 22,
}

// What a call hands back: the record, and the offset of what it wrote or why it is refused. It is no Result, since document 01 names this form: methods that
// hand back record and answer.
#[derive(Clone, Copy, Debug, PartialEq, Eq)]
pub struct Wrote<E = WriteError> {
    pub serializer: Serializer,
    pub answer: Result<usize, E>,
}

// What an accepted call leaves: the record after it, and the offset of what it wrote.
#[derive(Clone, Copy, Debug, PartialEq, Eq)]
pub struct Placed {
    pub serializer: Serializer,
    pub offset: usize,
}

// `as` wants the enum itself: the same line stands in PathError of sise_tree and in WriteTreeError of sise_tree_writer.
impl Refusal for WriteError {
    ghost meaning = { write_refusal };

    fn numbers(self) -> RefusalNumbers {
        RefusalNumbers::unplaced(self as u32)
    }
}

// Whether so many lists may be open in a phase: one at least exactly while writing. The reader's is another function: its phases are other ones.
fn lists_fit(phase: Phase, lists: usize) -> bool
    ensures { result ≡ lists_fit phase lists }
{
    (phase == Phase::Writing) == (1 <= lists)
}

// finish's line break is counted too, and may be an empty string, so there may be one break more than bytes.
fn last_break(phase: Phase) -> usize
    ensures { result ≡ last_break phase }
{
    usize::from(phase == Phase::Done)
}

impl Serializer {
    // A writer before the first item, at the start of its buffer.
    pub fn new() -> Serializer
        ensures { result ≡ fresh_serializer }
    {
        Serializer {
            position: 0,
            lists: 0,
            broken: 0,
            line_len: 0,
            spaces: 0,
            breaks: 0,
            indents: 0,
            phase: Phase::Beginning,
            list_beginning: false,
        }
    }

    // Whether the counts lie in the bounds that every call keeps, so that no sum of a call wraps.
    #[tactic(auto, unfolding(crate::specs::Serializer::is_sound))]
    pub fn is_sound(self) -> bool
        ensures { result ≡ is_sound self }
    {
        let position = self.position;
        position <= LIMIT
            && self.line_len <= position
            && self.lists <= position
            && self.broken <= self.lists
            && lists_fit(self.phase, self.lists)
            && self.spaces <= position
            && self.breaks <= position + last_break(self.phase)
            && self.indents <= position * (position + 1)
    }

    // The record as a sound one, if it is. By `then` it is no plainer: the closure would have to repeat the test as its `requires`.
    pub fn sound(self) -> Option<SoundSerializer>
        ensures { MatchOption result (is_sound self ≡ false) (λ w. w.serializer ≡ self) }
    {
        if self.is_sound() {
            return Some(SoundSerializer { serializer: self });
        }
        None
    }

    // The same record: `..self` copies the other fields one by one, and so leaves out the unused bytes behind the last. A copy of the whole has them too, and a
    // loop then keeps them in memory: a list of calls ran at 0.93 so, and at 1.17 times the crate's speed by fields (docs/DECISIONS.md).
    #[inline(always)]
    pub fn by_fields(self) -> Serializer
        ensures { result ≡ self }
    {
        Serializer {
            position: self.position,
            ..self
        }
    }

    // What a call on this record hands back. A refusal leaves the record.
    pub fn wrote<E: Copy>(self, placed: Result<Placed, E>) -> Wrote<E>
        ensures { result ≡ wrote_of self placed }
    {
        match placed {
            Ok(placed) => Wrote {
                serializer: placed.serializer,
                answer: Ok(placed.offset),
            },
            Err(error) => Wrote {
                serializer: self.by_fields(),
                answer: Err(error),
            },
        }
    }

    // Puts an atom. In a list it goes on a new line if the line is at least `break_line_at` bytes long.
    pub fn put_atom(
        self,
        style: SerializerStyle<'_>,
        buf: &mut [u8],
        atom: &[u8],
        break_line_at: u64,
    ) -> Wrote
        ensures { Does (put_atom_call atom.now break_line_at) (style_of style.entry) self buf.old result buf.new }
    {
        self.make_call(
            Call::PutAtom {
                atom,
                break_line_at,
            },
            style,
            buf,
        )
    }

    // Begins a list. Inside another it goes on a new line if the line is at least `break_line_at` bytes long.
    pub fn begin_list(self, style: SerializerStyle<'_>, buf: &mut [u8], break_line_at: u64) -> Wrote
        ensures { Does (begin_list_call break_line_at) (style_of style.entry) self buf.old result buf.new }
    {
        self.make_call(Call::BeginList { break_line_at }, style, buf)
    }

    // Ends the innermost list that is open.
    pub fn end_list(self, style: SerializerStyle<'_>, buf: &mut [u8]) -> Wrote
        ensures { Does end_list_call (style_of style.entry) self buf.old result buf.new }
    {
        self.make_call(Call::EndList, style, buf)
    }

    // Finishes the text. Only after that is it whole.
    pub fn finish(
        self,
        style: SerializerStyle<'_>,
        buf: &mut [u8],
        insert_line_break: bool,
    ) -> Wrote
        ensures { Does (finish_call insert_line_break) (style_of style.entry) self buf.old result buf.new }
    {
        self.make_call(Call::Finish { insert_line_break }, style, buf)
    }
}

// Writes what a plan says from the writer's position on: its layout, and behind that its token. Hands back what the call leaves.
#[inline(always)]
fn put_planned<T: Token>(
    w: SoundSerializer,
    style: SerializerStyle<'_>,
    buf: &mut [u8],
    planned: Planned,
    token: T,
) -> Placed
    requires offset { planned.placed.offset ≡ w.serializer.position + length (layout_bytes (style_of style) planned.layout) }
    requires room { planned.placed.offset + length (T.bytes token) ≤ length buf.old }
    ensures placed { result ≡ planned.placed }
    ensures bytes { buf.new ≡ pasted buf.old w.serializer.position (layout_bytes (style_of style.entry) planned.layout ++ T.bytes token) }
{
    write_layout(buf, w.serializer.position, style, planned.layout);
    token.put(buf, planned.placed.offset);
    planned.placed
}

// ---- the calls on a sound record; w, style and buf are three parameters, since buf is lent to be written and the others are read: a struct of them is no
// plainer, it would be made at each call and taken apart at once

// put_atom: an item, if the bytes are an atom; of which kind does not matter here.
#[inline(always)]
pub(crate) fn write_atom(
    w: SoundSerializer,
    style: SerializerStyle<'_>,
    buf: &mut [u8],
    atom: &[u8],
    break_line_at: u64,
) -> Result<Placed, WriteError>
    ensures { Makes (put_atom_call atom.now break_line_at) (style_of style.entry) w.serializer buf.old result buf.new }
{
    check_atom(atom).ok_or(WriteError::InvalidAtom)?;
    write_item(w, style, buf, Atom(atom), break_line_at)
}

// The beginning of a list.
#[inline(always)]
pub(crate) fn open_list(
    w: SoundSerializer,
    style: SerializerStyle<'_>,
    buf: &mut [u8],
    break_line_at: u64,
) -> Result<Placed, WriteError>
    ensures { Makes (begin_list_call break_line_at) (style_of style.entry) w.serializer buf.old result buf.new }
{
    write_item(w, style, buf, ListStart, break_line_at)
}

// An item: its layout and its token.
#[inline(always)]
fn write_item<T: Token>(
    w: SoundSerializer,
    style: SerializerStyle<'_>,
    buf: &mut [u8],
    token: T,
    break_line_at: u64,
) -> Result<Placed, WriteError>
    ensures { PutsItem (style_of style.entry) w.serializer (T.bytes token) T.is_list break_line_at buf.old result buf.new }
{
    let planned = w.plan_item(
        style,
        buf.len(),
        token.len(),
        token.is_list(),
        break_line_at,
    )?;
    Ok(put_planned(w, style, buf, planned, token))
}

// The phase with so many lists left open after a close.
pub fn phase_after(lists: usize) -> Phase
    ensures { result ≡ phase_after lists }
{
    if lists == 0 {
        Phase::Finished
    } else {
        Phase::Writing
    }
}

// The end of a list. It and finish_text are two lines each: another plan, another token; one function would take both as arguments.
#[inline(always)]
pub(crate) fn close_list(
    w: SoundSerializer,
    style: SerializerStyle<'_>,
    buf: &mut [u8],
) -> Result<Placed, WriteError>
    ensures { Makes end_list_call (style_of style.entry) w.serializer buf.old result buf.new }
{
    let planned = w.plan_end(style, buf.len())?;
    Ok(put_planned(w, style, buf, planned, ListEnd))
}

// finish: it may write a line break, and no token.
#[inline(always)]
pub(crate) fn finish_text(
    w: SoundSerializer,
    style: SerializerStyle<'_>,
    buf: &mut [u8],
    insert_line_break: bool,
) -> Result<Placed, WriteError>
    ensures { Makes (finish_call insert_line_break) (style_of style.entry) w.serializer buf.old result buf.new }
{
    let planned = w.plan_finish(style, buf.len(), insert_line_break)?;
    Ok(put_planned(w, style, buf, planned, NoBytes))
}

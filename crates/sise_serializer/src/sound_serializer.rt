// A record whose counts lie in the bounds that every call keeps, so that no sum of a call wraps; and the record behind each step of a call, whose token ends at
// `position`.
ghost use Rattle.std.specs.Prelude.{◌≡◌, true};
ghost use Rattle.sise_serializer.specs.Serializer.{is_sound};
ghost use Rattle.sise_serializer.specs.Parts.{behind_first, behind_new_line, behind_in_line, behind_end_on_new_line, behind_end_in_line, behind_finish};

use crate::serializer::{Phase, Serializer, phase_after};

#[derive(Clone, Copy, Debug, PartialEq, Eq)]
pub struct SoundSerializer {
    pub serializer: Serializer,
    ghost sound: { is_sound serializer ≡ true },
}

impl SoundSerializer {
    // Behind the first item, whose token has `len` bytes. After an atom the text has no other. `len` and `is_list` are no token, as in plan.rt.
    #[inline(always)]
    pub fn behind_first(self, position: usize, len: usize, is_list: bool) -> Serializer
        ensures { result ≡ behind_first self.serializer position len is_list }
    {
        let w = self.serializer;
        if is_list {
            return Serializer {
                position,
                lists: 1,
                broken: 0,
                line_len: len,
                phase: Phase::Writing,
                list_beginning: true,
                ..w
            };
        }
        Serializer {
            position,
            lists: 0,
            broken: 0,
            phase: Phase::Finished,
            ..w
        }
    }

    // Behind an item on a new line of `line_len` bytes. Every list that is open has a break in it from then on, but not one that the item begins.
    #[inline(always)]
    pub fn behind_new_line(self, position: usize, line_len: usize, is_list: bool) -> Serializer
        ensures { result ≡ behind_new_line self.serializer position line_len is_list }
    {
        let w = self.serializer;
        Serializer {
            position,
            lists: w.lists + usize::from(is_list),
            broken: w.lists,
            line_len,
            breaks: w.breaks + 1,
            indents: w.indents + w.lists,
            phase: Phase::Writing,
            list_beginning: is_list,
            ..w
        }
    }

    // Behind an item in the same line, which then has `line_len` bytes.
    #[inline(always)]
    pub fn behind_in_line(self, position: usize, line_len: usize, is_list: bool) -> Serializer
        ensures { result ≡ behind_in_line self.serializer position line_len is_list }
    {
        let w = self.serializer;
        Serializer {
            position,
            lists: w.lists + usize::from(is_list),
            line_len,
            spaces: w.spaces + usize::from(!w.list_beginning),
            phase: Phase::Writing,
            list_beginning: is_list,
            ..w
        }
    }

    // Behind a `)` on a new line of `line_len` bytes. Then a break is in every open list, and stays in those left.
    #[inline(always)]
    pub fn behind_end_on_new_line(self, position: usize, line_len: usize) -> Serializer
        ensures { result ≡ behind_end_on_new_line self.serializer position line_len }
    {
        let w = self.serializer;
        let left = w.lists.saturating_sub(1);
        Serializer {
            broken: left,
            line_len,
            breaks: w.breaks + 1,
            indents: w.indents + left,
            ..self.behind_end_in_line(position)
        }
    }

    // Behind a `)` in the same line.
    #[inline(always)]
    pub fn behind_end_in_line(self, position: usize) -> Serializer
        ensures { result ≡ behind_end_in_line self.serializer position }
    {
        let w = self.serializer;
        let left = w.lists.saturating_sub(1);
        Serializer {
            position,
            lists: left,
            line_len: w.line_len + 1,
            phase: phase_after(left),
            list_beginning: false,
            ..w
        }
    }

    // Behind the end of the text, with a line break or without.
    #[inline(always)]
    pub fn behind_finish(self, position: usize, insert_line_break: bool) -> Serializer
        ensures { result ≡ behind_finish self.serializer position insert_line_break }
    {
        let w = self.serializer;
        Serializer {
            position,
            breaks: w.breaks + usize::from(insert_line_break),
            phase: Phase::Done,
            ..w
        }
    }
}

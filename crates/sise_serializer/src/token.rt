// What a call puts behind its layout. Each call's steps are made for its token.
ghost use Rattle.std.specs.Prelude.{◌≡◌, ℕ, Bool, true, false, List, [], ◌∷◌, ◌+◌, ◌≤◌, length};
ghost use Rattle.sise_serializer.specs.Bytes.{pasted};

use crate::buffer::copy;

pub(crate) trait Token: Copy {
    ghost bytes: { Self → List ℕ };

    ghost is_list: { Bool };

    // Whether it begins a list. It is no constant of the trait: in an impl for a type with a lifetime, as Atom is, the check refuses one.
    fn is_list(self) -> bool
        ensures { result ≡ is_list };

    // How many bytes it has.
    fn len(self) -> usize
        ensures { result ≡ length (bytes self) };

    // Writes its bytes at `at`; buffer and place as in `copy`.
    fn put(self, buf: &mut [u8], at: usize)
        requires { at + length (bytes self) ≤ length buf.old }
        ensures { buf.new ≡ pasted buf.old at (bytes self) };
}

// An atom is its bytes.
#[derive(Clone, Copy)]
pub(crate) struct Atom<'a>(pub(crate) &'a [u8]);

impl<'a> Token for Atom<'a> {
    ghost bytes = { λ atom. atom.0.now };

    ghost is_list = { false };

    fn is_list(self) -> bool {
        false
    }

    fn len(self) -> usize {
        self.0.len()
    }

    fn put(self, buf: &mut [u8], at: usize) {
        copy(buf, at, self.0);
    }
}

// A list begins with `(`. ListStart and ListEnd differ in a byte and in is_list: as names they say more than one type over the two would.
#[derive(Clone, Copy)]
pub(crate) struct ListStart;

impl Token for ListStart {
    ghost bytes = { λ _. 40 ∷ [] };

    ghost is_list = { true };

    fn is_list(self) -> bool {
        true
    }

    fn len(self) -> usize {
        1
    }

    fn put(self, buf: &mut [u8], at: usize) {
        buf[at] = b'(';
    }
}

// A list ends with `)`.
#[derive(Clone, Copy)]
pub(crate) struct ListEnd;

impl Token for ListEnd {
    ghost bytes = { λ _. 41 ∷ [] };

    ghost is_list = { false };

    fn is_list(self) -> bool {
        false
    }

    fn len(self) -> usize {
        1
    }

    fn put(self, buf: &mut [u8], at: usize) {
        buf[at] = b')';
    }
}

// finish puts no token behind its layout.
#[derive(Clone, Copy)]
pub(crate) struct NoBytes;

impl Token for NoBytes {
    ghost bytes = { λ _. [] };

    ghost is_list = { false };

    fn is_list(self) -> bool {
        false
    }

    fn len(self) -> usize {
        0
    }

    fn put(self, _: &mut [u8], _: usize) {}
}

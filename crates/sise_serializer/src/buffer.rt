// Bytes into a lent buffer: where a token goes, and layout and a token written there.
ghost use Rattle.std.specs.Prelude.{◌≡◌, [], ◌∷◌, ◌+◌, ◌*◌, ◌<◌, ◌≤◌, leb, length, IfSome};
ghost use Rattle.sise_serializer.specs.Bytes.{pasted, pasted_if, repeat};
ghost use Rattle.sise_serializer.specs.Plan.{layout_bytes};
ghost use Rattle.sise_serializer.specs.Parts.{spot_of, gap_bytes, break_bytes};
ghost use Rattle.sise_serializer.specs.Serializer.{style_of, new_line_of};

use crate::plan::Layout;

// The longest text that is written. sise_tree's LONGEST is as large, but the limit of another text: that which a tree call reads (docs/FORMAT.md has both).
pub const LIMIT: usize = 16777216;

// The two strings that the caller lends for layout.
#[derive(Clone, Copy, Debug, PartialEq, Eq)]
pub struct SerializerStyle<'a> {
    pub line_break: &'a [u8],
    pub indentation: &'a [u8],
}

impl<'a> SerializerStyle<'a> {
    // The style with these two strings.
    pub fn new(line_break: &'a [u8], indentation: &'a [u8]) -> SerializerStyle<'a>
        ensures { result ≡ record { line_break = line_break.entry; indentation = indentation.entry } }
    {
        SerializerStyle {
            line_break,
            indentation,
        }
    }

    // What ends a text: the line break, if wished.
    pub fn final_break(self, wished: bool) -> &'a [u8]
        ensures { result.now ≡ break_bytes wished self.entry.line_break.now }
    {
        if wished { self.line_break } else { b"" }
    }
}

// A token's place: its first byte and its end. A Range<usize> would have the same two numbers under other names, and be no shorter.
#[derive(Clone, Copy, Debug, PartialEq, Eq)]
pub struct Spot {
    pub at: usize,
    pub end: usize,
}

// Whether `left` bytes have room for `times` strings of `size` bytes.
fn has_room(left: usize, times: usize, size: usize) -> bool
    ensures { result ≡ leb (times * size) left }
{
    times.checked_mul(size).is_some_and(|bytes| bytes <= left)
}

// The spot of a token of `token` bytes behind `lead` bytes and `times` indentations, the whole beginning at `position` in a buffer of `room` bytes. `find`
// alone calls it, with numbers of the record, the buffer, the layout, the style and the token: a struct of the six would be made there and read here at once.
pub fn find_spot(
    position: usize,
    room: usize,
    lead: usize,
    times: usize,
    indentation: usize,
    token: usize,
) -> Option<Spot>
    ensures { result ≡ spot_of room position (lead + times * indentation) token }
{
    let left = room
        .min(LIMIT)
        .checked_sub(position)?
        .checked_sub(lead)?
        .checked_sub(token)?;
    if !has_room(left, times, indentation) {
        return None;
    }
    let at = position + lead + times * indentation;
    Some(Spot {
        at,
        end: at + token,
    })
}

// Copies `src` to the bytes of `buf` that begin at `at`. One byte, as most line breaks are, needs no loop. By copy_from_slice, a call of memmove for each
// atom, a typical tree of 1 MB was written in 5.5 and not 4.3 ms (docs/DECISIONS.md). Here and in the functions below `buf` and `at` are no part
// `&mut buf[at..]`: the definition `pasted` has the place, and `copies` and `write_line` would still count it.
pub(crate) fn copy(buf: &mut [u8], at: usize, src: &[u8])
    requires { at + length src.now ≤ length buf.old }
    ensures { buf.new ≡ pasted buf.old at src.now }
{
    if src.len() == 1 {
        buf[at] = src[0];
        return;
    }
    for (i, &byte) in src.iter().enumerate() {
        buf[at + i] = byte;
    }
}

// The byte that `src` repeats, if it is one byte once or more often, as most indentations are.
fn uniform_byte(src: &[u8]) -> Option<u8>
    ensures { IfSome result (λ byte. (0 < length src.now) × (src.now ≡ repeat (length src.now) (byte ∷ []))) }
{
    let first = *src.first()?;
    src.iter().all(|&byte| byte == first).then_some(first)
}

// Copies `src` as many as `times` times, each behind the last, and does not look at it if that is none. By chunks_exact_mut it is no plainer: chunks of no
// byte are not allowed, so that an empty `src` needs a test of its own.
fn copies(buf: &mut [u8], at: usize, times: usize, src: &[u8])
    requires { at + times * length src.now ≤ length buf.old }
    ensures { buf.new ≡ pasted buf.old at (repeat times src.now) }
{
    if times == 0 {
        return;
    }
    let end = at + times * src.len();
    if let Some(byte) = uniform_byte(src) {
        buf[at..end].fill(byte);
        return;
    }
    for k in 0..times {
        copy(buf, at + k * src.len(), src);
    }
}

// A line break and `times` indentations.
#[inline(always)]
fn write_line(buf: &mut [u8], at: usize, style: SerializerStyle<'_>, times: usize)
    requires { at + length (new_line_of (style_of style) times) ≤ length buf.old }
    ensures { buf.new ≡ pasted buf.old at (new_line_of (style_of style.entry) times) }
{
    copy(buf, at, style.line_break);
    copies(buf, at + style.line_break.len(), times, style.indentation);
}

// What stands before a token.
#[inline(always)]
pub(crate) fn write_layout(buf: &mut [u8], at: usize, style: SerializerStyle<'_>, layout: Layout)
    requires { at + length (layout_bytes (style_of style) layout) ≤ length buf.old }
    ensures { buf.new ≡ pasted buf.old at (layout_bytes (style_of style.entry) layout) }
{
    match layout {
        Layout::Nothing => {}
        Layout::Space => buf[at] = b' ',
        Layout::Line(times) => write_line(buf, at, style, times),
    }
}

// ---- for callers in other crates: no public function has a `requires` (docs/CONTRIBUTING.md), so bytes are copied where they have room, and else nothing is

// Copies `src` to the bytes of `buf` that begin at `at`.
pub fn paste(buf: &mut [u8], at: usize, src: &[u8])
    ensures { buf.new ≡ pasted_if buf.old at src.now }
{
    if buf
        .len()
        .checked_sub(at)
        .is_some_and(|left| src.len() <= left)
    {
        copy(buf, at, src);
    }
}

// Pastes the space before an item that stays in its line, unless it joins what is before it.
pub fn write_gap(buf: &mut [u8], at: usize, joins: bool)
    ensures { buf.new ≡ pasted_if buf.old at (gap_bytes joins) }
{
    if !joins {
        paste(buf, at, b" ");
    }
}

// Copies a line break and `times` indentations.
pub fn paste_line(buf: &mut [u8], at: usize, style: SerializerStyle<'_>, times: usize)
    ensures { buf.new ≡ pasted_if buf.old at (new_line_of (style_of style.entry) times) }
{
    let behind = buf.len().checked_sub(at);
    let left = behind.and_then(|bytes| bytes.checked_sub(style.line_break.len()));
    if left.is_some_and(|bytes| has_room(bytes, times, style.indentation.len())) {
        write_line(buf, at, style, times);
    }
}

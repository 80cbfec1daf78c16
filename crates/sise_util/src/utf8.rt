// A character by RFC 3629, for the code point of a character that may not stand where it does.
ghost use Rattle.std.specs.Prelude.{◌≡◌, [], ◌∷◌, ◌+◌, ◌*◌, drop};
ghost use Rattle.sise_util.specs.Utf8.{tail, follow, character};

// The character that some bytes begin with: its code point and its number of bytes.
#[derive(Clone, Copy, Debug, PartialEq, Eq)]
pub struct Character {
    pub code: u32,
    pub len: usize,
}

// No well-formed character: the number of bytes of the longest start of one, which stand for a broken character. At least one, and 0 only where no
// byte is.
#[derive(Clone, Copy, Debug, PartialEq, Eq)]
pub struct IllFormed {
    pub len: usize,
}

// The free bits of the first octet and the six of the second in one number.
fn joined(lead: u8, next: u8) -> u32
    ensures { result ≡ lead * 64 + next }
{
    lead as u32 * 64 + next as u32
}

// After the free bits of two octets of a character of three: the UTF8-tail that is due.
fn three(lead: u8, next: u8, due: &[u8]) -> Result<Character, IllFormed>
    ensures { result ≡ follow (lead * 64 + next) 3 (tail ∷ []) due.now }
{
    match due {
        [third @ 0x80..=0xBF, ..] => {
            let code = joined(lead, next) * 64 + (third - 0x80) as u32;
            Ok(Character { code, len: 3 })
        }
        _ => Err(IllFormed { len: 2 }),
    }
}

// After the free bits of two octets of a character of four: the two UTF8-tail that are due. It is no case of `three`: an octet more is read, tested and
// shifted in. Its proof names laws and no places of the code, so that a wrong range is refused for what it accepts.
#[tactic(auto, using(crate::proofs::Utf8Steps::two_tails, crate::proofs::Utf8Steps::one_tail, crate::proofs::Utf8Steps::no_tail))]
fn four(lead: u8, next: u8, due: &[u8]) -> Result<Character, IllFormed>
    ensures { result ≡ follow (lead * 64 + next) 4 (tail ∷ tail ∷ []) due.now }
{
    match due {
        [third @ 0x80..=0xBF, fourth @ 0x80..=0xBF, ..] => {
            let begun = joined(lead, next) * 64 + (third - 0x80) as u32;
            let code = begun * 64 + (fourth - 0x80) as u32;
            Ok(Character { code, len: 4 })
        }
        [0x80..=0xBF, ..] => Err(IllFormed { len: 3 }),
        _ => Err(IllFormed { len: 2 }),
    }
}

// The character that some bytes begin with, by its first two octets. The arms past the first are section 4 of RFC 3629, line by line and in its order; an
// octet that is missing fits none of them. What is handed on of the two is their free bits.
fn utf8_char(bytes: &[u8]) -> Result<Character, IllFormed>
    ensures { result ≡ character bytes.now }
{
    match bytes {
        [] => Err(IllFormed { len: 0 }),
        // UTF8-1 = %x00-7F
        [lead @ 0x00..=0x7F, ..] => Ok(Character {
            code: *lead as u32,
            len: 1,
        }),
        // UTF8-2 = %xC2-DF UTF8-tail
        [lead @ 0xC2..=0xDF, next @ 0x80..=0xBF, ..] => Ok(Character {
            code: joined(lead - 0xC0, next - 0x80),
            len: 2,
        }),
        // UTF8-3 = %xE0 %xA0-BF UTF8-tail /
        [lead @ 0xE0, next @ 0xA0..=0xBF, due @ ..] => three(lead - 0xE0, next - 0x80, due),
        //          %xE1-EC 2( UTF8-tail ) /
        [lead @ 0xE1..=0xEC, next @ 0x80..=0xBF, due @ ..] => three(lead - 0xE0, next - 0x80, due),
        //          %xED %x80-9F UTF8-tail /
        [lead @ 0xED, next @ 0x80..=0x9F, due @ ..] => three(lead - 0xE0, next - 0x80, due),
        //          %xEE-EF 2( UTF8-tail )
        [lead @ 0xEE..=0xEF, next @ 0x80..=0xBF, due @ ..] => three(lead - 0xE0, next - 0x80, due),
        // UTF8-4 = %xF0 %x90-BF 2( UTF8-tail ) /
        [lead @ 0xF0, next @ 0x90..=0xBF, due @ ..] => four(lead - 0xF0, next - 0x80, due),
        //          %xF1-F3 3( UTF8-tail ) /
        [lead @ 0xF1..=0xF3, next @ 0x80..=0xBF, due @ ..] => four(lead - 0xF0, next - 0x80, due),
        //          %xF4 %x80-8F 2( UTF8-tail )
        [lead @ 0xF4, next @ 0x80..=0x8F, due @ ..] => four(lead - 0xF0, next - 0x80, due),
        _ => Err(IllFormed { len: 1 }),
    }
}

// The character that begins at a place of the text; at its end and past it none is well formed.
pub fn character_at(text: &[u8], at: usize) -> Result<Character, IllFormed>
    ensures { result ≡ character (drop at text.now) }
{
    utf8_char(text.get(at..).unwrap_or(&[]))
}

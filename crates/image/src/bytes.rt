// What the bytes of an image say at any place: 0 past the image's end.
ghost use Rattle.std.specs.Prelude.{◌≡◌};
ghost use Rattle.image.specs.Bytes.{byte_at, word_at, word_of};
ghost use Rattle.image.specs.Load.{kind_at, zero_at, offset_at, length_at, page_count, page_exponent, program_count, field_at, context_at, mask_at, mode_at};

// An entry of the table of contents (RULES 5.3): its kind, the byte that should be 0, where its part starts and how long that is.
#[derive(Clone, Copy, Debug, PartialEq, Eq)]
pub struct Entry {
    pub kind: u8,
    pub zero: u8,
    pub offset: u16,
    pub length: u16,
}

// The shape (RULES 5.4) without its last byte: page count, exponent and program count.
#[derive(Clone, Copy, Debug, PartialEq, Eq)]
pub struct Shape {
    pub pages: u8,
    pub exponent: u8,
    pub programs: u8,
}

// The byte at a place.
pub fn byte_at(bytes: &[u8], at: usize) -> u8
    ensures { result ≡ byte_at bytes.now at }
{
    bytes.get(at).copied().unwrap_or(0)
}

// The 16-bit number of its high byte and its low byte. Not `u16::from_be_bytes`, which costs a load two instructions more for each field.
pub fn word_of(high: u8, low: u8) -> u16
    ensures { result ≡ word_of high low }
{
    256 * high as u16 + low as u16
}

// The 16-bit field at a place, high byte first.
pub fn word_at(bytes: &[u8], at: u32) -> u16
    ensures { result ≡ word_at bytes.now at }
{
    word_of(byte_at(bytes, at as usize), byte_at(bytes, 1 + at as usize))
}

// An entry of the table of contents, entries counted from 0.
pub fn entry_at(bytes: &[u8], entry: u8) -> Entry
    ensures kind { result.kind ≡ kind_at bytes.now entry }
    ensures zero { result.zero ≡ zero_at bytes.now entry }
    ensures offset { result.offset ≡ offset_at bytes.now entry }
    ensures length { result.length ≡ length_at bytes.now entry }
{
    let at = 6 * entry as u32;
    Entry {
        kind: byte_at(bytes, at as usize),
        zero: byte_at(bytes, 1 + at as usize),
        offset: word_at(bytes, 2 + at),
        length: word_at(bytes, 4 + at),
    }
}

// The shape that the bytes have, whatever its numbers.
pub fn shape_at(bytes: &[u8]) -> Shape
    ensures pages { result.pages ≡ page_count bytes.now }
    ensures exponent { result.exponent ≡ page_exponent bytes.now }
    ensures programs { result.programs ≡ program_count bytes.now }
{
    Shape {
        pages: byte_at(bytes, 18),
        exponent: byte_at(bytes, 19),
        programs: byte_at(bytes, 20),
    }
}

// The READ or WRITE field at a place of the pages: the word there, under the name of its definition.
pub fn field_at(bytes: &[u8], at: u16) -> u16
    ensures { result ≡ field_at bytes.now at }
{
    word_at(bytes, at as u32)
}

// The global context of the program that starts at a place; then its mask and its mode byte, each under the name of its definition.
pub fn context_at(bytes: &[u8], start: u16) -> u16
    ensures { result ≡ context_at bytes.now start }
{
    word_at(bytes, start as u32)
}

pub fn mask_at(bytes: &[u8], start: u16) -> u16
    ensures { result ≡ mask_at bytes.now start }
{
    word_at(bytes, 2 + start as u32)
}

pub fn mode_at(bytes: &[u8], start: u16) -> u8
    ensures { result ≡ mode_at bytes.now start }
{
    byte_at(bytes, 4 + start as usize)
}

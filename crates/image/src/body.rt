// What an image has many of, each in a body of one size (RULES 5.2): read one after another, and written one after another.
ghost use Rattle.std.specs.Prelude.{◌≡◌, ℕ, ◌+◌, ◌*◌, ◌^◌, ◌≤◌, ◌<◌, List, length, refl};
ghost use Rattle.std.proofs.lemmas.List.Edits.{sets};
ghost use Rattle.machine.specs.Machine.{no_program};
ghost use Rattle.image.specs.Bytes.{word, entries, bodies};
ghost use Rattle.image.specs.Description.{program_bytes, pad};
ghost use Rattle.image.specs.Load.{field_at, program_at};

use crate::bytes::{byte_at, word_at};
use machine::calls::mode_of;
use machine::record::Program;

// What can be read at a place and written at one. Each `impl` names what the definitions say of that, and shows that what it writes has its size.
pub trait Body: Copy {
    // How many bytes a body has.
    const SIZE: usize;

    ghost SIZE: { ℕ };

    // What stands where there is no body.
    const NONE: Self;

    ghost NONE: { Self };

    // What is read at a place of a string of bytes, and the bytes that are written of it.
    ghost read_of: { List ℕ → ℕ → Self };

    ghost bytes_of: { Self → List ℕ };

    fn read(bytes: &[u8], at: u32) -> Self
        requires { at + SIZE < 2 ^ 32 }
        ensures { result ≡ read_of bytes.now at };

    // Written at a place.
    fn put(self, out: &mut [u8], at: usize)
        requires { at + SIZE ≤ length out.old }
        ensures { out.new ≡ sets out.old at (bytes_of self) };

    ghost sized: { (x : Self) → length (bytes_of x) ≡ SIZE };
}

// A READ or WRITE field, or another number of 16 bits: high byte first.
impl Body for u16 {
    const SIZE: usize = 2;

    ghost SIZE = { 2 };

    const NONE: u16 = 0;

    ghost NONE = { 0 };

    ghost read_of = { field_at };

    ghost bytes_of = { word };

    ghost sized = { λ number. refl };

    fn read(bytes: &[u8], at: u32) -> u16 {
        word_at(bytes, at)
    }

    fn put(self, out: &mut [u8], at: usize) {
        let [high, low] = self.to_be_bytes();
        out[at] = high;
        out[at + 1] = low;
    }
}

// A program: global context, mask and mode byte.
impl Body for Program {
    const SIZE: usize = 5;

    ghost SIZE = { 5 };

    const NONE: Program = Program::NONE;

    ghost NONE = { no_program };

    ghost read_of = { program_at };

    ghost bytes_of = { program_bytes };

    ghost sized = { λ program. refl };

    fn read(bytes: &[u8], at: u32) -> Program {
        Program {
            context: word_at(bytes, at),
            mask: word_at(bytes, 2 + at),
            mode: mode_of(byte_at(bytes, 4 + at as usize) as u16),
        }
    }

    fn put(self, out: &mut [u8], at: usize) {
        self.context.put(out, at);
        self.mask.put(out, at + 2);
        out[at + 4] = self.mode as u8;
    }
}

// So many bodies that stand one after another, the first at a place, in the first places of an array; `NONE` in the others.
#[tactic(auto, using(crate::proofs::Entries::placing))]
pub fn read_bodies<T: Body, const N: usize>(bytes: &[u8], at: u32, count: usize) -> [T; N]
    requires { at + T.SIZE * N < 2 ^ 32 }
    ensures { result ≡ pad N T.NONE (entries T.SIZE (T.read_of bytes.now) at count) }
{
    let mut places = [T::NONE; N];
    for i in 0..count.min(N) {
        places[i] = T::read(bytes, at + (T::SIZE * i) as u32);
    }
    places
}

// So many bodies written one after another; where fewer are given, `NONE` is written for each that is missing.
#[tactic(auto, using(crate::proofs::Stored::storing))]
pub fn write_bodies<T: Body>(out: &mut [u8], items: &[T], count: usize)
    requires { T.SIZE * count ≤ length out.old }
    ensures { out.new ≡ sets out.old 0 (bodies T.bytes_of (pad count T.NONE items.now)) }
{
    for i in 0..count {
        let item = items.get(i).copied().unwrap_or(T::NONE);
        item.put(out, T::SIZE * i);
    }
}

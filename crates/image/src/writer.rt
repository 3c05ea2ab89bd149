// Writing an image back (RULES 5.14 to 5.16): bytes of a machine, the table of contents first, then each body into the buffer from its own
// offset on. Each of the writers puts its bytes where its caller has seen that there is room.
ghost use Rattle.std.specs.Prelude.{◌≡◌, ◌+◌, ◌*◌, ◌≤◌, true, length};
ghost use Rattle.std.proofs.lemmas.List.Edits.{sets};
ghost use Rattle.rules.specs.Refusals.{first, outcome_number, given_or};
ghost use Rattle.machine.specs.Machine.{is_sound, no_program};
ghost use Rattle.image.specs.Description.{entry, contents, shape, pad, bytes_of};
ghost use Rattle.image.specs.Write.{entry_of, is_at_rest, write_checks, written_of, buffer_after};

use crate::body::{Body, write_bodies};
use crate::bytes::Shape;
use crate::refusals::program_place;
use machine::record::{Machine, Program};
use rules::Refusal;
use rules::registers::Registers;

// An entry of the table of contents at a place. Three numbers, and not an `Entry`: a call is one line, a struct of four fields would be six.
fn put_entry(out: &mut [u8], at: usize, kind: u8, offset: u16, size: u16)
    requires { at + 6 ≤ length out.old }
    ensures { out.new ≡ sets out.old at (entry kind offset size) }
{
    out[at] = kind;
    out[at + 1] = 0;
    offset.put(out, at + 2);
    size.put(out, at + 4);
}

// The table of contents.
fn write_contents(out: &mut [u8], counts: Shape)
    requires { 18 ≤ length out.old }
    ensures { out.new ≡ sets out.old 0 (contents counts.pages counts.programs) }
{
    let first = program_place(counts.pages, 0);
    put_entry(out, 0, 1, 18, 4);
    put_entry(out, 6, 2, 22, 4 * counts.pages as u16);
    put_entry(out, 12, 3, first, 5 * counts.programs as u16);
}

// The body of kind 1, the shape.
fn write_shape(out: &mut [u8], counts: Shape)
    requires { 4 ≤ length out.old }
    ensures { out.new ≡ sets out.old 0 (shape counts.pages counts.exponent counts.programs) }
{
    out[0] = counts.pages;
    out[1] = counts.exponent;
    out[2] = counts.programs;
    out[3] = 0;
}

// The whole image of its parts, and its length: the table of contents, and each body in the part of the buffer that starts at its offset.
fn write_image(buf: &mut [u8], counts: Shape, fields: &[u16], table: &[Program]) -> usize
    requires { 22 + 4 * counts.pages + 5 * counts.programs ≤ length buf.old }
    ensures value { result ≡ 22 + 4 * counts.pages + 5 * counts.programs }
    ensures buf_after { buf.new ≡ sets buf.old 0 (bytes_of (record { pages = counts.pages; exponent = counts.exponent; fields = pad (2 * counts.pages) 0 fields.now; programs = pad counts.programs no_program table.now })) }
{
    let first = program_place(counts.pages, 0) as usize;
    write_contents(buf, counts);
    write_shape(&mut buf[18..], counts);
    write_bodies(&mut buf[22..], fields, 2 * counts.pages as usize);
    write_bodies(&mut buf[first..], table, counts.programs as usize);
    program_place(counts.pages, counts.programs) as usize
}

// The live registers as a program's entry. No `From`: neither type is this crate's.
fn entry_of(registers: Registers) -> Program
    ensures { result ≡ entry_of registers }
{
    Program {
        context: registers.context,
        mask: registers.mask,
        mode: registers.mode,
    }
}

// Program 0 runs, no mode is saved and the flag is clear.
fn is_at_rest(machine: &Machine) -> bool
    ensures { result ≡ is_at_rest machine.now }
{
    machine.current == 0 && machine.depth == 0 && !machine.registers.pending
}

// The shape of a sound machine, whose counts are bytes.
fn shape_of(machine: &Machine) -> Shape
    requires { is_sound machine.now ≡ true }
    ensures pages { result.pages ≡ machine.now.pages }
    ensures exponent { result.exponent ≡ machine.now.exponent }
    ensures programs { result.programs ≡ machine.now.programs }
{
    Shape {
        pages: machine.pages as u8,
        exponent: machine.exponent,
        programs: machine.programs as u8,
    }
}

// Why writing a machine into a buffer of so many bytes is refused, by the first condition that is met.
#[tactic(auto, using(crate::proofs::Writes::image_length), unfolding(crate::specs::Write::write_checks))]
fn check_write(machine: &Machine, room: usize) -> Result<(), Refusal>
    ensures { outcome_number result ≡ first (write_checks machine.now room) }
{
    if !machine.sound() {
        return Err(Refusal::Unsound);
    }
    if !is_at_rest(machine) {
        return Err(Refusal::NotAtRest);
    }
    let counts = shape_of(machine);
    if room < program_place(counts.pages, counts.programs) as usize {
        return Err(Refusal::ShortBuffer);
    }
    Ok(())
}

// The image that starts a machine, into a lent buffer; how many bytes it has. Where it is refused, no byte of the buffer changes.
#[tactic(auto, using(rules::proofs::Outcomes::refused, crate::proofs::Writes::writing))]
pub fn write(machine: Machine, buf: &mut [u8]) -> Result<usize, Refusal>
    ensures number { outcome_number result ≡ (written_of machine (length buf.old)).number }
    ensures count { given_or 0 result ≡ (written_of machine (length buf.old)).count }
    ensures buf_after { buf.new ≡ buffer_after machine buf.old }
{
    check_write(&machine, buf.len())?;
    let mut table = machine.table;
    table[0] = entry_of(machine.registers);
    Ok(write_image(buf, shape_of(&machine), &machine.fields, &table))
}

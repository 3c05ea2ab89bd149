// What a load refuses (RULES 5.8), each condition worked out on any string of bytes.
ghost use Rattle.std.specs.Prelude.{◌≡◌, ◌+◌, ◌*◌};
ghost use Rattle.rules.specs.Refusals.{first, outcome_number};
ghost use Rattle.image.specs.Load.{every, length_tests, kind_tests, shape_entry_tests, shape_tests, body_tests, are_modes, modes_of, load_checks};

use crate::bytes::{byte_at, entry_at, mode_at, shape_at};
use machine::record::memory_size;
use rules::Refusal;

#[tactic(auto, unfolding(crate::specs::Load::length_tests))]
fn length_holds(bytes: &[u8]) -> bool
    ensures { result ≡ every (length_tests bytes.now) }
{
    (31..=574).contains(&bytes.len())
}

#[tactic(auto, unfolding(crate::specs::Load::kind_tests))]
fn kinds_hold(bytes: &[u8]) -> bool
    ensures { result ≡ every (kind_tests bytes.now) }
{
    let shape = entry_at(bytes, 0);
    let pages = entry_at(bytes, 1);
    let programs = entry_at(bytes, 2);
    shape.kind == 1
        && shape.zero == 0
        && pages.kind == 2
        && pages.zero == 0
        && programs.kind == 3
        && programs.zero == 0
}

#[tactic(auto, unfolding(crate::specs::Load::shape_entry_tests))]
fn shape_entry_holds(bytes: &[u8]) -> bool
    ensures { result ≡ every (shape_entry_tests bytes.now) }
{
    let shape = entry_at(bytes, 0);
    shape.offset == 18 && shape.length == 4
}

#[tactic(auto, unfolding(crate::specs::Load::shape_tests))]
fn shape_holds(bytes: &[u8]) -> bool
    ensures { result ≡ every (shape_tests bytes.now) }
{
    let shape = shape_at(bytes);
    (1..=128).contains(&shape.pages)
        && (5..=12).contains(&shape.exponent)
        && (1..=8).contains(&shape.programs)
        && byte_at(bytes, 21) == 0
        && memory_size(shape.pages as u16, shape.exponent) <= 65536
}

// Where a program starts, programs counted from 0; past the last program that is where the image ends.
pub fn program_place(pages: u8, program: u8) -> u16
    ensures { result ≡ 22 + 4 * pages + 5 * program }
{
    22 + 4 * pages as u16 + 5 * program as u16
}

#[tactic(auto, unfolding(crate::specs::Load::body_tests))]
fn bodies_hold(bytes: &[u8]) -> bool
    ensures { result ≡ every (body_tests bytes.now) }
{
    let shape = shape_at(bytes);
    let pages = entry_at(bytes, 1);
    let programs = entry_at(bytes, 2);
    pages.offset == 22
        && pages.length == 4 * shape.pages as u16
        && programs.offset == program_place(shape.pages, 0)
        && programs.length == 5 * shape.programs as u16
        && bytes.len() == program_place(shape.pages, shape.programs) as usize
}

fn modes_hold(bytes: &[u8]) -> bool
    ensures { result ≡ are_modes (modes_of bytes.now) }
{
    let shape = shape_at(bytes);
    (0..shape.programs).all(|program| mode_at(bytes, program_place(shape.pages, program)) <= 1)
}

// Why a load is refused, by the first condition that is met.
#[tactic(auto, unfolding(crate::specs::Load::load_checks))]
pub fn check_load(bytes: &[u8]) -> Result<(), Refusal>
    ensures { outcome_number result ≡ first (load_checks bytes.now) }
{
    if !length_holds(bytes) {
        return Err(Refusal::WrongLength);
    }
    if !kinds_hold(bytes) {
        return Err(Refusal::WrongKinds);
    }
    if !shape_entry_holds(bytes) {
        return Err(Refusal::WrongShapeEntry);
    }
    if !shape_holds(bytes) {
        return Err(Refusal::WrongShape);
    }
    if !bodies_hold(bytes) {
        return Err(Refusal::WrongBodies);
    }
    if !modes_hold(bytes) {
        return Err(Refusal::WrongModes);
    }
    Ok(())
}

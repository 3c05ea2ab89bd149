// Loading an image (RULES, section 5).
ghost use Rattle.std.specs.Prelude.{◌≡◌};
ghost use Rattle.image.specs.Description.{machine_of};
ghost use Rattle.image.specs.Load.{describe, load_of};

use crate::body::read_bodies;
use crate::bytes::shape_at;
use crate::refusals::{check_load, program_place};
use machine::record::{Answered, Machine, Program, Report};
use rules::outcome_number;
use rules::registers::Registers;

// The machine that the bytes describe, of any bytes: the fields and the programs fill the machine's 256 and its eight places.
fn machine_of(bytes: &[u8]) -> Machine
    ensures { result ≡ machine_of (describe bytes.now) }
{
    let shape = shape_at(bytes);
    let first = program_place(shape.pages, 0) as u32;
    let table: [Program; 8] = read_bodies(bytes, first, shape.programs as usize);
    let live = table[0];
    Machine {
        pages: shape.pages as u16,
        exponent: shape.exponent,
        fields: read_bodies(bytes, 22, 2 * shape.pages as usize),
        registers: Registers {
            context: live.context,
            mask: live.mask,
            mode: live.mode,
            pending: false,
        },
        programs: shape.programs as u16,
        table,
        ..Machine::zero()
    }
}

// The load of an image: its number, and the machine it describes where that is 0, the all-zero machine where not. No `Result`, since a refused load
// gives a machine too (RULES 5.10).
#[tactic(auto, using(rules::proofs::Outcomes::refused), unfolding(crate::specs::Load::load_of))]
pub fn load(bytes: &[u8]) -> Answered
    ensures { result ≡ load_of bytes.now }
{
    let outcome = check_load(bytes);
    let machine = match outcome {
        Ok(()) => machine_of(bytes),
        Err(_) => Machine::zero(),
    };
    machine.silent(outcome_number(outcome))
}

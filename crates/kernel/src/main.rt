// A node's kernel in small, for those who write one: it boots from an image, gives a program its turn and serves what the program asks for.
// docs/KERNEL.md goes through it. It prints what its calls answer on the sample node.
#![tactic(auto)]

ghost use Rattle.std.specs.Prelude.{true, false, ◌≡◌, ◌<◌, get_or, set, IfOk};
ghost use Rattle.machine.specs.Calls.{call_of};
ghost use Rattle.machine.specs.Machine.{is_sound, with_programs};
ghost use Rattle.machine.specs.declared.record.Call.{Call};
ghost use Rattle.rules.specs.Registers.{mode_where};
ghost use Rattle.image.specs.Load.{load_of};
ghost use Rattle.kernel.specs.Kernel.{call_for, begun_of, served_of};

use image::load;
use machine::{Answered, Domain, Machine, Page, Report, Width};
use std::io;

// The rights of an access, as the machine has their numbers.
const READ: u8 = 0;

const WRITE: u8 = 1;

// What a program asks its kernel for: the accesses of its instructions, to one byte or to two, and its commands.
#[derive(Clone, Copy, Debug, PartialEq, Eq)]
pub enum Request {
    Read(Width, u32),
    Write(Width, u32),
    GrantRight(u8, Page, Domain),
    RevokeRight(u8, Page, Domain),
    ReplaceMask(u16),
}

// The numbers of the three calls with which a turn begins, as the machine answers them, and the machine after the calls. Numbers, as
// `begun_of` and its theorems have them.
#[derive(Clone, Copy, Debug, PartialEq, Eq)]
pub struct Begun {
    pub entry: u8,
    pub switch: u8,
    pub leave: u8,
    pub machine: Machine,
}

// How many requests of a list were refused, and the machine after the last.
#[derive(Clone, Copy, Debug, PartialEq, Eq)]
pub struct Served {
    pub refused: usize,
    pub machine: Machine,
}

// Boots: the machine that the image describes, or the all-zero machine and the number of what is wrong with the image.
fn boot(image: &[u8]) -> Answered
    ensures { result ≡ load_of image.now }
{
    load(image)
}

// The turn of a program begins: interrupt entry, switch, return. On a sound machine at depth 0, for a program of the table, none is refused.
#[tactic(auto, unfolding(crate::specs::Kernel::begun_of))]
fn begin_turn(machine: Machine, program: u16) -> Begun
    ensures value { result ≡ begun_of machine program }
    ensures result_value { is_sound machine ≡ true → machine.depth ≡ 0 → program < machine.programs → (result.entry ≡ 0) × (result.switch ≡ 0) × (result.leave ≡ 0) }
{
    let entered = machine.enter();
    let switched = entered.machine.switch_to(program);
    let left = switched.machine.leave();
    Begun {
        entry: entered.number,
        switch: switched.number,
        leave: left.number,
        machine: left.machine,
    }
}

// Stores the live registers as the current program's entry, by a switch to that program. Where it is done, nothing else changes.
fn store_current(machine: Machine) -> Answered
    ensures value { result ≡ call_of machine (Call.Switch machine.current) }
    ensures machine_value { result.number ≡ 0 → result.machine ≡ with_programs machine.current (set machine.table machine.current (record { context = machine.registers.context; mask = machine.registers.mask; mode = mode_where (get_or machine.saved 0 false) })) machine }
{
    machine.switch_to(machine.current)
}

// One request: the call that belongs to it.
fn serve(machine: Machine, request: Request) -> Answered
    ensures { result ≡ call_of machine (call_for request) }
{
    match request {
        Request::Read(width, address) => machine.access(width, READ, address),
        Request::Write(width, address) => machine.access(width, WRITE, address),
        Request::GrantRight(right, page, domain) => machine.grant(right, page, domain),
        Request::RevokeRight(right, page, domain) => machine.revoke(right, page, domain),
        Request::ReplaceMask(mask) => machine.set_mask(mask),
    }
}

// The requests of a turn, one after another, each on the machine that the one before it left. A request is refused where its number is not 0.
fn serve_all(start: Machine, requests: &[Request]) -> Served
    ensures { result ≡ served_of start requests.now }
{
    let mut served = Served {
        refused: 0,
        machine: start,
    };
    for request in requests {
        let answered = serve(served.machine, *request);
        served.machine = answered.machine;
        served.refused += usize::from(answered.number != 0);
    }
    served
}

// Tells support who was denied what, within the interrupt that a violation brings: prints the last violation on a line, where the machine hands
// one out, and gives the answer back.
fn tell_support(rt: &impl Print, machine: Machine) -> io::Result<Answered>
    ensures { IfOk result (λ asked. asked ≡ call_of machine Call.AskViolation) }
{
    let asked = machine.ask_violation();
    if let Report::Denied(violation) = asked.report {
        println!(rt;
            "denied: program {}, right {}, address {}",
            violation.program, violation.right, violation.address
        )?;
    }
    Ok(asked)
}

// The sample node: a load, three requests of program 0 of which a violation and the one after it are refused, an interrupt in which support is told
// of it and the program's registers are stored, the turn of program 1, and three of its requests, of which the last two are refused: it does not hold
// the prevailing domain, and may not write page 0. Both programs read two bytes from 511 on, the last of page 1 and the first of page 2: program 0 may
// not read page 2, program 1 may read both.
fn main(rt: HostRuntime) -> io::Result<()> {
    let image = [
        1u8, 0, 0, 18, 0, 4, 2, 0, 0, 22, 0, 12, 3, 0, 0, 34, 0, 10, 3, 8, 2, 0, 0, 9, 0, 0, 0, 10,
        0, 2, 0, 12, 0, 4, 0, 7, 0, 3, 0, 0, 8, 255, 255, 0,
    ];
    let loaded = boot(&image);
    println!(rt; "{}", loaded.number)?;
    let first = serve_all(
        loaded.machine,
        &[
            Request::Read(Width::One, 16),
            Request::Read(Width::Two, 511),
            Request::ReplaceMask(7),
        ],
    );
    println!(rt; "{}", first.refused)?;
    let interrupted = first.machine.enter();
    let asked = tell_support(&rt, interrupted.machine)?;
    let stored = store_current(asked.machine);
    println!(rt; "{}", stored.number)?;
    let resumed = stored.machine.leave();
    let begun = begin_turn(resumed.machine, 1);
    println!(rt; "{}", begun.entry)?;
    println!(rt; "{}", begun.switch)?;
    println!(rt; "{}", begun.leave)?;
    let second = serve_all(
        begun.machine,
        &[
            Request::Read(Width::Two, 511),
            Request::GrantRight(READ, Page(2), Domain(4)),
            Request::Write(Width::One, 0),
        ],
    );
    println!(rt; "{}", second.refused)?;
    Ok(())
}

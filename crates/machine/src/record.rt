// The machine (RULES, section 1).
ghost use Rattle.std.specs.Prelude.{◌≡◌, false, ◌+◌, ◌*◌, ◌^◌, ◌/◌, leb, get_or, set};
ghost use Rattle.rules.specs.Refusals.{pick};
ghost use Rattle.rules.specs.Registers.{is_privileged, mode_where};
ghost use Rattle.machine.specs.Machine.{zero, is_sound, violation_fits, place_of, no_program};
ghost use Rattle.machine.specs.Calls.{handed_out};
ghost use Rattle.machine.specs.declared.record.Report.TheVariants.{Nothing};

use rules::registers::{Mode, Registers};

// What is stored for a program: global context, mask and mode (RULES 1.2).
#[derive(Clone, Copy, Debug, PartialEq, Eq)]
pub struct Program {
    pub context: u16,
    pub mask: u16,
    pub mode: Mode,
}

// A page number, which cannot be passed for a domain number (RULES 1.10).
#[derive(Clone, Copy, Debug, PartialEq, Eq)]
pub struct Page(pub u16);

// A domain number.
#[derive(Clone, Copy, Debug, PartialEq, Eq)]
pub struct Domain(pub u16);

// A violation: the program that was denied, and the right and the whole address of its access (RULES 1.16).
#[derive(Clone, Copy, Debug, PartialEq, Eq)]
pub struct Violation {
    pub program: u16,
    pub right: u8,
    pub address: u32,
}

// What the machine keeps of violations: the last one, if there was one since the load. A struct of its own, since the definitions and laws say
// `violations.last` (`with_last`, `violation_fits`, `last_unseen`).
#[derive(Clone, Copy, Debug, PartialEq, Eq)]
pub struct Violations {
    pub last: Option<Violation>,
}

// The parts of RULES 1.2. The field of a right r to page p stands at 2p + r. A saved mode is kept as whether it is privileged,
// which is what the definitions have (`with_stack`, RULES 2.10).
#[derive(Clone, Copy, Debug, PartialEq, Eq)]
pub struct Machine {
    pub pages: u16,
    pub exponent: u8,
    pub fields: [u16; 256],
    pub registers: Registers,
    pub depth: u8,
    pub saved: [bool; 8],
    pub programs: u16,
    pub current: u16,
    pub table: [Program; 8],
    pub violations: Violations,
}

// What an answer reports beside its number and its machine (RULES 2.13).
#[derive(Clone, Copy, Debug, PartialEq, Eq)]
pub enum Report {
    Nothing,
    Denied(Violation),
    Through(Domain),
}

// What a call gives back: its number, the machine after it, and what it reports (RULES 2.1). The number is that of RULES 9.1, and no `Result`: the
// definitions give it (`call_of`), the laws and the library for C speak of it, and a refusal with 9 gives a machine too. `Result` in the calls
// themselves was tried (rules/src/decisions.rt).
#[derive(Clone, Copy, Debug, PartialEq, Eq)]
pub struct Answered {
    pub number: u8,
    pub machine: Machine,
    pub report: Report,
}

// How many bytes an access touches (RULES 3.2).
#[derive(Clone, Copy, Debug, PartialEq, Eq)]
pub enum Width {
    One,
    Two,
}

// One of the twelve calls (RULES 2.1), with arguments as RULES 2.6 has them: any number is a right, and what is none is refused with 2. An enum of
// the two rights would take that from callers.
#[derive(Clone, Copy, Debug, PartialEq, Eq)]
pub enum Call {
    Access(Width, u8, u32),
    Grant(u8, Page, Domain),
    Revoke(u8, Page, Domain),
    SetMask(u16),
    Enter,
    Return,
    Switch(u16),
    StoreField(u8, Page, u16),
    StoreContext(u16),
    StoreMask(u16),
    StoreMode(u16),
    AskViolation,
}

impl Program {
    // An entry of zeros and user mode (RULES 1.14), which is also what is read past the end of the table (RULES 2.9).
    pub const NONE: Program = Program {
        context: 0,
        mask: 0,
        mode: Mode::User,
    };
}

impl Violations {
    // Whether a sound machine of this program count and memory size may keep them (RULES 1.11).
    pub fn fit(self, programs: u16, memory: u32) -> bool
        ensures { result ≡ violation_fits programs memory self.last }
    {
        self.last.is_none_or(|violation| {
            (violation.program < programs) & (violation.right <= 1) & (violation.address < memory)
        })
    }

    // What the question for the last one reports: it where the question is answered, nothing where it is refused (RULES 2.13, 3.25).
    pub fn handed_out(self, answered: bool) -> Report
        ensures { result ≡ pick answered (handed_out self.last) Nothing }
    {
        match self.last {
            Some(violation) if answered => Report::Denied(violation),
            _ => Report::Nothing,
        }
    }
}

impl Machine {
    // The limits (RULES 1.1).
    pub const DOMAINS: u16 = 16;

    pub const PAGES: u16 = 128;

    pub const PROGRAMS: u16 = 8;

    pub const DEPTH: u8 = 8;

    // The all-zero machine, which a refused load gives (RULES 1.14, 5.10).
    pub fn zero() -> Machine
        ensures { result ≡ zero }
    {
        Machine {
            pages: 0,
            exponent: 0,
            fields: [0u16; 256],
            registers: Registers {
                context: 0,
                mask: 0,
                mode: Mode::User,
                pending: false,
            },
            depth: 0,
            saved: [false; 8],
            programs: 0,
            current: 0,
            table: [Program::NONE; 8],
            violations: Violations { last: None },
        }
    }

    // Whether the machine is sound (RULES 1.11), which every call by value asks first.
    pub fn sound(self) -> bool
        ensures { result ≡ is_sound self }
    {
        let registers = self.registers;
        let violations = self.violations;
        let memory = memory_size(self.pages, self.exponent);
        (1 <= self.pages)
            & (self.pages <= Machine::PAGES)
            & (5 <= self.exponent)
            & (self.exponent <= 12)
            & (self.depth <= Machine::DEPTH)
            & (1 <= self.programs)
            & (self.programs <= Machine::PROGRAMS)
            & (memory <= 65536)
            & (self.current < self.programs)
            & !(registers.pending & registers.privileged())
            & violations.fit(self.programs, memory)
    }
}

// Page count × page size; 0 where the exponent is out of range, so that no shift runs past its width.
pub fn memory_size(pages: u16, exponent: u8) -> u32
    ensures { result ≡ pick (leb exponent 12) (pages * 2 ^ exponent) 0 }
{
    if exponent <= 12 {
        return (pages as u32) << exponent;
    }
    0
}

// How far a byte's address is shifted for its page (RULES 1.9). 63 places leave nothing of it, as more would. It does not depend on the address, so that a
// loop over calls works it out once.
fn shift_of(exponent: u8) -> u8
    ensures { result ≡ pick (leb exponent 63) exponent 63 }
{
    exponent.min(63)
}

// The page of the byte that stands so far ahead of an address (RULES 1.9), of any exponent. The sum has room in 64 bits, so that nothing wraps.
pub fn page_of(address: u32, ahead: u8, exponent: u8) -> u64
    ensures { result ≡ (address + ahead) / 2 ^ exponent }
{
    (address as u64 + ahead as u64) >> shift_of(exponent)
}

// Where the field of a right to a page stands (RULES 1.5), of any right and page.
pub fn place(right: u8, page: u32) -> usize
    ensures { result ≡ place_of right page }
{
    2 * (page as usize) + right as usize
}

// An item at a place of a lent slice; past its end nothing is stored.
pub fn store_at<T: Copy>(items: &mut [T], at: usize, item: T)
    ensures { items.new ≡ set items.old at item }
{
    if at < items.len() {
        items[at] = item;
    }
}

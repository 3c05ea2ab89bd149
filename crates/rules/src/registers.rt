// The live registers (RULES, section 1), and the mask command on a record of them (RULES 2.11).
ghost use Rattle.std.specs.Prelude.{◌≡◌};
ghost use Rattle.rules.specs.Registers.{is_privileged, mode_where, local_context, with_context, with_mask, with_mode, with_pending, masked_of};

use crate::decisions::{chosen, mask_number};

// The live mode, and a saved or stored one.
#[derive(Clone, Copy, Debug, PartialEq, Eq)]
pub enum Mode {
    User = 0,
    Privileged = 1,
}

// The register record (RULES 1.3): global context, mask, mode and the pending flag.
#[derive(Clone, Copy, Debug, PartialEq, Eq)]
pub struct Registers {
    pub context: u16,
    pub mask: u16,
    pub mode: Mode,
    pub pending: bool,
}

// What the mask command makes of a register record: its number, and the record after it. Not a `Result`: the definition
// `masked_of` gives both, and the run's mask commands were a quarter slower with one (decisions.rt).
#[derive(Clone, Copy, Debug, PartialEq, Eq)]
pub struct Masked {
    pub number: u8,
    pub registers: Registers,
}

impl Mode {
    pub fn privileged(self) -> bool
        ensures { result ≡ is_privileged self }
    {
        self == Mode::Privileged
    }
}

// The mode from whether it is privileged.
impl From<bool> for Mode {
    ghost from_gives = { λ privileged mode. mode ≡ mode_where privileged };

    fn from(privileged: bool) -> Mode {
        if privileged {
            Mode::Privileged
        } else {
            Mode::User
        }
    }
}

impl Registers {
    pub fn privileged(self) -> bool
        ensures { result ≡ is_privileged self.mode }
    {
        self.mode.privileged()
    }

    // The local context: the part of the global context that the mask lets through (RULES 1.7).
    pub fn local(self) -> u16
        ensures { result ≡ local_context self }
    {
        self.context & self.mask
    }

    // The four below replace a field each. They are four since a field cannot be handed over; each has the definition of its name.
    pub fn with_context(self, bits: u16) -> Registers
        ensures { result ≡ with_context bits self }
    {
        Registers {
            context: bits,
            ..self
        }
    }

    pub fn with_mask(self, bits: u16) -> Registers
        ensures { result ≡ with_mask bits self }
    {
        Registers { mask: bits, ..self }
    }

    pub fn with_mode(self, mode: Mode) -> Registers
        ensures { result ≡ with_mode mode self }
    {
        Registers { mode, ..self }
    }

    pub fn with_pending(self, pending: bool) -> Registers
        ensures { result ≡ with_pending pending self }
    {
        Registers { pending, ..self }
    }
}

// The mask command on a register record, without the check for 1 (RULES 2.11).
#[tactic(auto, unfolding(crate::specs::Registers::masked_of))]
pub fn replace_mask(registers: Registers, mask: u16) -> Masked
    ensures { result ≡ masked_of registers mask }
{
    let number = mask_number(
        registers.privileged(),
        registers.pending,
        mask & registers.context == 0,
    );
    Masked {
        number,
        registers: chosen(number == 0, registers.with_mask(mask), registers),
    }
}

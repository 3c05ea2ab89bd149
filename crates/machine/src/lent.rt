// The mask command on the register record that the kernel lends (RULES 2.11).
ghost use Rattle.std.specs.Prelude.{◌≡◌};
ghost use Rattle.rules.specs.Registers.{masked_of};

use rules::registers::{Masked, Registers, replace_mask};

// The mask command, which changes the lent record and answers without the check for 1.
pub fn set_mask_lent(registers: &mut Registers, mask: u16) -> u8
    ensures { (result ≡ (masked_of registers.old mask).number)
        × (registers.new ≡ (masked_of registers.old mask).registers) }
{
    let Masked {
        number,
        registers: after,
    } = replace_mask(*registers, mask);
    *registers = after;
    number
}

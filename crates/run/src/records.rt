// The records of calls, decoded and taken as steps of a machine (RULES, section 6).
ghost use Rattle.std.specs.Prelude.{◌≡◌, ◌+◌, ◌*◌, [], ◌∷◌};
ghost use Rattle.machine.specs.Machine.{with_lent};
ghost use Rattle.machine.specs.Calls.{keeping};
ghost use Rattle.run.specs.Records.{call_of_kind, calls_of, unchecked_step_of};

use image::bytes::word_of;
use machine::record::{Answered, Call, Domain, Machine, Page, Report, Width};
use rules::Refusal;

// The address of an access: its high half and its low half.
fn address_of(a: u16, b: u16) -> u32
    ensures { result ≡ 65536 * a + b }
{
    65536 * u32::from(a) + u32::from(b)
}

// The call of a kind, with the parts of its record (RULES 6.5), or that there is none. The kind and the right are the record's bytes as they stand,
// and neither has an enum: a kind past the last is no call, and a right above 1 is an argument that the call refuses with 2. Each arm has its own
// `Some`, as the table `kinds` has; one `Some` around the whole cost the run more instructions a call.
#[tactic(auto, unfolding(crate::specs::Records::call_of_kind))]
pub fn call_of_kind(kind: u8, right: u8, a: u16, b: u16) -> Option<Call>
    ensures { result ≡ call_of_kind kind right a b }
{
    match kind {
        1 => Some(Call::Access(Width::One, right, address_of(a, b))),
        2 => Some(Call::Grant(right, Page(a), Domain(b))),
        3 => Some(Call::Revoke(right, Page(a), Domain(b))),
        4 => Some(Call::SetMask(b)),
        5 => Some(Call::Enter),
        6 => Some(Call::Return),
        7 => Some(Call::Switch(b)),
        8 => Some(Call::StoreField(right, Page(a), b)),
        9 => Some(Call::StoreContext(b)),
        10 => Some(Call::StoreMask(b)),
        11 => Some(Call::StoreMode(b)),
        12 => Some(Call::AskViolation),
        13 => Some(Call::Access(Width::Two, right, address_of(a, b))),
        _ => None,
    }
}

// The call of a record (RULES 6.4), or that it is none.
#[tactic(auto, using(crate::proofs::Steps::one_record))]
pub fn decode(bytes: [u8; 6]) -> Option<Call>
    ensures { calls_of bytes ≡ result ∷ [] }
{
    let [kind, right, a_high, a_low, b_high, b_low] = bytes;
    call_of_kind(kind, right, word_of(a_high, a_low), word_of(b_high, b_low))
}

// One step: the call on the machine with the lent fields and the lent stack, without the check for 1, or 18 for a record that is none. They
// are lent, since a machine that goes through a loop with them inside is copied at every turn; the machine that comes back keeps its own. Each arm
// returns, since the value of a `match` is copied as well: over 200 instructions a call of the bench's mix in place of 55.
pub fn step(
    machine: Machine,
    fields: &mut [u16],
    saved: &mut [bool],
    call: Option<Call>,
) -> Answered
    ensures value { result ≡ keeping machine (unchecked_step_of (with_lent fields.old saved.old machine) call) }
    ensures fields_after { fields.new ≡ (unchecked_step_of (with_lent fields.old saved.old machine) call).machine.fields }
    ensures saved_after { saved.new ≡ (unchecked_step_of (with_lent fields.old saved.old machine) call).machine.saved }
{
    let Some(call) = call else {
        return machine.silent(Refusal::NoSuchCall as u8);
    };
    match call {
        Call::Access(width, right, address) => {
            return machine.access_lent(fields, width, right, address);
        }
        Call::Grant(right, page, domain) => {
            let number = machine.change_lent(fields, true, right, page, domain);
            return machine.silent(number);
        }
        Call::Revoke(right, page, domain) => {
            let number = machine.change_lent(fields, false, right, page, domain);
            return machine.silent(number);
        }
        Call::SetMask(mask) => return machine.set_mask_unchecked(mask),
        Call::Enter => return machine.enter_lent(saved),
        Call::Return => return machine.leave_lent(saved),
        Call::Switch(program) => return machine.switch_lent(saved, program),
        Call::StoreField(right, page, bits) => {
            let number = machine.store_lent(fields, right, page, bits);
            return machine.silent(number);
        }
        Call::StoreContext(bits) => return machine.store_context_unchecked(bits),
        Call::StoreMask(bits) => return machine.store_mask_unchecked(bits),
        Call::StoreMode(mode) => return machine.store_mode_unchecked(mode),
        Call::AskViolation => return machine.ask_violation_unchecked(),
    }
}

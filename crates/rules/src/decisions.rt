// The number of each call from its own conditions (RULES, section 3): that of the first one that is met.
// The test for 1, which stands before them all, is the machine's.
// A number, 0 where nothing refuses the call, and no `Result`: that was tried, and the run's accesses to two bytes and its grants became slower than
// plain C's, which they are faster than with numbers (docs/PERFORMANCE.md). A variant's number is known when it is compiled, so that it is
// spelled `as u8`. The conditions come as bools, since the machine works them out and only their order is this file's.
ghost use Rattle.std.specs.Prelude.{◌≡◌, [], ◌∷◌};
ghost use Rattle.rules.specs.Refusals.{first, pick, ◌⇒◌};

use crate::refusals::Refusal;

// The first of two values where a condition is met, else the second.
pub fn chosen<T: Copy>(met: bool, first: T, second: T) -> T
    ensures { result ≡ pick met first second }
{
    if met { first } else { second }
}

pub fn access_number(
    badright: bool,
    outside: bool,
    privileged: bool,
    pending: bool,
    denied: bool,
) -> u8
    ensures { result ≡ first ((badright ⇒ 2) ∷ (outside ⇒ 3) ∷ pick privileged [] ((pending ⇒ 8) ∷ (denied ⇒ 9) ∷ [])) }
{
    if badright {
        return Refusal::NoSuchRight as u8;
    }
    if outside {
        return Refusal::OutsideMemory as u8;
    }
    if privileged {
        return 0;
    }
    if pending {
        return Refusal::InterruptPending as u8;
    }
    if denied {
        return Refusal::Violation as u8;
    }
    0
}

pub fn change_number(
    badright: bool,
    badpage: bool,
    baddomain: bool,
    privileged: bool,
    pending: bool,
    outside: bool,
    notlower: bool,
) -> u8
    ensures { result ≡ first ((badright ⇒ 2) ∷ (badpage ⇒ 4) ∷ (baddomain ⇒ 5) ∷ (privileged ⇒ 6) ∷ (pending ⇒ 8) ∷ (outside ⇒ 11) ∷ (notlower ⇒ 12) ∷ []) }
{
    if badright {
        return Refusal::NoSuchRight as u8;
    }
    if badpage {
        return Refusal::NoSuchPage as u8;
    }
    if baddomain {
        return Refusal::NoSuchDomain as u8;
    }
    if privileged {
        return Refusal::PrivilegedMode as u8;
    }
    if pending {
        return Refusal::InterruptPending as u8;
    }
    if outside {
        return Refusal::NotPrevailing as u8;
    }
    if notlower {
        return Refusal::NotLower as u8;
    }
    0
}

pub fn mask_number(privileged: bool, pending: bool, emptymask: bool) -> u8
    ensures { result ≡ first ((privileged ⇒ 6) ∷ (pending ⇒ 8) ∷ (emptymask ⇒ 19) ∷ []) }
{
    if privileged {
        return Refusal::PrivilegedMode as u8;
    }
    if pending {
        return Refusal::InterruptPending as u8;
    }
    if emptymask {
        return Refusal::EmptyMask as u8;
    }
    0
}

pub fn entry_number(full: bool) -> u8
    ensures { result ≡ first ((full ⇒ 13) ∷ []) }
{
    if full {
        return Refusal::StackFull as u8;
    }
    0
}

pub fn return_number(user: bool, empty: bool) -> u8
    ensures { result ≡ first ((user ⇒ 7) ∷ (empty ⇒ 14) ∷ []) }
{
    if user {
        return Refusal::UserMode as u8;
    }
    if empty {
        return Refusal::StackEmpty as u8;
    }
    0
}

pub fn switch_number(user: bool, notone: bool, badprogram: bool) -> u8
    ensures { result ≡ first ((user ⇒ 7) ∷ (notone ⇒ 15) ∷ (badprogram ⇒ 16) ∷ []) }
{
    if user {
        return Refusal::UserMode as u8;
    }
    if notone {
        return Refusal::DepthNotOne as u8;
    }
    if badprogram {
        return Refusal::NoSuchProgram as u8;
    }
    0
}

pub fn field_number(badright: bool, badpage: bool, user: bool) -> u8
    ensures { result ≡ first ((badright ⇒ 2) ∷ (badpage ⇒ 4) ∷ (user ⇒ 7) ∷ []) }
{
    if badright {
        return Refusal::NoSuchRight as u8;
    }
    if badpage {
        return Refusal::NoSuchPage as u8;
    }
    if user {
        return Refusal::UserMode as u8;
    }
    0
}

// Of a call that is refused in user mode alone: the kernel's stores of the global context and the mask, and its question for the last violation.
pub fn register_number(user: bool) -> u8
    ensures { result ≡ first ((user ⇒ 7) ∷ []) }
{
    if user {
        return Refusal::UserMode as u8;
    }
    0
}

pub fn mode_number(badmode: bool, user: bool) -> u8
    ensures { result ≡ first ((badmode ⇒ 17) ∷ (user ⇒ 7) ∷ []) }
{
    if badmode {
        return Refusal::NoSuchMode as u8;
    }
    if user {
        return Refusal::UserMode as u8;
    }
    0
}

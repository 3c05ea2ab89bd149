// The twelve calls (RULES, sections 2 and 3). Beside each public method stands the call without the check for 1 (RULES 2.8), for a
// caller that knows its machine to be sound: by value (`.._unchecked`), or on a part of the machine that the caller keeps beside it and
// lends (`.._lent`), so that a loop over calls need not carry fields and stack in its machine. The public method is that call behind one test
// for soundness; where the test fails it answers `unsound`. The two lines stand in each: a closure for the rest of a call would say no more, and its
// contract would be `F.pre` and `F.post`. The switch alone hands its test on (docs/PERFORMANCE.md).
// In the calls themselves an array is indexed only in a local or lent, the number comes first, what an accepted call changes is
// chosen by it, and the answer is made once at the end.
ghost use Rattle.std.specs.Prelude.{◌≡◌, false, ◌+◌, ◌*◌, ◌^◌, ◌/◌, leb, eqb, get_or};
ghost use Rattle.std.specs.Int.Bits.{bit_and};
ghost use Rattle.rules.specs.Domains.{prevailing, giving_domain, with_bit, without_bit};
ghost use Rattle.rules.specs.Refusals.{pick, first};
ghost use Rattle.rules.specs.Registers.{mode_where};
ghost use Rattle.machine.specs.Machine.{place_of, with_fields, with_registers, with_stack};
ghost use Rattle.machine.specs.declared.record.Call.{Call};
ghost use Rattle.machine.specs.declared.record.Report.TheVariants.{Nothing, Through};
ghost use Rattle.machine.specs.Calls.{as_domain, call_of, unchecked_of, answer_by, own_number_of, keeping, change_call, touched, any, access_checks, change_checks, mode_of, silent};

use crate::record::{
    Answered, Domain, Machine, Page, Program, Report, Violation, Violations, Width, page_of, place,
    store_at,
};
use rules::Refusal;
use rules::decisions::{
    access_number, change_number, chosen, entry_number, field_number, mode_number, register_number,
    return_number, switch_number,
};
use rules::domains::{
    giving_domain, is_not_lower, is_outside, prevailing_of, with_bit, without_bit,
};
use rules::registers::{Mode, Registers, replace_mask};

// The one number of a refusal that changes the machine (RULES 2.5).
const VIOLATION: u8 = Refusal::Violation as u8;

// The bits of a field after an accepted grant or revocation.
fn changed_bits(granting: bool, field: u16, s: u16) -> u16
    ensures { result ≡ pick granting (with_bit field s) (without_bit field s) }
{
    if granting {
        with_bit(field, s)
    } else {
        without_bit(field, s)
    }
}

// The mode that is saved at a place of a lent stack; user past its end (RULES 2.10).
fn saved_mode(saved: &[bool], at: u8) -> Mode
    ensures { result ≡ mode_where (get_or saved.now at false) }
{
    saved.get(at as usize).copied().unwrap_or(false).into()
}

// The mode of a number (RULES 3.23).
pub fn mode_of(number: u16) -> Mode
    ensures { result ≡ mode_of number }
{
    (number != 0).into()
}

// The byte so far ahead of an address is outside memory.
fn outside(pages: u16, exponent: u8, address: u32, ahead: u8) -> bool
    ensures { result ≡ leb (pages * 2 ^ exponent) (address + ahead) }
{
    (pages as u64) <= page_of(address, ahead, exponent)
}

// Some byte that an access touches is outside memory (RULES 3.2, for 3). Of two the last is asked first: the other way round the run's entries came out
// dearer (docs/PERFORMANCE.md).
fn any_outside(pages: u16, exponent: u8, width: Width, address: u32) -> bool
    ensures { result ≡ any (λ byte. leb (pages * 2 ^ exponent) byte) (touched width address) }
{
    match width {
        Width::One => outside(pages, exponent, address, 0),
        Width::Two => outside(pages, exponent, address, 1) | outside(pages, exponent, address, 0),
    }
}

// The field of a right to the page of the byte so far ahead of an address. The page may have 33 bits, one more than `place` takes.
fn field_at(fields: &[u16], exponent: u8, right: u8, address: u32, ahead: u8) -> u16
    ensures { result ≡ get_or fields.now (place_of right ((address + ahead) / 2 ^ exponent)) 0 }
{
    let page = page_of(address, ahead, exponent) as usize;
    fields.get(2 * page + right as usize).copied().unwrap_or(0)
}

// The page of the byte so far ahead of an address does not give the right through a local context.
fn denied(fields: &[u16], exponent: u8, local: u16, right: u8, address: u32, ahead: u8) -> bool
    ensures { result ≡ eqb (bit_and (get_or fields.now (place_of right ((address + ahead) / 2 ^ exponent)) 0) local) 0 }
{
    field_at(fields, exponent, right, address, ahead) & local == 0
}

// The page of some byte that an access touches does not give the right (RULES 3.2, for 9). What is looked at comes from three places, the lent fields,
// the machine and the live registers, and is handed on as it is: a struct of it would be made here alone, to be taken apart two lines below.
// Each page is asked by itself: fields are never joined. Two bytes on one page, as most are, ask it once.
fn any_denied(
    fields: &[u16],
    exponent: u8,
    local: u16,
    width: Width,
    right: u8,
    address: u32,
) -> bool
    ensures { result ≡ any (λ byte. eqb (bit_and (get_or fields.now (place_of right (byte / 2 ^ exponent)) 0) local) 0) (touched width address) }
{
    match width {
        Width::One => denied(fields, exponent, local, right, address, 0),
        Width::Two => {
            if page_of(address, 1, exponent) == page_of(address, 0, exponent) {
                return denied(fields, exponent, local, right, address, 0);
            }
            denied(fields, exponent, local, right, address, 0)
                | denied(fields, exponent, local, right, address, 1)
        }
    }
}

// What an access reports, from the field of its first byte's page: where it is done in user mode, the domain through which that page gives the right (RULES 3.3).
fn report_through(done: bool, field: u16, local: u16) -> Report
    ensures { result ≡ pick done (Through (as_domain (giving_domain field local))) Nothing }
{
    if done {
        Report::Through(Domain(giving_domain(field, local)))
    } else {
        Report::Nothing
    }
}

impl Answered {
    // The answer with the stack that was lent.
    fn with_saved(mut self, saved: [bool; 8]) -> Answered
        ensures { result ≡ record { number = self.number; machine = with_stack self.machine.depth saved self.machine; report = self.report } }
    {
        self.machine.saved = saved;
        self
    }
}

impl Machine {
    // An answer that reports nothing (RULES 2.13): this machine, and a number.
    pub fn silent(self, number: u8) -> Answered
        ensures { result ≡ silent number self }
    {
        Answered {
            number,
            machine: self,
            report: Report::Nothing,
        }
    }

    // The refusal for 1 (RULES 2.4).
    fn unsound(self) -> Answered
        ensures { result ≡ silent 1 self }
    {
        self.silent(Refusal::Unsound as u8)
    }

    // The answer of a call on the fields that were lent, which the machine now has.
    fn answered_with(mut self, number: u8, fields: [u16; 256]) -> Answered
        ensures { result ≡ silent number (with_fields fields self) }
    {
        self.fields = fields;
        self.silent(number)
    }

    // The answer of a call that replaces the live registers where it is accepted, and changes nothing else. Here, and in the calls on a lent stack, the
    // answer is written out: with `silent` in its place the run copied the machine, 170 instructions for an entry in place of 38.
    fn with_registers_where(mut self, number: u8, registers: Registers) -> Answered
        ensures { result ≡ silent number (with_registers (pick (eqb number 0) registers self.registers) self) }
    {
        self.registers = chosen(number == 0, registers, self.registers);
        Answered {
            number,
            machine: self,
            report: Report::Nothing,
        }
    }

    // The number of an access, from the fields that are lent.
    fn number_of_access(self, fields: &[u16], width: Width, right: u8, address: u32) -> u8
        ensures { result ≡ first (access_checks (with_fields fields.now self) right (touched width address)) }
    {
        let registers = self.registers;
        access_number(
            !(right <= 1),
            any_outside(self.pages, self.exponent, width, address),
            registers.privileged(),
            registers.pending,
            any_denied(
                fields,
                self.exponent,
                registers.local(),
                width,
                right,
                address,
            ),
        )
    }

    // The access on lent fields (RULES 2.10). The machine that comes back keeps its own. The first byte's field is read whether or not a domain is named, and before a
    // violation is kept: of the places that were tried this one costs a run nothing and the mix of calls by value least (docs/PERFORMANCE.md).
    pub fn access_lent(mut self, fields: &[u16], width: Width, right: u8, address: u32) -> Answered
        ensures { result ≡ keeping self (unchecked_of (with_fields fields.now self) (Call.Access width right address)) }
    {
        let mut registers = self.registers;
        let number = self.number_of_access(fields, width, right, address);
        let mut violations = self.violations;
        let field = field_at(fields, self.exponent, right, address, 0);
        let report = report_through(
            (number == 0) & !registers.privileged(),
            field,
            registers.local(),
        );
        if number == VIOLATION {
            registers = registers.with_pending(true);
            violations = Violations {
                last: Some(Violation {
                    program: self.current,
                    right,
                    address,
                }),
            };
        }
        self.registers = registers;
        self.violations = violations;
        Answered {
            number,
            machine: self,
            report,
        }
    }

    // Access to one byte or two from an address on, for a right (RULES 3.2, 3.3).
    #[tactic(auto, using(crate::proofs::Answers::call_checked, crate::proofs::LentParts::access_own))]
    pub fn access(self, width: Width, right: u8, address: u32) -> Answered
        ensures { result ≡ call_of self (Call.Access width right address) }
    {
        if !self.sound() {
            return self.unsound();
        }
        let fields = self.fields;
        self.access_lent(&fields, width, right, address)
    }

    // The number of a grant or a revocation, from the field of that right to that page.
    fn number_of_change(self, right: u8, page: Page, domain: Domain, field: u16) -> u8
        ensures { result ≡ first (change_checks self right page domain (prevailing field)) }
    {
        let registers = self.registers;
        let prevailing = prevailing_of(field);
        change_number(
            !(right <= 1),
            !(page.0 < self.pages),
            !(domain.0 < Machine::DOMAINS),
            registers.privileged(),
            registers.pending,
            is_outside(prevailing, registers.local()),
            is_not_lower(prevailing, domain.0),
        )
    }

    // The grant or the revocation on lent fields, which it alters there: its number (RULES 2.10). Which of the two is told by a flag, as the definition
    // has it (`change_call`); a closure for the bit operation would have to be tied to the call that it stands for.
    pub fn change_lent(
        self,
        fields: &mut [u16],
        granting: bool,
        right: u8,
        page: Page,
        domain: Domain,
    ) -> u8
        ensures value { result ≡ (unchecked_of (with_fields fields.old self) (change_call granting right page domain)).number }
        ensures fields_after { fields.new ≡ (unchecked_of (with_fields fields.old self) (change_call granting right page domain)).machine.fields }
    {
        let at = place(right, page.0 as u32);
        let field = fields.get(at).copied().unwrap_or(0);
        let number = self.number_of_change(right, page, domain, field);
        let changed = changed_bits(granting, field, domain.0);
        store_at(fields, at, chosen(number == 0, changed, field));
        number
    }

    // The grant or the revocation by value, without the check for 1 (RULES 2.8). Always inlined: as a call of its own it copied the machine, and a grant
    // took more than twice the time. With the check in it too, one copy more was left.
    #[inline(always)]
    #[tactic(auto, using(crate::proofs::LentParts::change_alone))]
    fn change_unchecked(self, granting: bool, right: u8, page: Page, domain: Domain) -> Answered
        ensures { result ≡ unchecked_of self (change_call granting right page domain) }
    {
        let mut fields = self.fields;
        let number = self.change_lent(&mut fields, granting, right, page, domain);
        self.answered_with(number, fields)
    }

    // Grant of a right to a page to a domain (RULES 3.4, 3.5).
    #[tactic(auto, using(crate::proofs::Answers::call_checked))]
    pub fn grant(self, right: u8, page: Page, domain: Domain) -> Answered
        ensures { result ≡ call_of self (Call.Grant right page domain) }
    {
        if !self.sound() {
            return self.unsound();
        }
        self.change_unchecked(true, right, page, domain)
    }

    // Revoke of a right to a page from a domain (RULES 3.6, 3.7).
    #[tactic(auto, using(crate::proofs::Answers::call_checked))]
    pub fn revoke(self, right: u8, page: Page, domain: Domain) -> Answered
        ensures { result ≡ call_of self (Call.Revoke right page domain) }
    {
        if !self.sound() {
            return self.unsound();
        }
        self.change_unchecked(false, right, page, domain)
    }

    // The mask command, without the check for 1 (RULES 2.8).
    pub fn set_mask_unchecked(mut self, mask: u16) -> Answered
        ensures { result ≡ unchecked_of self (Call.SetMask mask) }
    {
        let done = replace_mask(self.registers, mask);
        self.registers = done.registers;
        self.silent(done.number)
    }

    // The mask command (RULES 3.8, 3.9). `set_mask_lent` is the one on a register record.
    #[tactic(auto, using(crate::proofs::Answers::call_checked))]
    pub fn set_mask(self, mask: u16) -> Answered
        ensures { result ≡ call_of self (Call.SetMask mask) }
    {
        if !self.sound() {
            return self.unsound();
        }
        self.set_mask_unchecked(mask)
    }

    // Interrupt entry on a lent stack, which it alters there (RULES 2.10).
    pub fn enter_lent(mut self, saved: &mut [bool]) -> Answered
        ensures value { result ≡ keeping self (unchecked_of (with_stack self.depth saved.old self) Call.Enter) }
        ensures saved_after { saved.new ≡ (unchecked_of (with_stack self.depth saved.old self) Call.Enter).machine.saved }
    {
        let mut registers = self.registers;
        let mut depth = self.depth;
        let number = entry_number(!(depth < Machine::DEPTH));
        if depth < Machine::DEPTH {
            store_at(saved, depth as usize, registers.privileged());
            registers = registers.with_pending(false).with_mode(Mode::Privileged);
            depth += 1;
        }
        self.registers = registers;
        self.depth = depth;
        Answered {
            number,
            machine: self,
            report: Report::Nothing,
        }
    }

    // Interrupt entry (RULES 3.10, 3.11).
    #[tactic(auto, using(crate::proofs::Answers::call_checked))]
    pub fn enter(self) -> Answered
        ensures { result ≡ call_of self Call.Enter }
    {
        if !self.sound() {
            return self.unsound();
        }
        let mut saved = self.saved;
        let answer = self.enter_lent(&mut saved);
        answer.with_saved(saved)
    }

    // Return from an interrupt on a lent stack, which it alters there (RULES 2.10).
    pub fn leave_lent(mut self, saved: &mut [bool]) -> Answered
        ensures value { result ≡ keeping self (unchecked_of (with_stack self.depth saved.old self) Call.Return) }
        ensures saved_after { saved.new ≡ (unchecked_of (with_stack self.depth saved.old self) Call.Return).machine.saved }
    {
        let mut registers = self.registers;
        let mut depth = self.depth;
        let number = return_number(!registers.privileged(), depth == 0);
        if number == 0 {
            depth = depth.saturating_sub(1);
            let mode = saved_mode(saved, depth);
            store_at(saved, depth as usize, false);
            registers = registers.with_mode(mode);
        }
        self.registers = registers;
        self.depth = depth;
        Answered {
            number,
            machine: self,
            report: Report::Nothing,
        }
    }

    // Return from an interrupt (RULES 3.12, 3.13).
    #[tactic(auto, using(crate::proofs::Answers::call_checked))]
    pub fn leave(self) -> Answered
        ensures { result ≡ call_of self Call.Return }
    {
        if !self.sound() {
            return self.unsound();
        }
        let mut saved = self.saved;
        let answer = self.leave_lent(&mut saved);
        answer.with_saved(saved)
    }

    // The switch on a lent stack behind a test for soundness that its caller made. The test is handed on, since the table goes through locals
    // here, and a way round them to an answer of its own would cost two copies of the machine (docs/PERFORMANCE.md).
    fn switch_tested(mut self, unsound: bool, saved: &mut [bool], program: u16) -> Answered
        ensures value { result ≡ keeping self (answer_by (pick unsound 1 (own_number_of (with_stack self.depth saved.old self) (Call.Switch program))) (with_stack self.depth saved.old self) (Call.Switch program)) }
        ensures saved_after { saved.new ≡ (answer_by (pick unsound 1 (own_number_of (with_stack self.depth saved.old self) (Call.Switch program))) (with_stack self.depth saved.old self) (Call.Switch program)).machine.saved }
    {
        let mut registers = self.registers;
        let mut current = self.current;
        let mut table = self.table;
        let number = chosen(
            unsound,
            Refusal::Unsound as u8,
            switch_number(
                !registers.privileged(),
                !(self.depth == 1),
                !(program < self.programs),
            ),
        );
        if number == 0 {
            let live = Program {
                context: registers.context,
                mask: registers.mask,
                mode: saved_mode(saved, 0),
            };
            store_at(&mut table, current as usize, live);
            let named = table
                .get(program as usize)
                .copied()
                .unwrap_or(Program::NONE);
            store_at(saved, 0, named.mode.privileged());
            registers = registers.with_mask(named.mask).with_context(named.context);
            current = program;
        }
        self.registers = registers;
        self.current = current;
        self.table = table;
        Answered {
            number,
            machine: self,
            report: Report::Nothing,
        }
    }

    // Switch to a program on a lent stack, which it alters there (RULES 2.10).
    pub fn switch_lent(self, saved: &mut [bool], program: u16) -> Answered
        ensures value { result ≡ keeping self (unchecked_of (with_stack self.depth saved.old self) (Call.Switch program)) }
        ensures saved_after { saved.new ≡ (unchecked_of (with_stack self.depth saved.old self) (Call.Switch program)).machine.saved }
    {
        self.switch_tested(false, saved, program)
    }

    // Switch to a program (RULES 3.14, 3.15).
    pub fn switch_to(self, program: u16) -> Answered
        ensures { result ≡ call_of self (Call.Switch program) }
    {
        let mut saved = self.saved;
        let answer = self.switch_tested(!self.sound(), &mut saved, program);
        answer.with_saved(saved)
    }

    // The kernel's store of a field on lent fields, which it alters there: its number (RULES 2.10).
    pub fn store_lent(self, fields: &mut [u16], right: u8, page: Page, bits: u16) -> u8
        ensures value { result ≡ (unchecked_of (with_fields fields.old self) (Call.StoreField right page bits)).number }
        ensures fields_after { fields.new ≡ (unchecked_of (with_fields fields.old self) (Call.StoreField right page bits)).machine.fields }
    {
        let registers = self.registers;
        let number = field_number(
            !(right <= 1),
            !(page.0 < self.pages),
            !registers.privileged(),
        );
        let at = place(right, page.0 as u32);
        let field = fields.get(at).copied().unwrap_or(0);
        store_at(fields, at, chosen(number == 0, bits, field));
        number
    }

    // The kernel's store of a field (RULES 3.16, 3.17).
    #[tactic(auto, using(crate::proofs::Answers::call_checked, crate::proofs::LentParts::store_alone))]
    pub fn store_field(self, right: u8, page: Page, bits: u16) -> Answered
        ensures { result ≡ call_of self (Call.StoreField right page bits) }
    {
        if !self.sound() {
            return self.unsound();
        }
        let mut fields = self.fields;
        let number = self.store_lent(&mut fields, right, page, bits);
        self.answered_with(number, fields)
    }

    // The kernel's store of the global context, without the check for 1 (RULES 2.8).
    pub fn store_context_unchecked(self, bits: u16) -> Answered
        ensures { result ≡ unchecked_of self (Call.StoreContext bits) }
    {
        let registers = self.registers;
        let number = register_number(!registers.privileged());
        self.with_registers_where(number, registers.with_context(bits))
    }

    // The kernel's store of the global context (RULES 3.18, 3.19).
    #[tactic(auto, using(crate::proofs::Answers::call_checked))]
    pub fn store_context(self, bits: u16) -> Answered
        ensures { result ≡ call_of self (Call.StoreContext bits) }
    {
        if !self.sound() {
            return self.unsound();
        }
        self.store_context_unchecked(bits)
    }

    // The kernel's store of the mask, without the check for 1 (RULES 2.8).
    pub fn store_mask_unchecked(self, bits: u16) -> Answered
        ensures { result ≡ unchecked_of self (Call.StoreMask bits) }
    {
        let registers = self.registers;
        let number = register_number(!registers.privileged());
        self.with_registers_where(number, registers.with_mask(bits))
    }

    // The kernel's store of the mask (RULES 3.20, 3.21).
    #[tactic(auto, using(crate::proofs::Answers::call_checked))]
    pub fn store_mask(self, bits: u16) -> Answered
        ensures { result ≡ call_of self (Call.StoreMask bits) }
    {
        if !self.sound() {
            return self.unsound();
        }
        self.store_mask_unchecked(bits)
    }

    // The kernel's store of the mode, without the check for 1 (RULES 2.8).
    pub fn store_mode_unchecked(self, mode: u16) -> Answered
        ensures { result ≡ unchecked_of self (Call.StoreMode mode) }
    {
        let registers = self.registers;
        let number = mode_number(!(mode <= 1), !registers.privileged());
        self.with_registers_where(number, registers.with_mode(mode_of(mode)))
    }

    // The kernel's store of the mode (RULES 3.22, 3.23).
    #[tactic(auto, using(crate::proofs::Answers::call_checked))]
    pub fn store_mode(self, mode: u16) -> Answered
        ensures { result ≡ call_of self (Call.StoreMode mode) }
    {
        if !self.sound() {
            return self.unsound();
        }
        self.store_mode_unchecked(mode)
    }

    // The question for the last violation, without the check for 1 (RULES 2.8).
    pub fn ask_violation_unchecked(self) -> Answered
        ensures { result ≡ unchecked_of self Call.AskViolation }
    {
        let registers = self.registers;
        let number = register_number(!registers.privileged());
        let report = self.violations.handed_out(number == 0);
        Answered {
            number,
            machine: self,
            report,
        }
    }

    // The question for the last violation (RULES 3.24, 3.25).
    #[tactic(auto, using(crate::proofs::Answers::call_checked))]
    pub fn ask_violation(self) -> Answered
        ensures { result ≡ call_of self Call.AskViolation }
    {
        if !self.sound() {
            return self.unsound();
        }
        self.ask_violation_unchecked()
    }
}

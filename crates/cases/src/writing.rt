// A case of writing: two rounds of a load, calls and a write, the second on the image that the first one wrote. Its bytes are the room of the
// lent buffer (2 bytes, high byte first) and an input as `pagerun` takes it. A record's line has what the call by value named, as that of a run has it. What
// the question for the last violation hands out, which a run does not show, is printed here. No contract can say what is printed, and every function
// states an outcome: so those that print hand a value back.
ghost use Rattle.std.specs.Prelude.{◌≡◌, ◌<◌, ◌⊎◌, length, drop, replicate, IfOk, OnOk, OnErr};
ghost use Rattle.image.specs.Write.{written_of, buffer_after};
ghost use Rattle.run.specs.Records.{calls_of, step_of};
ghost use Rattle.cases.specs.Writing.{room_of, digit_of, digits_of, machine_after, held_of, again_of, rewritten_of};

use image::bytes::word_at;
use image::{load, write};
use machine::{Answered, Call, Machine, Report};
use rules::{Refusal, outcome_number};
use run::{decode, split_input};
use std::io;

// The call of a record on a machine by value, or 18 for a record that is none. The run's `step` makes the same calls on lent parts and without the
// test for soundness.
#[tactic(auto, unfolding(run::specs::Records::step_by))]
fn call_on(machine: Machine, call: Option<Call>) -> Answered
    ensures { result ≡ step_of machine call }
{
    match call {
        None => machine.silent(Refusal::NoSuchCall as u8),
        Some(Call::Access(width, right, address)) => machine.access(width, right, address),
        Some(Call::Grant(right, page, domain)) => machine.grant(right, page, domain),
        Some(Call::Revoke(right, page, domain)) => machine.revoke(right, page, domain),
        Some(Call::SetMask(mask)) => machine.set_mask(mask),
        Some(Call::Enter) => machine.enter(),
        Some(Call::Return) => machine.leave(),
        Some(Call::Switch(program)) => machine.switch_to(program),
        Some(Call::StoreField(right, page, bits)) => machine.store_field(right, page, bits),
        Some(Call::StoreContext(bits)) => machine.store_context(bits),
        Some(Call::StoreMask(bits)) => machine.store_mask(bits),
        Some(Call::StoreMode(mode)) => machine.store_mode(mode),
        Some(Call::AskViolation) => machine.ask_violation(),
    }
}

// Prints what was handed out on a line: program, right and address, or that it was none. Hands it back. A line with a word before its numbers goes out
// in two pieces, here and in `print_round`: how many writes there are is part of what the program does.
fn print_report(rt: &impl Print, report: Report) -> io::Result<Report>
    ensures { IfOk result (λ printed. printed ≡ report) }
{
    match report {
        Report::Denied(violation) => {
            print!(rt; "denied {} ", violation.program)?;
            println!(rt; "{} {}", violation.right, violation.address)?;
        }
        Report::Nothing | Report::Through(_) => println!(rt; "none")?,
    }
    Ok(report)
}

// Prints the last field of a record's line: the domain that was named, or that it was none. Hands the report back.
fn print_name(rt: &impl Print, report: Report) -> io::Result<Report>
    ensures { IfOk result (λ printed. printed ≡ report) }
{
    match report {
        Report::Through(domain) => println!(rt; " {}", domain.0)?,
        Report::Nothing | Report::Denied(_) => println!(rt; " -")?,
    }
    Ok(report)
}

// Prints the number and the answer of a record and what it named, and after the question for the last violation what it handed out. Gives the
// record's number back.
fn print_call(
    rt: &impl Print,
    number: u64,
    call: Option<Call>,
    answered: &Answered,
) -> io::Result<u64>
    ensures { IfOk result (λ printed. printed ≡ number) }
{
    print!(rt; "{number} {}", answered.number)?;
    print_name(rt, answered.report)?;
    if let Some(Call::AskViolation) = call {
        print_report(rt, answered.report)?;
    }
    Ok(number)
}

// Makes the calls one after another, each on the machine that the one before it left, and prints what each answers.
#[tactic(auto, using(crate::proofs::Rounds::one_more, run::proofs::Steps::no_call_left), unfolding(crate::specs::Writing::machine_after))]
fn make_calls(rt: &impl Print, start: Machine, calls: &[u8]) -> io::Result<Machine>
    ensures { IfOk result (λ machine. machine ≡ machine_after start (calls_of calls.now)) }
{
    let mut machine = start;
    let (records, _) = calls.as_chunks::<6>();
    for (i, record) in records.iter().enumerate() {
        let call = decode(*record);
        let answered = call_on(machine, call);
        print_call(rt, 1 + i as u64, call, &answered)?;
        machine = answered.machine;
    }
    Ok(machine)
}

// Loads an image and makes the calls where it loads, prints the answers, and gives the machine that is then held.
#[tactic(auto, unfolding(crate::specs::Writing::held_of))]
fn hold(rt: &impl Print, bytes: &[u8], calls: &[u8]) -> io::Result<Machine>
    ensures { IfOk result (λ machine. machine ≡ held_of bytes.now calls.now) }
{
    let loaded = load(bytes);
    println!(rt; "load {}", loaded.number)?;
    if loaded.number == 0 {
        return make_calls(rt, loaded.machine, calls);
    }
    Ok(loaded.machine)
}

// The upper-case hexadecimal digit of a number. Not `{:X}`, of whose text no contract says anything.
fn digit(number: u8) -> u8
    requires { number < 16 }
    ensures { result ≡ digit_of number }
{
    if number < 10 {
        b'0' + number
    } else {
        b'A' + (number - 10)
    }
}

// The two hexadecimal digits of a byte.
fn digits_of(byte: u8) -> [u8; 2]
    ensures { result ≡ digits_of byte }
{
    [digit(byte / 16), digit(byte % 16)]
}

// Prints bytes in hexadecimal on a line, with a space between two, and answers how many they are.
fn print_bytes(rt: &impl Print, bytes: &[u8]) -> io::Result<usize>
    ensures { IfOk result (λ count. count ≡ length bytes.now) }
{
    for (i, byte) in bytes.iter().enumerate() {
        if i != 0 {
            rt.write_all(b" ")?;
        }
        rt.write_all(&digits_of(*byte))?;
    }
    println!(rt)?;
    Ok(bytes.len())
}

// A round on an image, with the calls and a buffer: prints what the load, the calls and the write answer, and the whole buffer after it, and
// answers how many bytes were written.
fn print_round(rt: &impl Print, bytes: &[u8], calls: &[u8], buffer: &mut [u8]) -> io::Result<usize>
    ensures value { IfOk result (λ count. count ≡ (written_of (held_of bytes.now calls.now) (length buffer.old)).count) }
    ensures buffer_after { OnOk result (buffer.new ≡ buffer_after (held_of bytes.now calls.now) buffer.old) }
    ensures err { OnErr result ((buffer.new ≡ buffer.old) ⊎ (buffer.new ≡ buffer_after (held_of bytes.now calls.now) buffer.old)) }
{
    let machine = hold(rt, bytes, calls)?;
    let written = write(machine, buffer);
    let count = written.unwrap_or(0);
    print!(rt; "write ")?;
    println!(rt; "{} {count}", outcome_number(written))?;
    print_bytes(rt, buffer)?;
    Ok(count)
}

// The two rounds, the second on the bytes that the first wrote, with the same calls; answers how many bytes the second wrote.
#[tactic(auto, using(crate::proofs::Rounds::first_written), unfolding(crate::specs::Writing::again_of))]
fn print_rounds(
    rt: &impl Print,
    bytes: &[u8],
    calls: &[u8],
    first: &mut [u8],
    second: &mut [u8],
) -> io::Result<usize>
    ensures value { IfOk result (λ count. count ≡ (written_of (again_of bytes.now calls.now (length first.old)) (length second.old)).count) }
    ensures first_after { OnOk result (first.new ≡ buffer_after (held_of bytes.now calls.now) first.old) }
    ensures second_after { OnOk result (second.new ≡ buffer_after (again_of bytes.now calls.now (length first.old)) second.old) }
    ensures first_err { OnErr result ((first.new ≡ first.old) ⊎ (first.new ≡ buffer_after (held_of bytes.now calls.now) first.old)) }
    ensures second_err { OnErr result ((second.new ≡ second.old) ⊎ (second.new ≡ buffer_after (again_of bytes.now calls.now (length first.old)) second.old)) }
{
    let count = print_round(rt, bytes, calls, first)?;
    print_round(rt, &first[..count], calls, second)
}

// The room of a case.
fn room_of(bytes: &[u8]) -> usize
    ensures { result ≡ room_of bytes.now }
{
    (word_at(bytes, 0) as usize).min(640)
}

// What follows the first two bytes.
fn past_two(bytes: &[u8]) -> &[u8]
    ensures { result.now ≡ drop 2 bytes.now }
{
    &bytes[bytes.len().min(2)..]
}

// A buffer before a round.
fn fresh() -> [u8; 640]
    ensures { result ≡ replicate 640 238 }
{
    [238u8; 640]
}

// Prints the two rounds of a case, and answers how many bytes the second wrote.
#[tactic(auto, unfolding(crate::specs::Writing::rewritten_of))]
pub fn print_writing(rt: &impl Print, bytes: &[u8]) -> io::Result<usize>
    ensures { IfOk result (λ count. count ≡ rewritten_of bytes.now) }
{
    let room = room_of(bytes);
    let (image, calls) = split_input(past_two(bytes));
    let mut first = fresh();
    let mut second = fresh();
    print_rounds(rt, image, calls, &mut first[..room], &mut second[..room])
}

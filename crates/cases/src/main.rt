// Runs stored cases and prints what each gives, to be held to what the independent program under tests/oracle says. Standard input holds them
// one after another: a kind (1 byte), a length (3 bytes, high byte first), and that many bytes. Kind 1 is a case of writing (writing.rt); a
// case of any other kind is an input, and its text is printed. It reads 524,288 bytes; where there are more, its last line says so.
#![tactic(auto)]

mod writing;

ghost use Rattle.std.specs.Prelude.{◌≡◌, ◌≤◌, length, IfOk};
ghost use Rattle.cases.specs.Cases.{is_writing, end_of, next_of};

use image::bytes::{byte_at, word_at};
use input::read_full;
use std::io;
use writing::print_writing;

// Whether the case at a place of the bytes is one of writing.
fn is_writing(bytes: &[u8], at: usize) -> bool
    ensures { result ≡ is_writing bytes.now at }
{
    byte_at(bytes, at) == 1
}

// Where the case at a place of the bytes ends.
#[tactic(auto, unfolding(crate::specs::Cases::end_of))]
fn end_at(bytes: &[u8], at: usize) -> usize
    requires { at ≤ 524288 }
    ensures { result ≡ end_of bytes.now at }
{
    let high = byte_at(bytes, 1 + at);
    let low = word_at(bytes, 2 + at as u32);
    at + 4 + (65536 * usize::from(high) + usize::from(low))
}

// Prints the text of an input, and answers how long the input is.
fn print_text(rt: &impl Print, input: &[u8]) -> io::Result<usize>
    ensures { IfOk result (λ size. size ≡ length input.now) }
{
    let mut text = [0u8; 100000];
    let size = text::text_of(input, &mut text);
    rt.write_all(&text[..size])?;
    Ok(input.len())
}

// Runs the case at a place of the bytes, where they hold all of it, and answers where the next one stands. Prints the number of the case and what it
// gives.
#[tactic(auto, using(crate::proofs::Places::end_past), unfolding(crate::specs::Cases::next_of))]
fn run_case(rt: &impl Print, bytes: &[u8], at: usize, number: u64) -> io::Result<usize>
    requires { at ≤ 524288 }
    ensures { IfOk result (λ next. next ≡ next_of bytes.now at) }
{
    let end = end_at(bytes, at);
    if bytes.len() < end {
        return Ok(bytes.len());
    }
    println!(rt; "case {number}")?;
    let case = &bytes[at + 4..end];
    if is_writing(bytes, at) {
        print_writing(rt, case)?;
    } else {
        print_text(rt, case)?;
    }
    Ok(end)
}

// Runs the cases one after another, and answers where they end: at the end of the bytes. A `while`, since each case says how far the next one is.
#[tactic(auto, using(crate::proofs::Places::next_past))]
fn run_cases(rt: &impl Print, bytes: &[u8]) -> io::Result<usize>
    requires { length bytes.now ≤ 524288 }
    ensures { IfOk result (λ end. end ≡ length bytes.now) }
{
    let mut at: usize = 0;
    let mut number: u64 = 1;
    while at < bytes.len() {
        at = run_case(rt, bytes, at, number)?;
        number += 1;
    }
    Ok(at)
}

// A buffer for the cases, of a fixed size as all memory of the core's programs is. Its contract tells `main` its length alone: a proof that has half a million zeros in sight does not end.
fn buffer() -> [u8; 524288]
    ensures { 524288 ≡ length result }
{
    [0u8; 524288]
}

fn main(rt: HostRuntime) -> io::Result<()> {
    let mut bytes = buffer();
    let got = read_full(&mut rt.stdin(), &mut bytes)?;
    run_cases(&rt, &bytes[..got])?;
    let mut past = [0u8; 1];
    let more = read_full(&mut rt.stdin(), &mut past)?;
    if more != 0 {
        println!(rt; "more than 524288 bytes: the rest was not read")?;
    }
    Ok(())
}

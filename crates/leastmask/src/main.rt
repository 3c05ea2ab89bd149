// Prints the least mask for subroutines of the programs of images (RULES 12.7). Standard input holds the cases one after another: the length of an image (2 bytes, high byte
// first), the image, a program (2 bytes), a count of pairs (2 bytes), and the pairs, 4 bytes each: right, page. It reads at most 65,536 bytes, and leaves out a case that these cut. For each there is a
// line: which case it is, counted from 1, `start` and how the node started, `mask` and the number, the mask in hexadecimal, and its domains, or `-` where it has none.
#![tactic(auto)]

ghost use Rattle.std.specs.Prelude.{◌≡◌, ◌+◌, ◌++◌, ◌≤◌, ◌/◌, length, drop, IfOk, IfSome};
ghost use Rattle.rules.specs.Domains.{holds};
ghost use Rattle.rules.specs.Refusals.{pick, outcome_number, given_or};
ghost use Rattle.masks.specs.Least.{domain_count, least_mask_of};
ghost use Rattle.leastmask.specs.Asked.{started_of, pair_at, pairs_of};

use image::bytes::word_at;
use image::load;
use input::read_full;
use machine::{Answered, Machine, Report};
use masks::least_mask;
use rules::domains::holds_domain;
use rules::{Refusal, outcome_number};
use std::io;

// What is asked: an image, a program of it, and the bytes of the pairs.
#[derive(Clone, Copy, Debug, PartialEq, Eq)]
struct Case<'a> {
    image: &'a [u8],
    program: u16,
    pairs: &'a [u8],
}

// Starts a node on a program: the load, and the three calls with which a turn begins. A node that does not start is the all-zero machine.
fn start(image: &[u8], program: u16) -> Answered
    ensures { result ≡ started_of image.now program }
{
    let loaded = load(image);
    if loaded.number != 0 {
        return loaded;
    }
    let entered = loaded.machine.enter();
    let switched = entered.machine.switch_to(program);
    if switched.number != 0 {
        return Machine::zero().silent(switched.number);
    }
    switched.machine.leave()
}

// The pair that stands at a place.
fn pair_at(bytes: &[u8], at: u32) -> u32
    requires { at ≤ 65536 }
    ensures { result ≡ pair_at bytes.now at }
{
    65536 * (word_at(bytes, at) as u32) + word_at(bytes, 2 + at) as u32
}

// Stores the pairs of a string of bytes in a lent slice, from its first place on. By index: a proof knows no element of a slice that was lent to
// `iter_mut`.
fn store_pairs(pairs: &mut [u32], bytes: &[u8])
    requires bytes_len_bound { length bytes.now ≤ 65536 }
    requires bytes_in_bounds { length bytes.now / 4 ≤ length pairs.old }
    ensures { pairs.new ≡ pairs_of bytes.now ++ drop (length bytes.now / 4) pairs.old }
{
    for i in 0..bytes.len() / 4 {
        pairs[i] = pair_at(bytes, 4 * (i as u32));
    }
}

// The least mask on a machine for the pairs of a string of bytes.
fn ask(machine: Machine, bytes: &[u8]) -> Result<u16, Refusal>
    requires { length bytes.now ≤ 65536 }
    ensures number { outcome_number result ≡ (least_mask_of machine (pairs_of bytes.now)).number }
    ensures mask { given_or 0 result ≡ (least_mask_of machine (pairs_of bytes.now)).mask }
{
    // As many as the bytes can have: no program takes memory from a heap.
    let mut pairs = [0u32; 16384];
    store_pairs(&mut pairs, bytes);
    least_mask(machine, &pairs[..bytes.len() / 4])
}

// Prints domain s, a space before it, where a mask holds it; answers how many it printed.
fn print_domain(rt: &impl Print, mask: u16, s: u16) -> io::Result<u32>
    ensures { IfOk result (λ count. count ≡ pick (holds mask s) 1 0) }
{
    if holds_domain(mask, s) {
        print!(rt; " {s}")?;
        return Ok(1);
    }
    Ok(0)
}

// Prints the domains of a mask, or that it has none, and ends the line; answers how many they are.
#[tactic(auto, using(masks::proofs::Within::domain_counted, masks::proofs::Within::counted_most))]
fn print_domains(rt: &impl Print, mask: u16) -> io::Result<u32>
    ensures { IfOk result (λ count. count ≡ domain_count mask) }
{
    let mut count: u32 = 0;
    for s in 0..16 {
        count += print_domain(rt, mask, s)?;
    }
    if count == 0 {
        print!(rt; " -")?;
    }
    println!(rt)?;
    Ok(count)
}

// Prints the line of a case; answers how many domains the mask has, which is 0 where there is none.
fn print_line(
    rt: &impl Print,
    which: u64,
    start: u8,
    least: Result<u16, Refusal>,
) -> io::Result<u32>
    ensures { IfOk result (λ count. count ≡ domain_count (given_or 0 least)) }
{
    let number = outcome_number(least);
    let mask = least.unwrap_or(0);
    print!(rt; "{which} start {start} mask {number} {mask:04x}")?;
    print_domains(rt, mask)
}

// Asks a case, prints its line, and hands back what was found.
fn print_case(rt: &impl Print, which: u64, case: Case<'_>) -> io::Result<Result<u16, Refusal>>
    requires { length case.pairs.now ≤ 65536 }
    ensures number { IfOk result (λ least. outcome_number least ≡ (least_mask_of (started_of case.entry.image.now case.entry.program).machine (pairs_of case.entry.pairs.now)).number) }
    ensures mask { IfOk result (λ least. given_or 0 least ≡ (least_mask_of (started_of case.entry.image.now case.entry.program).machine (pairs_of case.entry.pairs.now)).mask) }
{
    let started = start(case.image, case.program);
    let least = ask(started.machine, case.pairs);
    print_line(rt, which, started.number, least)?;
    Ok(least)
}

// The first case of a string of bytes, and the bytes behind it; none where the bytes end before the case does.
fn first_case(bytes: &[u8]) -> Option<(Case<'_>, &[u8])>
    ensures { IfSome result (λ found. length found.0.pairs.now + length found.1.now + 2 ≤ length bytes.now) }
{
    let (head, rest) = bytes.split_at_checked(2)?;
    let (image, rest) = rest.split_at_checked(usize::from(word_at(head, 0)))?;
    let (asked, rest) = rest.split_at_checked(4)?;
    let (pairs, rest) = rest.split_at_checked(4 * usize::from(word_at(asked, 2)))?;
    let case = Case {
        image,
        program: word_at(asked, 0),
        pairs,
    };
    Some((case, rest))
}

// Asks the cases one after another, and answers how many bytes there are. Each case is as long as stands in it, so no `for` knows where it ends.
fn print_cases(rt: &impl Print, bytes: &[u8]) -> io::Result<usize>
    requires { length bytes.now ≤ 65536 }
    ensures { IfOk result (λ count. count ≡ length bytes.now) }
{
    let mut rest = bytes;
    let mut which: u64 = 1;
    while let Some((case, others)) = first_case(rest) {
        let _ = print_case(rt, which, case)?;
        rest = others;
        which += 1;
    }
    Ok(bytes.len())
}

fn main(rt: HostRuntime) -> io::Result<()> {
    // Fixed memory: no program takes any from a heap.
    let mut bytes = [0u8; 65536];
    let got = read_full(&mut rt.stdin(), &mut bytes)?;
    print_cases(&rt, &bytes[..got])?;
    Ok(())
}

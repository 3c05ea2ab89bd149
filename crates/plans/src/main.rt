// Plans stored lists of contexts and prints what each gives, to be held to what the independent program under tests/oracle says. Standard input holds the lists one
// after another: a length (2 bytes, high byte first), and that many bytes, one a context (RULES 11.1). A list that the input cuts is left out. For each there is a
// line: which list it is, counted from 1, the number of its plan, and the sixteen places in hexadecimal.
#![tactic(auto)]

ghost use Rattle.std.specs.Prelude.{◌≡◌, ◌≤◌, length, replicate, IfOk};
ghost use Rattle.rules.specs.Refusals.{outcome_number, given_or};
ghost use Rattle.planner.specs.Plan.{plan_of};

use image::bytes::word_at;
use input::read_full;
use planner::plan;
use rules::{Refusal, outcome_number};
use std::io;

// Prints contexts in hexadecimal, a space before each, and ends the line; answers how many they are.
fn print_contexts(rt: &impl Print, contexts: &[u16]) -> io::Result<usize>
    ensures { IfOk result (λ count. count ≡ length contexts.now) }
{
    let mut count = 0;
    for context in contexts {
        print!(rt; " {context:04x}")?;
        count += 1;
    }
    println!(rt)?;
    Ok(count)
}

// Plans a list, prints the plan, and hands it back.
fn print_plan(rt: &impl Print, list: &[u8], which: u64) -> io::Result<Result<[u16; 16], Refusal>>
    ensures number { IfOk result (λ planned. outcome_number planned ≡ (plan_of list.now).number) }
    ensures contexts { IfOk result (λ planned. given_or (replicate 16 0) planned ≡ (plan_of list.now).contexts) }
{
    let planned = plan(list);
    print!(rt; "{which} {}", outcome_number(planned))?;
    print_contexts(rt, &planned.unwrap_or([0; 16]))?;
    Ok(planned)
}

// Plans the lists one after another, and answers how many bytes there are. Each list is as long as stands before it, so no `for` knows where it ends.
fn print_plans(rt: &impl Print, bytes: &[u8]) -> io::Result<usize>
    requires { length bytes.now ≤ 65536 }
    ensures { IfOk result (λ count. count ≡ length bytes.now) }
{
    let mut rest = bytes;
    let mut which: u64 = 1;
    while let Some((head, tail)) = rest.split_at_checked(2) {
        let count = usize::from(word_at(head, 0));
        let Some((list, others)) = tail.split_at_checked(count) else {
            return Ok(bytes.len());
        };
        let _ = print_plan(rt, list, which)?;
        rest = others;
        which += 1;
    }
    Ok(bytes.len())
}

fn main(rt: HostRuntime) -> io::Result<()> {
    // Fixed memory: no program takes any from a heap.
    let mut bytes = [0u8; 65536];
    let got = read_full(&mut rt.stdin(), &mut bytes)?;
    print_plans(&rt, &bytes[..got])?;
    Ok(())
}

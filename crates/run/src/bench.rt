// The run: its answers into a lent buffer, and what they name into another; and the bench's call, which wants the answers alone (RULES, section 7).
// A buffer is filled from its start, a count comes back as a number, and a name is a number: what the library for C gives on (include/bench.h).
ghost use Rattle.std.specs.Prelude.{◌≡◌, ◌++◌, map, ◌+◌, ◌/◌, ◌≤◌, min, length, drop, set, eqb, true};
ghost use Rattle.std.proofs.lemmas.List.Edits.{sets};
ghost use Rattle.rules.specs.Refusals.{pick};
ghost use Rattle.machine.specs.Machine.{is_sound};
ghost use Rattle.image.specs.Bytes.{word_at};
ghost use Rattle.image.specs.Load.{load_of};
ghost use Rattle.run.specs.Records.{calls_of};
ghost use Rattle.run.specs.Run.{image_of, call_bytes, steps_from, numbers_of, reports_of, sent, sent_reports, name_of};

use crate::records::{decode, step};
use image::bytes::word_at;
use image::load;
use machine::record::{Answered, Machine, Report, store_at};

// Where the calls of an input start: past its image, or at its end.
pub fn calls_start(input: &[u8]) -> usize
    ensures { result ≡ min (2 + word_at input.now 0) (length input.now) }
{
    (2 + word_at(input, 0) as usize).min(input.len())
}

// The two parts of an input (RULES 6.1 to 6.3): its image, and the bytes of its calls.
pub fn split_input(input: &[u8]) -> (&[u8], &[u8])
    ensures image { result.0.now ≡ image_of input.now }
    ensures calls { result.1.now ≡ call_bytes input.now }
{
    let (head, calls) = input.split_at(calls_start(input));
    (&head[head.len().min(2)..], calls)
}

// The load of an image. A function of its own that is never inlined, so that the loop over the calls keeps the registers for itself: 54 instructions a
// call of the bench's mix in place of 64.
#[inline(never)]
fn load_image(image: &[u8]) -> Answered
    ensures { result ≡ load_of image.now }
{
    load(image)
}

// A report as a number of a buffer of names (RULES 7.7).
fn name_of(report: Report) -> u32
    ensures { result ≡ name_of report }
{
    match report {
        Report::Through(domain) => u32::from(domain.0) + 1,
        Report::Nothing | Report::Denied(_) => 0,
    }
}

// What a report names, stored at a place of a lent buffer of names; past its end nothing is stored, so that who wants no names lends no
// place past the load's.
fn store_name(names: &mut [u32], at: usize, report: Report)
    ensures { names.new ≡ set names.old at (name_of report) }
{
    store_at(names, at, name_of(report));
}

// The answers of the calls, stored from the second place of the buffer on; the caller has counted them with the load's, and has seen that there
// is room for them. What they name is stored beside them, as far as there are places. The machine is sound at the start, so that no call needs to
// ask for it. The loop keeps the whole answer and not its machine alone, which would be copied at every turn.
fn answer_calls(start: Machine, calls: &[u8], answers: &mut [u8], names: &mut [u32])
    requires start_value { is_sound start ≡ true }
    requires count_in_bounds { 1 + length calls.now / 6 ≤ length answers.old }
    ensures answers_after { answers.new ≡ sets answers.old 1 (numbers_of (steps_from start (calls_of calls.now))) }
    ensures names_after { names.new ≡ sets names.old 1 (map name_of (reports_of (steps_from start (calls_of calls.now)))) }
{
    let mut fields = start.fields;
    let mut saved = start.saved;
    let mut answered = start.silent(0);
    let (records, _) = calls.as_chunks::<6>();
    for (i, record) in records.iter().enumerate() {
        answered = step(answered.machine, &mut fields, &mut saved, decode(*record));
        answers[1 + i] = answered.number;
        store_name(names, 1 + i, answered.report);
    }
}

// How many answers there are (RULES 7.3): the load's, and after an accepted load one for every six bytes that are left.
fn answer_count(number: u8, left: usize) -> usize
    ensures { result ≡ pick (eqb number 0) (1 + left / 6) 1 }
{
    if number == 0 { 1 + left / 6 } else { 1 }
}

// The run (RULES 7.2 to 7.7): the answers of a whole input, their count, and what they name.
pub fn run_named(input: &[u8], answers: &mut [u8], names: &mut [u32]) -> usize
    ensures value { result ≡ length (sent input.now (length answers.old)) }
    ensures answers_after { answers.new ≡ sent input.now (length answers.old) ++ drop (length (sent input.now (length answers.old))) answers.old }
    ensures names_after { names.new ≡ sets names.old 1 (map name_of (sent_reports input.now (length answers.old))) }
{
    if 32768 < input.len() {
        return 0;
    }
    let (image, calls) = split_input(input);
    let loaded = load_image(image);
    let count = answer_count(loaded.number, calls.len());
    if answers.len() < count {
        return 0;
    }
    answers[0] = loaded.number;
    if loaded.number == 0 {
        answer_calls(loaded.machine, calls, answers, names);
    }
    count
}

// The bench's call (RULES 7.1 to 7.5): the run, lent no place of names.
pub fn bench_run(input: &[u8], answers: &mut [u8]) -> usize
    ensures value { result ≡ length (sent input.now (length answers.old)) }
    ensures answers_after { answers.new ≡ sent input.now (length answers.old) ++ drop (length (sent input.now (length answers.old))) answers.old }
{
    run_named(input, answers, &mut [])
}

// The bench's static library: the run's function for it, exported to C as include/bench.h declares it.
#![tactic(auto)]

ghost use Rattle.std.specs.Prelude.{◌≡◌, ◌++◌, length, drop};
ghost use Rattle.run.specs.Run.{sent};

// The bench's call (RULES 7.1 to 7.5). A crate that others use cannot export a function, so this one calls it and promises the same.
#[unsafe(no_mangle)]
pub extern "C" fn bench_run(input: &[u8], answers: &mut [u8]) -> usize
    ensures value { result ≡ length (sent input.now (length answers.old)) }
    ensures answers_after { answers.new ≡ sent input.now (length answers.old) ++ drop (length (sent input.now (length answers.old))) answers.old }
{
    run::bench_run(input, answers)
}

// The calls over lent records, for C and Rust. Each is engine's, with its contract.
#![tactic(auto)]

ghost use Rattle.std.specs.Prelude.{◌≡◌};
ghost use Rattle.machine.specs.Answers.{answered, fresh_call, run_call, step_call};
ghost use Rattle.machine.specs.Steps.{state_from};

use machine::{FreshReply, RunReply, StepReply};
use thread::Thread;

// A fresh state for the code.
#[unsafe(no_mangle)]
pub extern "C" fn kuspigo_fresh(
    code: &[u8],
    registers: &mut [i32],
    counts: &mut [u32],
    threads: &mut [Thread],
) -> FreshReply
    ensures { answered registers.new counts.new threads.new result ≡ fresh_call code.now (state_from registers.old counts.old threads.old) }
{
    engine::kuspigo_fresh(code, registers, counts, threads)
}

// One pick.
#[unsafe(no_mangle)]
pub extern "C" fn kuspigo_step(
    code: &[u8],
    registers: &mut [i32],
    counts: &mut [u32],
    threads: &mut [Thread],
    pick: u8,
) -> StepReply
    ensures { answered registers.new counts.new threads.new result ≡ step_call code.now (state_from registers.old counts.old threads.old) pick }
{
    engine::kuspigo_step(code, registers, counts, threads, pick)
}

// A list of picks, one after the other.
#[unsafe(no_mangle)]
pub extern "C" fn kuspigo_run(
    code: &[u8],
    registers: &mut [i32],
    counts: &mut [u32],
    threads: &mut [Thread],
    picks: &[u8],
) -> RunReply
    ensures { answered registers.new counts.new threads.new result ≡ run_call code.now (state_from registers.old counts.old threads.old) picks.now }
{
    engine::kuspigo_run(code, registers, counts, threads, picks)
}

// The calls over a state that is lent: every record is read or written one by one, in a slice of any length.
#![tactic(auto)]

ghost use Rattle.std.specs.Prelude.{◌<◌, cond, ◌≡◌, ltb, get_or, length};
ghost use Rattle.engine.specs.InnerEngine.{Admitted, Called, Gathered, drove, underwent};
ghost use Rattle.machine.specs.Answers.{answered, fresh_call, run_call, step_call};
ghost use Rattle.machine.specs.Fits.{RangedThread, TypedThread};
ghost use Rattle.machine.specs.Steps.{state_from};
ghost use Rattle.progress.specs.InnerProgress.{driven, driven_by, picked_by, plained_by, seated_in, which_of};
ghost use Rattle.terms.specs.Numbers.{outcome};
ghost use Rattle.thread.specs.InnerStep.{table_from};
ghost use Rattle.thread.specs.Threads.{blank, spawned};

use progress::{Child, Progress};
use survey::Survey;
use terms::Refusal;
use thread::Thread;

// The lesser of two numbers.
pub fn least(a: usize, b: usize) -> usize
    ensures { result ≡ cond (ltb a b) a b }
{
    a.min(b)
}

// A thread at the start of its own code; with 0 and 0 a record of no thread.
#[tactic(auto, unfolding(thread::specs::Threads::spawned, word::specs::Registers::none))]
pub fn spawned(start: usize, end: usize) -> Thread
    ensures { result ≡ spawned start end }
{
    Thread {
        start,
        end,
        place: start,
        height: 0,
        cells: [0; 64],
        begin: 0,
        base: 0,
        over: 0,
        reads: 0,
        readlog: [0; 64],
        readcounts: [0; 64],
        writes: 0,
        writelog: [0; 64],
        rule: 0,
        backs: 0,
    }
}

// The record itself. Its contract also hands on what a record has by its type: each array has 64 entries, and each number is in its range.
fn known(t: Thread) -> Thread
    ensures same { result ≡ t }
    ensures typed { TypedThread t }
    ensures ranged { RangedThread t }
{
    t
}

// The survey of all records; the counts say which of them have a stale read.
fn gather(threads: &[Thread], counts: &[u32]) -> Survey
    ensures { Gathered counts.now threads.now result }
{
    let mut survey = Survey::start();
    for t in threads {
        let t = known(*t);
        survey = survey.with(t, counts);
    }
    survey
}

// A forked child's record takes its seat.
fn seat(threads: &mut [Thread], child: Option<Child>)
    ensures { threads.new ≡ seated_in child threads.old }
{
    if let Some(child) = child {
        if child.seat < threads.len() {
            threads[child.seat] = spawned(child.start, child.end);
        }
    }
}

// Any pick: its record is taken out, stepped by value and put back; a forked child's record takes its seat.
fn full(
    code: &[u8],
    registers: &mut [i32],
    counts: &mut [u32],
    threads: &mut [Thread],
    pick: u8,
    p: Progress,
) -> Progress
    requires { which_of pick < length threads.old }
    ensures { drove registers.new counts.new threads.new result ≡ driven_by (state_from registers.old counts.old threads.old) (which_of pick) (picked_by code.now (table_from registers.old counts.old) pick (get_or threads.old (which_of pick) blank) p) }
{
    let who = progress::which(pick);
    let t = threads[who];
    let picked = progress::perform(t, code, registers, counts, pick, p);
    threads[who] = picked.thread;
    seat(threads, picked.child);
    picked.progress
}

// A pick that changes the stack, the note and the last rule of its record, or nothing, likewise; any other pick is idle. It and `full` are functions of
// their own, each of which takes the record out and puts it back, for speed: in one body with `turn` the compiler copies the whole record where the ways
// meet (130 ns a pick against 41 in a run of balanced code with 1000 nodes).
fn brief(
    code: &[u8],
    registers: &mut [i32],
    counts: &mut [u32],
    threads: &mut [Thread],
    pick: u8,
    p: Progress,
) -> Progress
    requires { which_of pick < length threads.old }
    ensures { drove registers.new counts.new threads.new result ≡ driven_by (state_from registers.old counts.old threads.old) (which_of pick) (plained_by code.now (table_from registers.old counts.old) pick (get_or threads.old (which_of pick) blank) p) }
{
    let who = progress::which(pick);
    let t = threads[who];
    let picked = progress::plain(t, code, registers, counts, pick, p);
    threads[who] = picked.thread;
    seat(threads, picked.child);
    picked.progress
}

// One pick: by `brief` where that does all of it, else by `full`.
fn turn(
    code: &[u8],
    registers: &mut [i32],
    counts: &mut [u32],
    threads: &mut [Thread],
    pick: u8,
    p: Progress,
) -> Progress
    requires { which_of pick < length threads.old }
    ensures { drove registers.new counts.new threads.new result ≡ driven_by (state_from registers.old counts.old threads.old) (which_of pick) (picked_by code.now (table_from registers.old counts.old) pick (get_or threads.old (which_of pick) blank) p) }
{
    let who = progress::which(pick);
    if progress::is_plain(threads[who], code, pick) {
        brief(code, registers, counts, threads, pick, p)
    } else {
        full(code, registers, counts, threads, pick, p)
    }
}

// The picks of a list, one after the other. Not inlined, for speed (50 ns a pick if inlined, 43 if not).
#[inline(never)]
fn drive(
    code: &[u8],
    registers: &mut [i32],
    counts: &mut [u32],
    threads: &mut [Thread],
    picks: &[u8],
    p: Progress,
) -> Progress
    requires { length threads.old ≡ 16 }
    ensures { drove registers.new counts.new threads.new result ≡ driven code.now picks.now (drove registers.old counts.old threads.old p) }
{
    let mut progress = p;
    for pick in picks {
        progress = turn(code, registers, counts, threads, *pick, progress);
    }
    progress
}

// The progress with which a call begins, unless it is refused. Its contract also hands on the survey, with what the records have by their type. Not inlined,
// so that the survey's room on the stack is free again when the picks begin.
#[inline(never)]
fn admit(
    code: &[u8],
    registers: usize,
    counts: &[u32],
    threads: &[Thread],
    picks: usize,
) -> Result<Progress, Refusal>
    ensures { Admitted code.now registers counts.now threads.now picks (outcome result) }
{
    let survey = gather(threads, counts);
    progress::admitted(code, survey, registers, counts, picks)
}

// A list of picks, unless the call is refused. Its contract also hands on what the records have by their type.
fn call(
    code: &[u8],
    registers: &mut [i32],
    counts: &mut [u32],
    threads: &mut [Thread],
    picks: &[u8],
) -> Result<Progress, Refusal>
    ensures { Called code.now (state_from registers.old counts.old threads.old) picks.now (underwent registers.new counts.new threads.new (outcome result)) }
{
    let progress = admit(code, registers.len(), counts, threads, picks.len())?;
    Ok(drive(code, registers, counts, threads, picks, progress))
}

// A fresh state for the code, laid down over whatever the registers, counts and records held. Refused with 11, then 12; nothing is altered then.
pub fn kuspigo_fresh(
    code: &[u8],
    registers: &mut [i32],
    counts: &mut [u32],
    threads: &mut [Thread],
) -> machine::FreshReply
    ensures { answered registers.new counts.new threads.new result ≡ fresh_call code.now (state_from registers.old counts.old threads.old) }
{
    let admitted = progress::fresh_admitted(code, registers.len(), counts.len(), threads.len());
    if admitted.is_ok() {
        registers.fill(0);
        counts.fill(0);
        threads.fill(spawned(0, 0));
        threads[0] = spawned(5, code.len());
    }
    progress::fresh_reply(admitted)
}

// One pick. Refused with 11, then 12; nothing is altered then.
pub fn kuspigo_step(
    code: &[u8],
    registers: &mut [i32],
    counts: &mut [u32],
    threads: &mut [Thread],
    pick: u8,
) -> machine::StepReply
    ensures { answered registers.new counts.new threads.new result ≡ step_call code.now (state_from registers.old counts.old threads.old) pick }
{
    let picks = [pick];
    let answer = call(code, registers, counts, threads, &picks);
    progress::step_reply(answer)
}

// A list of picks, one after the other. Refused with 11, then 12, then 13; nothing is altered then.
pub fn kuspigo_run(
    code: &[u8],
    registers: &mut [i32],
    counts: &mut [u32],
    threads: &mut [Thread],
    picks: &[u8],
) -> machine::RunReply
    ensures { answered registers.new counts.new threads.new result ≡ run_call code.now (state_from registers.old counts.old threads.old) picks.now }
{
    let answer = call(code, registers, counts, threads, picks);
    progress::run_reply(answer)
}

// What is carried from pick to pick, and one pick of a record, by value; whether a call is refused, and what it answers.
#![tactic(auto)]

ghost use Rattle.std.specs.Prelude.{◌≡◌};
ghost use Rattle.code.specs.Reader.{read_code};
ghost use Rattle.progress.specs.InnerProgress.{accepted_to, admitted_to, advanced_to, beginning, child_of, fresh_admitted_to, fresh_reply_of, given, left_by, picked_by, plain_pick, plained_by, reach_of, run_reply_of, step_reply_of, which_of};
ghost use Rattle.survey.specs.InnerWalk.{survey_fits};
ghost use Rattle.terms.specs.Numbers.{outcome};
ghost use Rattle.stm.specs.Events.{event_number, event_register, turn_number};
ghost use Rattle.thread.specs.InnerStep.{numbered, table_from};
ghost use Rattle.thread.specs.Shown.{child_of as own_of, shown_event};

use terms::{Reason, Refusal};
use thread::{Action, Event, Thread};

// The number of threads, the counts so far, and what the last pick did, in the numbers of a step's answer. (A step's `over` is that of its one
// pick, so far.)
#[derive(Clone, Copy)]
pub struct Progress {
    pub threads: usize,
    pub steps: usize,
    pub idle: usize,
    pub commits: usize,
    pub back: usize,
    pub over: usize,
    // numbers and no Event: StepReply has them so, and a run carries them from pick to pick
    pub event: usize,
    pub register: usize,
    pub turn: usize,
}

// A forked child: its seat and its own code.
#[derive(Clone, Copy)]
pub struct Child {
    pub seat: usize,
    pub start: usize,
    pub end: usize,
}

// What a pick of a record leaves.
#[derive(Clone, Copy)]
pub struct Picked {
    pub thread: Thread,
    pub child: Option<Child>,
    pub progress: Progress,
}

// The child that a pick forked, if it did, at the seat behind so many threads.
fn forked(event: Event, threads: usize) -> Option<Child>
    ensures { result ≡ child_of (event_number (shown_event event)) threads (own_of event).start (own_of event).end }
{
    match event {
        Event::Forked(child) => Some(Child {
            seat: threads,
            start: child.start,
            end: child.end,
        }),
        _ => None,
    }
}

impl Progress {
    // Before the first pick, with so many threads.
    fn beginning(threads: usize) -> Progress
        ensures { result ≡ beginning threads }
    {
        Progress {
            threads,
            steps: 0,
            idle: 0,
            commits: 0,
            back: 0,
            over: 0,
            event: 0,
            register: 0,
            turn: 0,
        }
    }

    // After a pick that did this; the greatest number stays.
    #[tactic(auto, unfolding(crate::specs::InnerProgress::advanced_to, crate::specs::InnerProgress::more_to, stm::specs::Events::event_number, stm::specs::Events::turn_number))]
    fn after(self, event: Event, over: usize) -> Progress
        ensures { result ≡ advanced_to (event_number (shown_event event)) (event_register (shown_event event)) (turn_number (shown_event event)) over self }
    {
        let steps = word::saturating_add(self.steps, 1);
        let next = Progress {
            over: word::saturating_add(self.over, over),
            event: event.number(),
            register: event.register(),
            turn: usize::from(event.is_turn()),
            ..self
        };
        match event {
            Event::Idle => Progress {
                idle: word::saturating_add(self.idle, 1),
                ..next
            },
            Event::Forked(_) => Progress {
                steps,
                threads: word::saturating_add(self.threads, 1),
                ..next
            },
            Event::Committed => Progress {
                steps,
                commits: word::saturating_add(self.commits, 1),
                ..next
            },
            Event::SentBack(_) => Progress {
                steps,
                back: word::saturating_add(self.back, 1),
                ..next
            },
            Event::Pushed | Event::Summed(_) | Event::Begun | Event::Looked(_) | Event::Wrote => {
                Progress { steps, ..next }
            }
        }
    }
}

// The record that a pick takes out: of 16 and above record 0, which is put back as it was. A number and no Option: where two ways meet before a record
// is put back, each copies the whole of it.
#[tactic(auto, unfolding(crate::specs::InnerProgress::which_of))]
pub fn which(pick: u8) -> usize
    ensures { result ≡ which_of pick }
{
    if pick < 16 { pick as usize } else { 0 }
}

// How much of the code a pick has before it: of 16 and above nothing, so that its step is idle. Every pick goes this one way, so that the record is
// copied in and out once.
#[tactic(auto, unfolding(crate::specs::InnerProgress::reach_of))]
fn reach(pick: u8, length: usize) -> usize
    ensures { result ≡ reach_of pick length }
{
    if pick < 16 { length } else { 0 }
}

// What a pick leaves whose step did this.
fn left(a: Action, p: Progress) -> Picked
    ensures { result ≡ left_by (numbered a) p }
{
    let child = forked(a.event, p.threads);
    let progress = p.after(a.event, a.over);
    Picked {
        thread: a.thread,
        child,
        progress,
    }
}

// One pick of the record that was taken out.
pub fn perform(
    t: Thread,
    code: &[u8],
    registers: &mut [i32],
    counts: &mut [u32],
    pick: u8,
    p: Progress,
) -> Picked
    ensures { given result (table_from registers.new counts.new) ≡ picked_by code.now (table_from registers.old counts.old) pick t p }
{
    let reach = reach(pick, code.len());
    let a = t.step(&code[..reach], registers, counts);
    left(a, p)
}

// Whether a pick changes the stack, the note and the last rule of its record and not its logs.
pub fn is_plain(t: Thread, code: &[u8], pick: u8) -> bool
    ensures { result ≡ plain_pick code.now pick t }
{
    let reach = reach(pick, code.len());
    t.is_plain(&code[..reach])
}

// A pick that changes the stack, the note and the last rule of its record, without the copies of the logs that `perform` makes; any other pick is idle. The table
// stays.
pub fn plain(
    t: Thread,
    code: &[u8],
    registers: &mut [i32],
    counts: &mut [u32],
    pick: u8,
    p: Progress,
) -> Picked
    ensures { given result (table_from registers.new counts.new) ≡ plained_by code.now (table_from registers.old counts.old) pick t p }
{
    let reach = reach(pick, code.len());
    let a = t.plain(&code[..reach]);
    left(a, p)
}

// Refused as foreign unless an accepted job compiles to the code.
fn accepted(code: &[u8]) -> Result<(), Refusal>
    ensures { outcome result ≡ accepted_to (read_code code.now) }
{
    match scan::scan_code(code) {
        Ok(_) => Ok(()),
        Err(_) => Err(Reason::ForeignCode.at(0)),
    }
}

// The progress with which a call with code, a state and so many picks begins, unless it is refused.
pub fn admitted(
    code: &[u8],
    survey: survey::Survey,
    registers: usize,
    counts: &[u32],
    picks: usize,
) -> Result<Progress, Refusal>
    ensures { outcome result ≡ admitted_to (read_code code.now) (survey_fits survey code.now registers counts.now 0) survey.count picks }
{
    accepted(code)?;
    if !survey.fits(code, registers, counts, 0) {
        return Err(Reason::ForeignState.at(0));
    }
    if picks > 32768 {
        return Err(Reason::LongList.at(0));
    }
    Ok(Progress::beginning(survey.count))
}

// Whether a fresh state may be laid down over so many registers, counts and records.
pub fn fresh_admitted(
    code: &[u8],
    registers: usize,
    counts: usize,
    records: usize,
) -> Result<(), Refusal>
    ensures { outcome result ≡ fresh_admitted_to (read_code code.now) registers counts records }
{
    accepted(code)?;
    if records != 16 || registers != 64 || counts != 64 {
        return Err(Reason::ForeignState.at(0));
    }
    Ok(())
}

// The answer of `fresh`: the number and the place of a refusal, or 0 and 0.
pub fn fresh_reply(answer: Result<(), Refusal>) -> machine::FreshReply
    ensures { result ≡ fresh_reply_of (outcome answer) }
{
    match answer {
        Ok(_) => machine::FreshReply {
            refusal: 0,
            place: 0,
        },
        Err(refusal) => machine::FreshReply {
            refusal: usize::from(refusal.reason.number()),
            place: refusal.place,
        },
    }
}

// The answer of `step`. One that is refused has the numbers of no pick.
pub fn step_reply(answer: Result<Progress, Refusal>) -> machine::StepReply
    ensures { result ≡ step_reply_of (outcome answer) }
{
    let told = fresh_reply(answer.map(|_| ()));
    let p = answer.unwrap_or(Progress::beginning(0));
    machine::StepReply {
        refusal: told.refusal,
        place: told.place,
        event: p.event,
        register: p.register,
        turn: p.turn,
        over: p.over,
    }
}

// The answer of `run`. One that is refused has the numbers of no pick.
pub fn run_reply(answer: Result<Progress, Refusal>) -> machine::RunReply
    ensures { result ≡ run_reply_of (outcome answer) }
{
    let told = fresh_reply(answer.map(|_| ()));
    let p = answer.unwrap_or(Progress::beginning(0));
    machine::RunReply {
        refusal: told.refusal,
        place: told.place,
        steps: p.steps,
        idle: p.idle,
        commits: p.commits,
        back: p.back,
        over: p.over,
    }
}

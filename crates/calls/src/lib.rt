// The calls on the test program's memory, and what is written of them.
#![tactic(auto)]

ghost use Rattle.std.specs.Prelude.{◌≡◌};
ghost use Rattle.calls.specs.Calls.{left_by};
ghost use Rattle.machine.specs.Answers.{fresh_call, run_call};

use machine::{FreshReply, RunReply, StepReply};
use memory::Memory;
use owned::{Left, Owned};
use text::Refused;

// What a call answers.
trait Answer {
    // the refusal, if it was refused
    fn refusal(&self) -> Option<Refused>;

    // writes the answer of a call that was taken
    fn write(&self);
}

impl Answer for FreshReply {
    fn refusal(&self) -> Option<Refused> {
        Refused::told(self.refusal, self.place)
    }

    fn write(&self) {
        text::write(b"laid");
    }
}

impl Answer for StepReply {
    fn refusal(&self) -> Option<Refused> {
        Refused::told(self.refusal, self.place)
    }

    fn write(&self) {
        text::write_number(b"event ", self.event);
        text::write_number(b" register ", self.register);
        text::write_number(b" turn ", self.turn);
        text::write_number(b" over ", self.over);
    }
}

impl Answer for RunReply {
    fn refusal(&self) -> Option<Refused> {
        Refused::told(self.refusal, self.place)
    }

    fn write(&self) {
        text::write_number(b"steps ", self.steps);
        text::write_number(b" idle ", self.idle);
        text::write_number(b" commits ", self.commits);
        text::write_number(b" back ", self.back);
        text::write_number(b" over ", self.over);
    }
}

// Writes what a call answered, and of the state that it left what `write_state` does; or its refusal.
fn write_left<R: Answer, F: FnOnce(&Owned)>(m: &Memory, left: &Left<R>, write_state: F)
    requires { F.IsAlwaysCallable write_state }
{
    match left.reply.refusal() {
        Some(refused) => memory::write_refused(refused, &m.state, &left.state),
        None => {
            left.reply.write();
            write_state(&left.state);
        }
    }
}

// `fresh` on the memory.
fn call_fresh(code: &[u8], m: Memory) -> Memory
    ensures { result ≡ left_by m (λ s. fresh_call code.now s) }
{
    Memory {
        state: owned::fresh(code, m.state, m.lent).state,
        lent: m.lent,
    }
}

// A fresh state and so many picks.
pub fn begun(code: &[u8], m: Memory, picks: &[u8]) -> Memory
    ensures { result ≡ left_by (left_by m (λ s. fresh_call code.now s)) (λ s. run_call code.now s picks.now) }
{
    let laid = call_fresh(code, m);
    Memory {
        state: owned::run(code, laid.state, laid.lent, picks).state,
        lent: laid.lent,
    }
}

// `fresh`, and what is written of it.
pub fn run_fresh(code: &[u8], m: Memory) {
    write_left(
        &m,
        &owned::fresh(code, m.state, m.lent),
        memory::write_state,
    );
}

// `step` of the one pick, and what is written of it.
pub fn run_step(code: &[u8], m: Memory, picks: &[u8]) {
    if let [pick] = picks {
        write_left(
            &m,
            &owned::step(code, m.state, m.lent, *pick),
            memory::write_state,
        );
    } else {
        text::write_malformed();
    }
}

// `run`, and what is written of it.
pub fn run_run(code: &[u8], m: Memory, picks: &[u8]) {
    write_left(
        &m,
        &owned::run(code, m.state, m.lent, picks),
        memory::write_state,
    );
}

// `run`, what is written of it without threads and registers, and what it leaves.
pub fn run_next(code: &[u8], m: Memory, picks: &[u8]) -> Memory
    ensures { result ≡ left_by m (λ s. run_call code.now s picks.now) }
{
    let left = owned::run(code, m.state, m.lent, picks);
    write_left(&m, &left, |state| memory::write_table_counts(&state.counts));
    Memory {
        state: left.state,
        lent: m.lent,
    }
}

// ---- calls cut in two

// The counts of an answer.
fn counts(reply: &RunReply) -> [usize; 5] {
    [
        reply.steps,
        reply.idle,
        reply.commits,
        reply.back,
        reply.over,
    ]
}

// Whether the picks in two calls, of the first k and of the others, are taken, leave the same as in one call, and their counts add up to those of the one.
fn is_same(code: &[u8], m: &Memory, picks: &[u8], k: usize, whole: &Left<RunReply>) -> bool {
    let first = owned::run(code, m.state, m.lent, text::front(picks, k));
    let second = owned::run(code, first.state, m.lent, text::rest(picks, k));
    let replies = [whole.reply, first.reply, second.reply];
    if replies.iter().any(|reply| reply.refusal != 0) {
        return false;
    }
    let mut sums = counts(&first.reply);
    for (sum, n) in sums.iter_mut().zip(counts(&second.reply)) {
        *sum = sum.wrapping_add(n);
    }
    sums == counts(&whole.reply) && memory::same(&second.state, &whole.state)
}

// `run` in one call and in two, cut at each place, and what is written of it.
pub fn run_cut(code: &[u8], m: Memory, picks: &[u8]) {
    let whole = owned::run(code, m.state, m.lent, picks);
    match (0..=picks.len()).find(|k| !is_same(code, &m, picks, *k, &whole)) {
        Some(k) => text::write_number(b"differs at ", k),
        None => text::write(b"same"),
    }
}

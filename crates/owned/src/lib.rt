// The calls on a state that is owned: registers, counts and records by value, of which the first so many are lent, as far as there are so many, all of them
// handed back. Whoever calls these needs no proof over lent records.
#![tactic(auto)]

ghost use Rattle.std.specs.Prelude.{pos, replicate, ◌≡◌};
ghost use Rattle.machine.specs.Answers.{Returned, answered, fresh_call, run_call, step_call};
ghost use Rattle.machine.specs.Steps.{State, state_from};
ghost use Rattle.owned.specs.Owned.{freshly_run, on_first};
ghost use Rattle.thread.specs.Threads.{blank};

// A state that is owned: one register, one count and one record more than fit any code.
#[derive(Clone, Copy)]
pub struct Owned {
    pub registers: [i32; 65],
    pub counts: [u32; 65],
    pub threads: [thread::Thread; 17],
}

// How many of each a call is lent.
#[derive(Clone, Copy, Debug, PartialEq, Eq)]
pub struct Lent {
    pub registers: usize,
    pub counts: usize,
    pub records: usize,
}

// What a call leaves and answers.
#[derive(Clone, Copy)]
pub struct Left<R> {
    pub state: Owned,
    pub reply: R,
}

// A call on a state that is lent.
pub trait Call {
    type Reply;

    // what it comes to
    ghost comes_to: { Self → State → Returned Self.Reply };

    fn on(
        self,
        registers: &mut [i32],
        counts: &mut [u32],
        threads: &mut [thread::Thread],
    ) -> Self::Reply
        ensures { answered registers.new counts.new threads.new result ≡ comes_to self (state_from registers.old counts.old threads.old) };
}

// Lays down a fresh state.
#[derive(Clone, Copy)]
pub struct FreshCall<'a> {
    pub code: &'a [u8],
}

// Does one pick.
#[derive(Clone, Copy)]
pub struct StepCall<'a> {
    pub code: &'a [u8],
    pub pick: u8,
}

// Does a list of picks.
#[derive(Clone, Copy)]
pub struct RunCall<'a> {
    pub code: &'a [u8],
    pub picks: &'a [u8],
}

impl<'a> Call for FreshCall<'a> {
    type Reply = machine::FreshReply;

    ghost comes_to = { λ c s. fresh_call c.code.now s };

    fn on(
        self,
        registers: &mut [i32],
        counts: &mut [u32],
        threads: &mut [thread::Thread],
    ) -> machine::FreshReply {
        engine::kuspigo_fresh(self.code, registers, counts, threads)
    }
}

impl<'a> Call for StepCall<'a> {
    type Reply = machine::StepReply;

    ghost comes_to = { λ c s. step_call c.code.now s c.pick };

    fn on(
        self,
        registers: &mut [i32],
        counts: &mut [u32],
        threads: &mut [thread::Thread],
    ) -> machine::StepReply {
        engine::kuspigo_step(self.code, registers, counts, threads, self.pick)
    }
}

impl<'a> Call for RunCall<'a> {
    type Reply = machine::RunReply;

    ghost comes_to = { λ c s. run_call c.code.now s c.picks.now };

    fn on(
        self,
        registers: &mut [i32],
        counts: &mut [u32],
        threads: &mut [thread::Thread],
    ) -> machine::RunReply {
        engine::kuspigo_run(self.code, registers, counts, threads, self.picks)
    }
}

// Any of these calls on the first so many, in place.
fn lend_first<C: Call>(
    registers: &mut [i32; 65],
    counts: &mut [u32; 65],
    threads: &mut [thread::Thread; 17],
    lent: Lent,
    call: C,
) -> C::Reply
    ensures { answered registers.new counts.new threads.new result ≡ on_first lent.registers lent.counts lent.records (C.comes_to call) registers.old counts.old threads.old }
{
    call.on(
        &mut registers[..engine::least(lent.registers, 65)],
        &mut counts[..engine::least(lent.counts, 65)],
        &mut threads[..engine::least(lent.records, 17)],
    )
}

// Any of these calls on the first so many.
pub fn lend<C: Call>(mut state: Owned, lent: Lent, call: C) -> Left<C::Reply>
    ensures { answered result.state.registers result.state.counts result.state.threads result.reply ≡ on_first lent.registers lent.counts lent.records (C.comes_to call) state.registers state.counts state.threads }
{
    let reply = lend_first(
        &mut state.registers,
        &mut state.counts,
        &mut state.threads,
        lent,
        call,
    );
    Left { state, reply }
}

// A fresh state.
pub fn fresh(code: &[u8], state: Owned, lent: Lent) -> Left<machine::FreshReply>
    ensures { answered result.state.registers result.state.counts result.state.threads result.reply ≡ on_first lent.registers lent.counts lent.records (λ s. fresh_call code.now s) state.registers state.counts state.threads }
{
    lend(state, lent, FreshCall { code })
}

// One pick.
pub fn step(code: &[u8], state: Owned, lent: Lent, pick: u8) -> Left<machine::StepReply>
    ensures { answered result.state.registers result.state.counts result.state.threads result.reply ≡ on_first lent.registers lent.counts lent.records (λ s. step_call code.now s pick) state.registers state.counts state.threads }
{
    lend(state, lent, StepCall { code, pick })
}

// A list of picks.
pub fn run(code: &[u8], state: Owned, lent: Lent, picks: &[u8]) -> Left<machine::RunReply>
    ensures { answered result.state.registers result.state.counts result.state.threads result.reply ≡ on_first lent.registers lent.counts lent.records (λ s. run_call code.now s picks.now) state.registers state.counts state.threads }
{
    lend(state, lent, RunCall { code, picks })
}

// A fresh state, and a list of picks on it: 64 registers, 64 counts and 16 records, the one behind them 0.
pub fn shown(code: &[u8], picks: &[u8]) -> Left<machine::RunReply>
    ensures { answered result.state.registers result.state.counts result.state.threads result.reply ≡ on_first 64 64 16 (freshly_run code.now picks.now) (replicate 65 (pos 0)) (replicate 65 0) (replicate 17 blank) }
{
    let lent = Lent {
        registers: 64,
        counts: 64,
        records: 16,
    };
    let blank = engine::spawned(0, 0);
    let mut registers = [0; 65];
    let mut counts = [0; 65];
    let mut threads = [blank; 17];
    let fresh = FreshCall { code };
    let laid = lend_first(&mut registers, &mut counts, &mut threads, lent, fresh);
    let run = RunCall { code, picks };
    let reply = lend_first(&mut registers, &mut counts, &mut threads, lent, run);
    Left {
        state: Owned {
            registers,
            counts,
            threads,
        },
        reply,
    }
}

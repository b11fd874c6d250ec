// The state test: what has to be known of the thread records, taken one after the other, and whether they fit the code.
#![tactic(auto)]

ghost use Rattle.std.specs.Prelude.{ℕ, Bool, ◌+◌, ◌-◌, ◌<◌, ◌≤◌, ◌^◌, eqb, length, ◌&&◌, ◌≡◌};
ghost use Rattle.machine.specs.FitTest.{all_zero, at_most_from, within_from};
ghost use Rattle.survey.specs.InnerRecords.{empty_survey, ends_of, every, need_in, needed_in, needs_of, pass_to, put_to, starts_of, tidy, unfit_to, with_to};
ghost use Rattle.survey.specs.InnerWalk.{adds_after, agreeing, all_asked, all_met, asked_for, fall_to, fork_to, going, judge_all, judge_to, known, note_to, noted, rise_to, stay_to, step_to, survey_fits, verdict_in, walk_from, walk_in};

// What the records that came so far leave: the numbers of each thread, how many threads there are, how many records came, and whether
// each of them passed the tests that need no code.
#[derive(Clone, Copy)]
pub struct Survey {
    pub rows: [Row; 16],
    pub count: usize,
    pub seen: usize,
    // a flag and no Option: `with` may not fail, so that a survey that is refused is still one
    pub good: bool,
}

// The numbers of one thread.
#[derive(Clone, Copy)]
pub struct Row {
    pub start: usize,
    pub end: usize,
    pub place: usize,
    pub height: usize,
    pub begin: usize,
    pub base: usize,
    pub over: usize,
    // the fewest COMMITs passed by all threads with which the record fits
    pub need: usize,
}

// How many records have a FORK's child code as their own, and the set of the records that were asked for.
#[derive(Drop)]
struct Asked {
    number: usize,
    asked: u64,
}

// How far the walk along a thread's own code has come: what the instructions before a place leave there, and the records that the
// FORKs passed ask for, each of which has exactly one thread.
#[derive(Clone, Copy)]
struct Walk {
    place: usize,
    height: usize,
    begin: usize,
    base: usize,
    // ADDs passed since the BEGIN of an open transaction
    adds: usize,
    // COMMITs passed
    commits: usize,
    asked: u64,
}

// What threads that fit the code come to: the records that they ask for, and the COMMITs that they have passed.
#[derive(Drop)]
struct Verdict {
    asked: u64,
    commits: usize,
}

// ---- one record

// Whether a test holds at each of 64 places. All of them are looked at, so that several are tested at once: the same loop in plain Rust, over two arrays
// of counts, takes 12 to 14 ns, and 32 to 56 with `all`, which ends early.
fn holds_everywhere<F: Fn(usize) -> bool>(test: F) -> bool
    requires { (v : ℕ) → v < 64 → F.pre test v }
    ensures { (good : ℕ → Bool) → ((v : ℕ) (b : Bool) → v < 64 → F.post test v b → b ≡ good v) → result ≡ every 64 0 good }
{
    let mut held = true;
    for v in 0..64 {
        held &= test(v);
    }
    held
}

// Whether no count of a read log is above the table's, which has 64.
fn is_within(logged: &[u32; 64], counts: &[u32]) -> bool
    requires { length counts.now ≡ 64 }
    ensures { result ≡ within_from 64 0 logged.now counts.now }
{
    holds_everywhere(|v| logged[v] <= counts[v])
}

// Whether no count of the table is above so many: they are compared as counts, so that several are tested at once.
fn is_at_most(counts: &[u32], most: usize) -> bool
    requires { length counts.now ≡ 64 }
    ensures { result ≡ at_most_from 64 0 counts.now most }
{
    let most = most.min(u32::MAX as usize) as u32;
    holds_everywhere(|v| counts[v] <= most)
}

// Whether a record is of no thread: it holds 0 only.
fn is_blank(t: thread::Thread) -> bool
    ensures { result ≡ all_zero t }
{
    let cells = holds_everywhere(|n| t.cells[n] == 0);
    let readlog = holds_everywhere(|v| t.readlog[v] == 0);
    let writelog = holds_everywhere(|v| t.writelog[v] == 0);
    let readcounts = holds_everywhere(|v| t.readcounts[v] == 0);
    (t.start == 0)
        & (t.end == 0)
        & (t.place == 0)
        & (t.height == 0)
        & (t.begin == 0)
        & (t.base == 0)
        & (t.over == 0)
        & (t.reads == 0)
        & (t.writes == 0)
        & (t.rule == 0)
        & (t.backs == 0)
        & cells
        & readlog
        & writelog
        & readcounts
}

// Whether what a thread's record does not use is 0, and its logs are empty outside a transaction.
fn is_tidy(t: thread::Thread) -> bool
    ensures { result ≡ tidy t }
{
    let readlog = holds_everywhere(|v| word::has(t.reads, v as u8) | (t.readlog[v] == 0));
    let writelog = holds_everywhere(|v| word::has(t.writes, v as u8) | (t.writelog[v] == 0));
    let cells = holds_everywhere(|n| (n < t.height) | (t.cells[n] == 0));
    let counts = holds_everywhere(|v| word::has(t.reads, v as u8) | (t.readcounts[v] == 0));
    let shut = (t.begin != 0) | ((t.reads == 0) & (t.writes == 0));
    shut & readlog & writelog & cells & counts
}

// The fewest COMMITs passed by all threads with which a record fits: its number of send-backs, and one more if it has a stale read. Where a count of
// its read log is above the table's no number is enough: the greatest.
#[tactic(auto, unfolding(crate::specs::InnerRecords::needed_in))]
fn needed(low: bool, stale: bool, backs: usize) -> usize
    ensures { result ≡ needed_in low stale backs }
{
    if !low {
        usize::MAX
    } else if stale {
        word::saturating_add(backs, 1)
    } else {
        backs
    }
}

// The same of a record.
#[tactic(auto, unfolding(crate::specs::InnerRecords::need_in))]
fn need(t: thread::Thread, counts: &[u32]) -> usize
    ensures { result ≡ need_in counts.now t }
{
    if counts.len() != 64 {
        return t.backs;
    }
    needed(
        is_within(&t.readcounts, counts),
        t.has_stale(counts),
        t.backs,
    )
}

impl Survey {
    // No record came yet.
    #[tactic(auto, unfolding(crate::specs::InnerRecords::empty_survey))]
    pub fn start() -> Survey
        ensures { result ≡ empty_survey }
    {
        let row = Row {
            start: 0,
            end: 0,
            place: 0,
            height: 0,
            begin: 0,
            base: 0,
            over: 0,
            need: 0,
        };
        Survey {
            rows: [row; 16],
            count: 0,
            seen: 0,
            good: true,
        }
    }

    // No state with these records fits any code.
    #[tactic(auto, unfolding(crate::specs::InnerRecords::unfit_to))]
    fn refuse(self) -> Survey
        ensures { result ≡ unfit_to self }
    {
        Survey {
            good: false,
            ..self
        }
    }

    // A record of no thread came.
    #[tactic(auto, unfolding(crate::specs::InnerRecords::pass_to))]
    fn pass(self) -> Survey
        requires { self.seen < 16 }
        ensures { result ≡ pass_to self }
    {
        Survey {
            seen: self.seen + 1,
            ..self
        }
    }

    // A thread's record came, which needs so many COMMITs passed.
    #[tactic(auto, unfolding(crate::specs::InnerRecords::put_to))]
    fn put(mut self, t: thread::Thread, need: usize) -> Survey
        requires { (self.seen < 16) × (self.count < 16) }
        ensures { result ≡ put_to self t need }
    {
        self.rows[self.seen] = Row {
            start: t.start,
            end: t.end,
            place: t.place,
            height: t.height,
            begin: t.begin,
            base: t.base,
            over: t.over,
            need,
        };
        self.count += 1;
        self.seen += 1;
        self
    }

    // The next record, with every test that needs no code; the counts say whether it has a stale read. (Early returns: as one chain the survey is copied
    // where the ways meet, and a step on one node takes 1,317 ns against 576.)
    pub fn with(self, t: thread::Thread, counts: &[u32]) -> Survey
        ensures { result ≡ with_to self counts.now t }
    {
        if !self.good {
            return self;
        }
        if self.seen >= 16 {
            return self.refuse();
        }
        if t.start == 0 {
            if !is_blank(t) {
                return self.refuse();
            }
            return self.pass();
        }
        if self.count != self.seen {
            return self.refuse();
        }
        if !is_tidy(t) {
            return self.refuse();
        }
        self.put(t, need(t, counts))
    }
}

// ---- a FORK that was passed

// Whether two child codes are the same.
fn is_same(start: usize, end: usize, other_start: usize, other_end: usize) -> bool
    ensures { result ≡ (eqb start other_start && eqb end other_end) }
{
    (start, end) == (other_start, other_end)
}

impl Asked {
    // Record i, if it is one that is asked for.
    #[tactic(auto, unfolding(crate::specs::InnerWalk::noted))]
    fn note(self, i: usize, hit: bool) -> Asked
        requires { (i < 16) × (self.number ≤ i) }
        ensures { result ≡ noted self i hit }
    {
        if !hit {
            return self;
        }
        let record = i as u8;
        let number = self.number + 1;
        Asked {
            number,
            asked: word::insert(self.asked, record),
        }
    }
}

// The records whose own code is this one.
fn ask(rows: &[Row; 16], start: usize, end: usize, asked: u64) -> Asked
    ensures { result ≡ asked_for (starts_of rows.now) (ends_of rows.now) (record { start = start; end = end }) asked }
{
    let mut a = Asked { number: 0, asked };
    for (i, row) in rows.iter().enumerate() {
        a = a.note(i, is_same(row.start, row.end, start, end));
    }
    a
}

// ---- the walk along a thread's own code

// The ADDs since the BEGIN of an open transaction, one more; 0 if none is open.
#[tactic(auto, unfolding(crate::specs::InnerWalk::adds_after))]
fn adds_after(begin: usize, adds: usize) -> usize
    requires { adds < 2 ^ 64 - 1 }
    ensures { result ≡ adds_after begin adds }
{
    if begin == 0 { 0 } else { adds + 1 }
}

impl Walk {
    // PUSH or READ: so many bytes further, and one number more on the stack. None if that is behind the target.
    #[tactic(auto, unfolding(crate::specs::InnerWalk::rise_to, crate::specs::InnerWalk::rose, crate::specs::InnerWalk::lost_walk))]
    fn rise(self, target: usize, size: usize) -> Option<Walk>
        requires { (self.place < target) × (self.height ≤ self.place) }
        ensures { result ≡ walk_in (rise_to (going self) target size) }
    {
        if target - self.place < size {
            return None;
        }
        Some(Walk {
            place: self.place + size,
            height: self.height + 1,
            ..self
        })
    }

    // ADD.
    #[tactic(auto, unfolding(crate::specs::InnerWalk::fall_to))]
    fn fall(self) -> Walk
        requires { (self.place < 2 ^ 64 - 1) × (self.adds ≤ self.place) }
        ensures { going result ≡ fall_to (going self) }
    {
        Walk {
            place: self.place + 1,
            height: self.height.saturating_sub(1),
            adds: adds_after(self.begin, self.adds),
            ..self
        }
    }

    // WRITE.
    #[tactic(auto, unfolding(crate::specs::InnerWalk::stay_to, crate::specs::InnerWalk::lost_walk))]
    fn stay(self, target: usize) -> Option<Walk>
        requires { self.place < target }
        ensures { result ≡ walk_in (stay_to (going self) target) }
    {
        if target - self.place < 2 {
            return None;
        }
        Some(Walk {
            place: self.place + 2,
            ..self
        })
    }

    // BEGIN and COMMIT: other notes, and so many COMMITs passed.
    #[tactic(auto, unfolding(crate::specs::InnerWalk::note_to))]
    fn note(self, begin: usize, base: usize, commits: usize) -> Walk
        requires { self.place < 2 ^ 64 - 1 }
        ensures { going result ≡ note_to (going self) begin base commits }
    {
        Walk {
            place: self.place + 1,
            begin,
            base,
            adds: 0,
            commits,
            ..self
        }
    }

    // FORK: exactly one record has its child code as its own.
    fn fork(self, rows: &[Row; 16], target: usize, size: usize) -> Option<Walk>
        requires { (self.place < target) × (self.height ≤ self.place) }
        ensures { result ≡ walk_in (fork_to (starts_of rows.now) (ends_of rows.now) (going self) target size) }
    {
        let left = target - self.place;
        if left < 3 || left - 3 < size {
            return None;
        }
        let start = self.place + 3;
        let end = start + size;
        let a = ask(rows, start, end, self.asked);
        if a.number != 1 {
            return None;
        }
        Some(Walk {
            place: end,
            height: self.height + 1,
            asked: a.asked,
            ..self
        })
    }

    // One instruction. None if the next one is behind the target, or a FORK has not exactly one thread.
    #[tactic(auto, unfolding(crate::specs::InnerWalk::step_to, crate::specs::InnerWalk::lost_walk))]
    fn step(self, rows: &[Row; 16], target: usize, op: ops::Op) -> Option<Walk>
        requires { (self.place < target) × (self.height ≤ self.place) × (self.adds ≤ self.place) × (self.commits ≤ self.place) }
        ensures { result ≡ walk_in (step_to (starts_of rows.now) (ends_of rows.now) target (going self) op) }
    {
        match op {
            ops::Op::Push(_) => self.rise(target, 5),
            ops::Op::Add => Some(self.fall()),
            ops::Op::Read(_) => self.rise(target, 2),
            ops::Op::Write(_) => self.stay(target),
            ops::Op::Begin => Some(self.note(self.place, self.height, self.commits)),
            ops::Op::Commit => Some(self.note(0, 0, self.commits + 1)),
            ops::Op::Fork(size) => self.fork(rows, target, size),
            ops::Op::Foreign => None,
        }
    }
}

// From a thread's start to its place.
fn walk_to(code: &[u8], rows: &[Row; 16], row: Row, asked: u64) -> Option<Walk>
    ensures { result ≡ walk_in (walk_from code.now (starts_of rows.now) (ends_of rows.now) row.start row.end row.place asked) }
{
    let mut walk = Walk {
        place: row.start,
        height: 0,
        begin: 0,
        base: 0,
        adds: 0,
        commits: 0,
        asked,
    };
    while walk.place < row.place {
        if walk.place >= row.end {
            return None;
        }
        let op = ops::op_at(code, walk.place);
        walk = walk.step(rows, row.place, op)?;
    }
    if walk.place > row.place {
        return None;
    }
    Some(walk)
}

// ---- the threads

// Whether the record has what the walk comes to.
#[tactic(auto, unfolding(crate::specs::InnerWalk::agreeing))]
fn is_agreeing(w: Walk, row: Row) -> bool
    ensures { result ≡ agreeing (going w) row }
{
    w.height == row.height && w.begin == row.begin && w.base == row.base && row.over <= w.adds
}

impl Verdict {
    // One thread more; a record of no thread changes nothing.
    fn judge(self, code: &[u8], rows: &[Row; 16], row: Row) -> Option<Verdict>
        ensures { result ≡ verdict_in (judge_to code.now (starts_of rows.now) (ends_of rows.now) row (known self)) }
    {
        if row.start == 0 {
            return Some(self);
        }
        let w = walk_to(code, rows, row, self.asked)?;
        if !is_agreeing(w, row) {
            return None;
        }
        let commits = word::saturating_add(self.commits, w.commits);
        Some(Verdict {
            asked: w.asked,
            commits,
        })
    }
}

// Whether each thread but the first was asked for.
fn is_all_asked(rows: &[Row; 16], asked: u64) -> bool
    ensures { result ≡ all_asked 15 1 (starts_of rows.now) asked }
{
    rows.iter()
        .enumerate()
        .skip(1)
        .all(|(i, row)| row.start == 0 || word::has(asked, i as u8))
}

// Whether so many COMMITs passed are enough for each record.
fn is_all_met(rows: &[Row; 16], commits: usize) -> bool
    ensures { result ≡ all_met 16 0 (needs_of rows.now) commits }
{
    rows.iter().all(|row| row.need <= commits)
}

impl Survey {
    // Every thread's walk.
    fn judged(&self, code: &[u8]) -> Option<Verdict>
        ensures { result ≡ verdict_in (judge_all code.now self.now) }
    {
        let mut verdict = Verdict {
            asked: 0,
            commits: 0,
        };
        for row in &self.rows {
            verdict = verdict.judge(code, &self.rows, *row)?;
        }
        Some(verdict)
    }

    // Whether the records that came, with so many registers and these counts, are a state that fits the code, beside so many COMMITs that another job's
    // threads have passed over the same registers.
    pub fn fits(self, code: &[u8], registers: usize, counts: &[u32], others: usize) -> bool
        ensures { result ≡ survey_fits self code.now registers counts.now others }
    {
        let records = self.rows.len();
        if !self.good
            || self.seen != records
            || registers != 64
            || counts.len() != 64
            || self.rows[0].start != 5
            || self.rows[0].end != code.len()
        {
            return false;
        }
        let Some(v) = self.judged(code) else {
            return false;
        };
        let commits = word::saturating_add(others, v.commits);
        is_all_asked(&self.rows, v.asked)
            && is_all_met(&self.rows, commits)
            && is_at_most(counts, commits)
    }
}

// The thread record that is lent, and one step of a thread, by value.
#![tactic(auto)]

ghost use Rattle.std.specs.Prelude.{◌+◌, ◌-◌, ◌<◌, ◌≤◌, ◌^◌, IsTrue, length, ◌≡◌};
ghost use Rattle.stm.specs.Counted.{Table};
ghost use Rattle.stm.specs.Events.{event_number, event_register, from_table, is_turn};
ghost use Rattle.stm.specs.Rules.{rule_after};
ghost use Rattle.thread.specs.InnerStep.{Able, Plain, acting, committed, due_op, first_stale_in, found_at, handed, here_op, numbered, performed, plain_in, plain_op, recounted_in, sized_by, source_number, stale_read, stepped, stored_in, summing, table_from, takes_op};
ghost use Rattle.thread.specs.Shown.{shown_event, shown_source};
ghost use Rattle.thread.specs.Threads as threads;
ghost use Rattle.word.specs.Sum.{wrapping};

use ops::Op;

// A thread. Places count from the code's first byte, so 0 is no place; a record whose `start` is 0 is of no thread.
#[repr(C)]
#[derive(Clone, Copy)]
pub struct Thread {
    // its own code: from `start` up to `end`, less the child code of the FORKs in it
    pub start: usize,
    pub end: usize,
    // the next instruction
    pub place: usize,
    // the stack: `height` of its cells are in use
    pub height: usize,
    pub cells: [i32; 64],
    // the notes of the open transaction: its BEGIN's place, the stack height there, and how many of its sums so far left the range of 32 bits;
    // 0 if none is open
    pub begin: usize,
    pub base: usize,
    pub over: usize,
    // the read log and the write log: the set of registers that each marks, and their values
    pub reads: u64,
    pub readlog: [i32; 64],
    // how often commits had written each register of the read log when it entered it
    pub readcounts: [u32; 64],
    pub writes: u64,
    pub writelog: [i32; 64],
    // the last rule that moved it: 0 none, 1 push, 2 sum, 3 fork, 4 begin, 5, 6, 7 read from the write log, the read log, the table, 8 write,
    // 9 commit, 10 + v sent back with lowest stale register v
    pub rule: usize,
    // how often it was sent back
    pub backs: usize,
}

// Where a READ found its value.
#[derive(Clone, Copy, Debug, PartialEq, Eq)]
pub enum Source {
    Writes,
    Reads,
    Table,
}

// A forked child's own code.
#[derive(Clone, Copy, Debug, PartialEq, Eq)]
pub struct Child {
    pub start: usize,
    pub end: usize,
}

// What a step did.
#[derive(Clone, Copy, Debug, PartialEq, Eq)]
pub enum Event {
    Idle,
    Pushed,
    // a sum, and whether a transaction was open
    Summed(bool),
    Forked(Child),
    Begun,
    Looked(Source),
    Wrote,
    Committed,
    // sent back with its first stale register
    SentBack(u8),
}

impl Event {
    // The papers' number of the event.
    #[tactic(auto, unfolding(stm::specs::Events::event_number))]
    #[inline(always)]
    pub fn number(self) -> usize
        ensures { result ≡ event_number (shown_event self) }
    {
        match self {
            Event::Idle => 0,
            Event::Pushed => 1,
            Event::Summed(_) => 2,
            Event::Forked(_) => 3,
            Event::Begun => 4,
            Event::Looked(Source::Writes) => 5,
            Event::Looked(Source::Reads) => 6,
            Event::Looked(Source::Table) => 7,
            Event::Wrote => 8,
            Event::Committed => 9,
            Event::SentBack(_) => 10,
        }
    }

    // The first stale register of a send-back, else 0.
    #[tactic(auto, unfolding(stm::specs::Events::event_register))]
    #[inline(always)]
    pub fn register(self) -> usize
        ensures { result ≡ event_register (shown_event self) }
    {
        match self {
            Event::SentBack(v) => v as usize,
            _ => 0,
        }
    }

    // Whether it is a turn.
    #[inline(always)]
    pub fn is_turn(self) -> bool
        ensures { result ≡ is_turn (shown_event self) }
    {
        matches!(
            self,
            Event::Summed(false) | Event::Forked(_) | Event::Committed
        )
    }

    // The number of the last rule after it; an idle pick leaves it.
    #[tactic(auto, unfolding(stm::specs::Rules::rule_after, stm::specs::Rules::used_by, stm::specs::Rules::rule_number, stm::specs::Events::event_number))]
    #[inline(always)]
    fn rule_after(self, rule: usize) -> usize
        ensures { result ≡ rule_after (shown_event self) rule }
    {
        match self {
            Event::Idle => rule,
            Event::SentBack(v) => 10 + v as usize,
            _ => self.number(),
        }
    }
}

// What a step hands back.
#[derive(Clone, Copy)]
pub struct Action {
    pub thread: Thread,
    pub event: Event,
    // sums that left the range and took effect: 1 for such a sum outside a transaction, the note for a commit, else 0
    pub over: usize,
}

// The first stale register, the first that the set marks and commits have written since it was logged: the walk goes from 0 up and stops there, yielding
// it by `break`, the form that docs/TRACE.md names. The set and the arrays come alone, and not in the record, so that it need not lie in memory.
#[tactic(auto, using(word::proofs::Listed::members_below, crate::proofs::Loops::found_first))]
#[inline(always)]
fn first_stale(reads: u64, readcounts: &[u32; 64], counts: &[u32]) -> Option<u8>
    requires { length counts.now ≡ 64 }
    ensures { result ≡ found_at (first_stale_in 64 0 reads readcounts.now counts.now) }
{
    'found: {
        for v in word::members(reads) {
            if readcounts[v as usize] != counts[v as usize] {
                break 'found Some(v);
            }
        }
        None
    }
}

// The marked values go into the table.
#[tactic(auto, using(word::proofs::Listed::members_below, crate::proofs::Loops::stored_all))]
#[inline(always)]
fn store(writes: u64, writelog: &[i32; 64], registers: &mut [i32])
    requires { length registers.old ≡ 64 }
    ensures { registers.new ≡ stored_in 64 0 writes writelog.now registers.old }
{
    for v in word::members(writes) {
        registers[v as usize] = writelog[v as usize];
    }
}

// Each marked register is written once more; the greatest count stays.
#[tactic(auto, using(word::proofs::Listed::members_below, crate::proofs::Loops::recounted_all, crate::proofs::Loops::risen_min))]
#[inline(always)]
fn recount(writes: u64, counts: &mut [u32])
    requires { length counts.old ≡ 64 }
    ensures { counts.new ≡ recounted_in 64 0 writes counts.old }
{
    for v in word::members(writes) {
        let n = counts[v as usize];
        counts[v as usize] = n.saturating_add(1);
    }
}

// The number of registers, if there are 64 counts beside them, else 0: a number and no `bool`, since `takes_op` and `stepped` compare it with 64.
#[tactic(auto, unfolding(crate::specs::InnerStep::sized_by))]
#[inline(always)]
fn sized(registers: usize, counts: usize) -> usize
    ensures { result ≡ sized_by registers counts }
{
    if counts == 64 { registers } else { 0 }
}

// Every function here is inlined, and one that writes an array of the record takes it into a local and puts it back: else the whole record lies in
// memory and each hand-over copies it (272 ns a pick against 72 in a run of 16 threads).
impl Thread {
    // The record after an event.
    #[inline(always)]
    fn did(mut self, event: Event, over: usize) -> Action
        ensures { result ≡ record { thread = threads.with_rule (rule_after (shown_event event) self.rule) self.backs self; event = event; over = over } }
    {
        self.rule = event.rule_after(self.rule);
        Action {
            thread: self,
            event,
            over,
        }
    }

    // A number on top of the stack, and the next place.
    #[tactic(auto, unfolding(crate::specs::Threads::push))]
    #[inline(always)]
    fn push(mut self, n: i32, next: usize) -> Thread
        requires { self.height < 64 }
        ensures { result ≡ threads.push n next self }
    {
        let mut cells = self.cells;
        cells[self.height] = n;
        self.cells = cells;
        self.height += 1;
        self.place = next;
        self
    }

    // PUSH, ADD or no instruction, in one way: where ways meet before the record is put back, each copies the whole of it. A sum that leaves the range
    // counts at once outside a transaction, and is noted inside.
    #[tactic(auto, unfolding(crate::specs::InnerStep::performed, crate::specs::Threads::push, crate::specs::InnerStep::summing, crate::specs::InnerStep::note_after, crate::specs::InnerStep::over_at_once, crate::specs::InnerStep::outside_turn, crate::specs::InnerStep::rule_at, stm::specs::Rules::rule_after, stm::specs::Rules::used_by, stm::specs::Rules::rule_number, stm::specs::Events::event_number, stm::specs::Events::event_register, stm::specs::Events::turn_number, word::specs::Sum::added))]
    #[inline(always)]
    fn stacked(mut self, op: Op) -> Action
        requires able { Able op 0 self }
        requires plain { Plain op }
        ensures { (table : Table) → handed (numbered result) table ≡ performed wrapping table self op }
    {
        let mut cells = self.cells;
        let (event, over, noted, height, place) = match op {
            Op::Push(n) => {
                cells[self.height] = n;
                (Event::Pushed, 0, self.over, self.height + 1, self.place + 5)
            }
            Op::Add => {
                let top = self.height - 1;
                let sum = word::add(cells[top - 1], cells[top]);
                cells[top - 1] = sum.value;
                cells[top] = 0;
                let over = usize::from(sum.overflowed);
                let place = self.place + 1;
                if self.begin == 0 {
                    (Event::Summed(false), over, self.over, top, place)
                } else {
                    let noted = word::saturating_add(self.over, over);
                    (Event::Summed(true), 0, noted, top, place)
                }
            }
            _ => (Event::Idle, 0, self.over, self.height, self.place),
        };
        self.cells = cells;
        self.height = height;
        self.place = place;
        self.over = noted;
        self.did(event, over)
    }

    // BEGIN
    #[tactic(auto, unfolding(crate::specs::Threads::begin))]
    #[inline(always)]
    fn begin(mut self) -> Thread
        requires { self.place + 1 < 2 ^ 64 }
        ensures { result ≡ threads.begin self }
    {
        self.begin = self.place;
        self.base = self.height;
        self.over = 0;
        self.place += 1;
        self.reads = word::empty();
        self.readlog = [0; 64];
        self.readcounts = [0; 64];
        self.writes = word::empty();
        self.writelog = [0; 64];
        self
    }

    // Where READ of a register finds its value.
    #[tactic(auto, unfolding(crate::specs::Threads::source_of))]
    #[inline(always)]
    fn source(&self, v: u8) -> Source
        ensures { shown_source result ≡ threads.source_of self.now v }
    {
        if word::has(self.writes, v) {
            Source::Writes
        } else if word::has(self.reads, v) {
            Source::Reads
        } else {
            Source::Table
        }
    }

    // The register enters the read log, with its value and its count.
    #[inline(always)]
    fn log(mut self, v: u8, n: i32, count: u32) -> Thread
        requires { v < 64 }
        ensures { result ≡ threads.noted from_table v n count self }
    {
        let mut readlog = self.readlog;
        readlog[v as usize] = n;
        let mut readcounts = self.readcounts;
        readcounts[v as usize] = count;
        self.reads = word::insert(self.reads, v);
        self.readlog = readlog;
        self.readcounts = readcounts;
        self
    }

    // READ. Registers and counts come as two slices, as the C interface lends them.
    #[tactic(auto, unfolding(crate::specs::Threads::read, crate::specs::Threads::source_of, crate::specs::InnerStep::source_number, crate::specs::InnerStep::rule_at, stm::specs::Rules::rule_after, stm::specs::Rules::used_by, stm::specs::Rules::rule_number, stm::specs::Events::event_number, stm::specs::Events::event_register, stm::specs::Events::turn_number))]
    #[inline(always)]
    fn read(self, registers: &[i32], counts: &[u32], v: u8) -> Action
        requires { (v < 64) × (self.height < 64) × (self.place + 2 < 2 ^ 64) × (length registers.now ≡ 64) × (length counts.now ≡ 64) }
        ensures { numbered result ≡ acting (source_number self.writes self.reads v) 0 0 (threads.read (table_from registers.now counts.now) v self) }
    {
        let i = v as usize;
        let next = self.place + 2;
        let source = self.source(v);
        let after = match source {
            Source::Writes => {
                let log = self.writelog;
                self.push(log[i], next)
            }
            Source::Reads => {
                let log = self.readlog;
                self.push(log[i], next)
            }
            Source::Table => self
                .log(v, registers[i], counts[i])
                .push(registers[i], next),
        };
        after.did(Event::Looked(source), 0)
    }

    // WRITE
    #[tactic(auto, unfolding(crate::specs::Threads::write))]
    #[inline(always)]
    fn write(mut self, v: u8) -> Thread
        requires { (v < 64) × (1 ≤ self.height) × (self.height ≤ 64) × (self.place + 2 < 2 ^ 64) }
        ensures { result ≡ threads.write v self }
    {
        let cells = self.cells;
        let mut writelog = self.writelog;
        writelog[v as usize] = cells[self.height - 1];
        self.writes = word::insert(self.writes, v);
        self.writelog = writelog;
        self.place += 2;
        self
    }

    // At a place with a height, no transaction being open: the notes go, also those of an attempt that is sent back.
    #[tactic(auto, unfolding(crate::specs::Threads::closed))]
    #[inline(always)]
    fn closed(self, place: usize, height: usize) -> Thread
        requires { height ≤ 64 }
        ensures { result ≡ threads.closed place height self }
    {
        let mut cells = self.cells;
        cells[height..].fill(0);
        Thread {
            place,
            height,
            cells,
            begin: 0,
            base: 0,
            over: 0,
            reads: word::empty(),
            readlog: [0; 64],
            readcounts: [0; 64],
            writes: word::empty(),
            writelog: [0; 64],
            ..self
        }
    }

    // Whether a register of the read log is stale; in a table of other than 64 counts none is.
    #[tactic(auto, unfolding(crate::specs::InnerStep::stale_read))]
    #[inline(always)]
    pub fn has_stale(self, counts: &[u32]) -> bool
        ensures { result ≡ stale_read counts.now self }
    {
        let readcounts = self.readcounts;
        counts.len() == 64 && first_stale(self.reads, &readcounts, counts).is_some()
    }

    // COMMIT
    #[tactic(auto, unfolding(crate::specs::InnerStep::committed, crate::specs::InnerStep::rule_at, stm::specs::Rules::rule_after, stm::specs::Rules::used_by, stm::specs::Rules::rule_number, stm::specs::Events::event_number, stm::specs::Events::event_register, stm::specs::Events::turn_number))]
    #[inline(always)]
    fn commit(self, registers: &mut [i32], counts: &mut [u32]) -> Action
        requires { (self.height ≤ 64) × (self.base ≤ 64) × (self.place + 1 < 2 ^ 64) × (length registers.old ≡ 64) × (length counts.old ≡ 64) }
        ensures { handed (numbered result) (table_from registers.new counts.new) ≡ committed (table_from registers.old counts.old) self }
    {
        let readcounts = self.readcounts;
        if let Some(v) = first_stale(self.reads, &readcounts, counts) {
            let mut back = self.closed(self.begin, self.base);
            back.backs = word::saturating_add(self.backs, 1);
            return back.did(Event::SentBack(v), 0);
        }
        let writelog = self.writelog;
        store(self.writes, &writelog, registers);
        recount(self.writes, counts);
        self.closed(self.place + 1, self.height)
            .did(Event::Committed, self.over)
    }

    // Whether the record has what the instruction takes: numbers or room on its stack, a height and a base of at most 64, a register and a table of
    // 64, and from its place on the instruction's own bytes in code of this length.
    #[tactic(auto, unfolding(crate::specs::InnerStep::takes_op, crate::specs::InnerStep::enough_for))]
    #[inline(always)]
    fn takes(&self, op: Op, registers: usize, length: usize) -> bool
        ensures is { result ≡ takes_op op self.now.height self.now.base registers (length - self.now.place) }
        ensures able { IsTrue result → Able op registers self.now }
    {
        let height = self.height;
        let left = length.saturating_sub(self.place);
        match op {
            Op::Push(_) => height < 64 && 5 <= left,
            Op::Add => 2 <= height && height <= 64 && 1 <= left,
            Op::Read(v) => v < 64 && registers == 64 && height < 64 && 2 <= left,
            Op::Write(v) => v < 64 && 1 <= height && height <= 64 && 2 <= left,
            Op::Begin => height <= 64 && 1 <= left,
            Op::Commit => self.base <= 64 && registers == 64 && height <= 64 && 1 <= left,
            Op::Fork(size) => 3 <= left && height < 64 && size <= left - 3,
            Op::Foreign => false,
        }
    }

    // The instruction at the record's place; Foreign if there is no such thread, it has ended, or there is none.
    #[tactic(auto, unfolding(crate::specs::InnerStep::here_op))]
    #[inline(always)]
    fn instruction(&self, code: &[u8]) -> Op
        ensures { result ≡ here_op code.now self.now }
    {
        if self.start == 0 || self.place == self.end {
            return Op::Foreign;
        }
        ops::op_at(code, self.place)
    }

    // The instruction at the record's place; Foreign if there is none, or the record has not what it takes.
    #[tactic(auto, unfolding(crate::specs::InnerStep::due_op, crate::specs::InnerStep::able_op, crate::specs::InnerStep::here_op, crate::specs::InnerStep::takes_op))]
    #[inline(always)]
    fn due(&self, code: &[u8], registers: usize) -> Op
        ensures is { result ≡ due_op code.now registers self.now }
        ensures able { Able result registers self.now }
    {
        let op = self.instruction(code);
        if self.takes(op, registers, code.len()) {
            op
        } else {
            Op::Foreign
        }
    }

    // An instruction that is due.
    #[tactic(auto, unfolding(crate::specs::InnerStep::performed, crate::specs::InnerStep::sized_by, crate::specs::Threads::push, crate::specs::InnerStep::rule_at, stm::specs::Rules::rule_after, stm::specs::Rules::used_by, stm::specs::Rules::rule_number, stm::specs::Events::event_number, stm::specs::Events::event_register, stm::specs::Events::turn_number))]
    #[inline(always)]
    fn act(self, op: Op, registers: &mut [i32], counts: &mut [u32]) -> Action
        requires { Able op (sized_by (length registers.old) (length counts.old)) self }
        ensures { handed (numbered result) (table_from registers.new counts.new) ≡ performed wrapping (table_from registers.old counts.old) self op }
    {
        let place = self.place;
        match op {
            Op::Push(_) | Op::Add | Op::Foreign => self.stacked(op),
            Op::Read(v) => self.read(registers, counts, v),
            Op::Write(v) => self.write(v).did(Event::Wrote, 0),
            Op::Begin => self.begin().did(Event::Begun, 0),
            Op::Commit => self.commit(registers, counts),
            Op::Fork(size) => {
                let child = Child {
                    start: place + 3,
                    end: place + 3 + size,
                };
                self.push(0, child.end).did(Event::Forked(child), 0)
            }
        }
    }

    // One instruction, the one at the record's place. Total: where there is none, or the record has not what it takes, it is handed back idle.
    #[inline(always)]
    pub fn step(self, code: &[u8], registers: &mut [i32], counts: &mut [u32]) -> Action
        ensures { handed (numbered result) (table_from registers.new counts.new) ≡ stepped wrapping code.now (table_from registers.old counts.old) self }
    {
        let op = self.due(code, sized(registers.len(), counts.len()));
        self.act(op, registers, counts)
    }

    // The instruction at the record's place if it is PUSH or ADD and the record has what it takes, else Foreign.
    #[tactic(auto, unfolding(crate::specs::InnerStep::plain_op, crate::specs::InnerStep::stack_only, crate::specs::InnerStep::stacked_op, crate::specs::InnerStep::stack_event, crate::specs::InnerStep::due_op, crate::specs::InnerStep::able_op, crate::specs::InnerStep::takes_op))]
    #[inline(always)]
    fn plain_op(&self, code: &[u8]) -> Op
        ensures is { result ≡ plain_op code.now self.now }
        ensures able { Able result 0 self.now }
        ensures plain { Plain result }
    {
        match self.due(code, 0) {
            Op::Push(n) => Op::Push(n),
            Op::Add => Op::Add,
            _ => Op::Foreign,
        }
    }

    // Whether a step is a PUSH or an ADD, which changes the stack, the note and the last rule and not the logs, or is idle because there is no such thread or it has ended.
    #[tactic(auto, unfolding(crate::specs::InnerStep::plain_in, crate::specs::InnerStep::stack_event))]
    #[inline(always)]
    pub fn is_plain(self, code: &[u8]) -> bool
        ensures { result ≡ plain_in code.now self }
    {
        self.start == 0
            || self.place == self.end
            || matches!(self.plain_op(code), Op::Push(_) | Op::Add)
    }

    // One instruction if it is PUSH or ADD; else the record is handed back idle.
    #[inline(always)]
    pub fn plain(self, code: &[u8]) -> Action
        ensures { (table : Table) → handed (numbered result) table ≡ performed wrapping table self (plain_op code.now self) }
    {
        let op = self.plain_op(code);
        self.stacked(op)
    }
}

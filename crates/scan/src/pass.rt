// How far a scan has come, and its steps.
ghost use Rattle.std.specs.Prelude.{◌+◌, ◌*◌, ◌≤◌};

use ops::Op;
use std::cmp;

// What an item of the stack stands for.
#[derive(Clone, Copy, PartialEq, Eq)]
pub(crate) enum Kind {
    // a BEGIN whose COMMIT is to come
    Begun,
    // a FORK whose child's end is to come
    Forked,
    Process,
    Transaction,
}

// An item of the stack, and the depth that its deepest node has at least in the job.
#[derive(Clone, Copy)]
pub(crate) struct Item {
    pub kind: Kind,
    pub reach: u8,
}

// The stack and its height, where the open FORKs' children end and how many are open, whether a transaction is, the place in the
// code, and the job's nodes, FORKs and bytes so far. (Arrays with their heights beside them and not the kit's ArrayVec: a step on 1,000 nodes takes
// 17.2 us against 19.0.)
#[derive(Drop)]
pub(crate) struct Scan {
    pub items: [Item; 64],
    pub height: usize,
    pub ends: [usize; 15],
    pub forked: usize,
    pub inside: bool,
    pub place: usize,
    pub nodes: usize,
    pub forks: usize,
    pub size: usize,
    ghost low: { height ≤ 64 },
    ghost some: { forked ≤ forks },
    ghost few: { forks ≤ 15 },
    ghost noded: { nodes ≤ 1000 },
    ghost sized: { size ≤ 7 + 5 * nodes },
    ghost early: { place ≤ 5005 },
}

impl Kind {
    ghost use Rattle.std.specs.Prelude.{◌≡◌, ◌&&◌, eqb, leb};
    ghost use Rattle.scan.specs.InnerView.{kind_number};

    // Whether an item of this kind and one behind it are the parts of a sum: both processes, or both transactions.
    fn adds(self, right: Kind) -> bool
        ensures { result ≡ leb 2 (kind_number self) && eqb (kind_number right) (kind_number self) }
    {
        matches!(
            (self, right),
            (Kind::Process, Kind::Process) | (Kind::Transaction, Kind::Transaction)
        )
    }
}

// Each step is of the code that was read; where there is none, no job compiles to that code.
impl Scan {
    ghost use Rattle.std.specs.Prelude.{◌≡◌, ◌<◌, ◌-◌, OnSome, get_or};
    ghost use Rattle.code.specs.InnerScan.{bounded, topped, scan_op, scan_start, closes, finished};
    ghost use Rattle.code.specs.Ops as list;
    ghost use Rattle.scan.specs.InnerView.{ShortFork, after, closed, further, kind_number, laid, no_item, op_length, op_stepped, stepped, view};
    ghost use Rattle.script.specs.Outcome.{mapped};

    // Before the first instruction, behind the code's header of 5 bytes; the job has a header of 7.
    pub(crate) fn start() -> Scan
        ensures view { view result ≡ scan_start }
        ensures place { result.place ≡ 5 }
    {
        Scan {
            items: [Item {
                kind: Kind::Begun,
                reach: 0,
            }; 64],
            height: 0,
            ends: [0; 15],
            forked: 0,
            inside: false,
            place: 5,
            nodes: 0,
            forks: 0,
            size: 7,
        }
    }

    // The items from a height on become one, with so many nodes, FORKs and bytes of the job more.
    fn put(
        &mut self,
        height: usize,
        kind: Kind,
        reach: usize,
        inside: bool,
        nodes: usize,
        forks: usize,
        size: usize,
    ) -> Option<()>
        requires room { reach ≤ 64 → height < 64 }
        requires few { (nodes ≤ 1) × (forks ≤ 1) × (size ≤ 5 * nodes) }
        ensures view { after result self.new ≡ bounded (laid self.old height (kind_number kind) reach inside nodes forks size) reach }
        ensures kept { (self.new.place ≡ self.old.place) × (self.new.ends ≡ self.old.ends) × (self.new.forked ≡ self.old.forked) }
        ensures forks { OnSome result (self.new.forks ≡ self.old.forks + forks) }
    {
        if reach > 64 {
            return None;
        }
        // The counts are read before the item is stored: behind that they would be loaded again.
        let nodes = self.nodes + nodes;
        if nodes > 1000 {
            return None;
        }
        let forks = self.forks + forks;
        if forks > 15 {
            return None;
        }
        let size = self.size + size;
        self.items[height] = Item {
            kind,
            reach: reach as u8,
        };
        self.height = height + 1;
        self.inside = inside;
        self.nodes = nodes;
        self.forks = forks;
        self.size = size;
        Some(())
    }

    // The item so many places below the top of the stack, which is at place 1.
    fn top(&self, place: usize) -> Item
        requires { (1 ≤ place) × (place ≤ self.now.height) }
        ensures { result ≡ get_or self.now.items (self.now.height - place) no_item }
    {
        // Field by field, as it was stored: one load of both bytes waits until both stores are through. (A fresh state for eight sums whose right parts are 58
        // deep takes 2.6 us against 4.4.)
        let at = self.height - place;
        Item {
            kind: self.items[at].kind,
            reach: self.items[at].reach,
        }
    }

    // A new item on top.
    fn push(&mut self, kind: Kind, inside: bool, forks: usize, size: usize) -> Option<()>
        requires { (forks ≤ 1) × (size ≤ 5) }
        ensures view { after result self.new ≡ topped (view self.old) (kind_number kind) inside forks size }
        ensures kept { (self.new.place ≡ self.old.place) × (self.new.ends ≡ self.old.ends) × (self.new.forked ≡ self.old.forked) }
        ensures forks { OnSome result (self.new.forks ≡ self.old.forks + forks) }
    {
        let height = self.height;
        self.put(height, kind, height + 1, inside, 1, forks, size)
    }

    // ADD: the two topmost items are both processes or both transactions.
    fn add(&mut self) -> Option<()>
        ensures view { after result self.new ≡ scan_op list.add (view self.old) }
        ensures place { self.new.place ≡ self.old.place }
    {
        if self.height < 2 {
            return None;
        }
        let left = self.top(2);
        let right = self.top(1);
        if !left.kind.adds(right.kind) {
            return None;
        }
        let reach = cmp::max(left.reach as usize + 1, right.reach as usize);
        self.put(self.height - 2, left.kind, reach, self.inside, 1, 0, 1)
    }

    // WRITE: the topmost item is a transaction.
    fn write(&mut self, register: u8) -> Option<()>
        ensures view { after result self.new ≡ scan_op (list.write register) (view self.old) }
        ensures place { self.new.place ≡ self.old.place }
    {
        if self.height < 1 {
            return None;
        }
        let part = self.top(1);
        if !self.inside {
            return None;
        }
        if part.kind != Kind::Transaction {
            return None;
        }
        self.put(
            self.height - 1,
            Kind::Transaction,
            part.reach as usize + 1,
            true,
            1,
            0,
            2,
        )
    }

    // COMMIT: a transaction stands behind its BEGIN.
    fn commit(&mut self) -> Option<()>
        ensures view { after result self.new ≡ scan_op list.commit (view self.old) }
        ensures place { self.new.place ≡ self.old.place }
    {
        if self.height < 2 {
            return None;
        }
        let begun = self.top(2);
        let part = self.top(1);
        if !self.inside {
            return None;
        }
        if part.kind != Kind::Transaction {
            return None;
        }
        if begun.kind != Kind::Begun {
            return None;
        }
        self.put(
            self.height - 2,
            Kind::Process,
            part.reach as usize,
            false,
            0,
            0,
            0,
        )
    }

    // The end of a FORK's child: a process stands behind its FORK, and takes its place.
    fn close(&mut self) -> Option<()>
        requires { 1 ≤ self.old.forked }
        ensures view { after result self.new ≡ closed (view self.old) }
        ensures place { self.new.place ≡ self.old.place }
        ensures forked { OnSome result (self.new.forked + 1 ≡ self.old.forked) }
    {
        if self.height < 2 {
            return None;
        }
        let fork = self.top(2);
        let child = self.top(1);
        if child.kind != Kind::Process {
            return None;
        }
        if fork.kind != Kind::Forked {
            return None;
        }
        self.items[self.height - 2] = child;
        self.height -= 1;
        self.forked -= 1;
        Some(())
    }

    // PUSH, READ, BEGIN: a new item. It has as many bytes in the job as in the code.
    fn leaf(&mut self, kind: Kind, inside: bool, size: usize) -> Option<()>
        requires { (size ≤ 5) × (self.old.place + size ≤ 5005) }
        ensures view { after result self.new ≡ mapped (further size) (topped (view self.old) (kind_number kind) inside 0 size) }
        ensures place { OnSome result (self.new.place ≡ self.old.place + size) }
    {
        // read before the item is stored, as the counts are
        let place = self.place + size;
        self.push(kind, inside, 0, size)?;
        self.place = place;
        Some(())
    }

    // FORK: a child of so many bytes begins behind its three, outside any transaction.
    fn fork(&mut self, size: usize) -> Option<()>
        requires { (self.old.place + 3 ≤ 5005) × (size ≤ 65535) }
        ensures view { after result self.new ≡ stepped (list.fork size) (view self.old) }
        ensures place { OnSome result (self.new.place ≡ self.old.place + 3) }
    {
        if self.inside {
            return None;
        }
        self.push(Kind::Forked, false, 1, 1)?;
        self.place += 3;
        self.ends[self.forked] = self.place + size;
        self.forked += 1;
        Some(())
    }

    // One instruction.
    pub(crate) fn step(&mut self, op: Op) -> Option<()>
        requires place { self.old.place + op_length op ≤ 5005 }
        requires short { ShortFork op }
        ensures view { after result self.new ≡ op_stepped op (view self.old) }
        ensures place { OnSome result (self.new.place ≡ self.old.place + op_length op) }
    {
        let inside = self.inside;
        match op {
            Op::Push(_) => {
                let kind = if inside {
                    Kind::Transaction
                } else {
                    Kind::Process
                };
                self.leaf(kind, inside, 5)
            }
            Op::Add => {
                self.add()?;
                self.place += 1;
                Some(())
            }
            Op::Read(_) => {
                if !inside {
                    return None;
                }
                self.leaf(Kind::Transaction, true, 2)
            }
            Op::Write(register) => {
                self.write(register)?;
                self.place += 2;
                Some(())
            }
            Op::Begin => {
                if inside {
                    return None;
                }
                self.leaf(Kind::Begun, true, 1)
            }
            Op::Commit => {
                self.commit()?;
                self.place += 1;
                Some(())
            }
            Op::Fork(size) => self.fork(size),
            Op::Foreign => None,
        }
    }

    // The children that end at this place.
    pub(crate) fn settle(&mut self) -> Option<()>
        ensures view { after result self.new ≡ closes (view self.old).ends (view self.old) }
        ensures place { self.new.place ≡ self.old.place }
    {
        while self.forked > 0 {
            if self.ends[self.forked - 1] != self.place {
                return Some(());
            }
            self.close()?;
        }
        Some(())
    }

    // The end of the code: no FORK is open, and one process is left.
    pub(crate) fn finish(&self) -> Option<()>
        ensures { after result self.now ≡ finished (view self.now) }
    {
        if self.forked != 0 {
            return None;
        }
        if self.height != 1 {
            return None;
        }
        if self.items[0].kind != Kind::Process {
            return None;
        }
        Some(())
    }
}

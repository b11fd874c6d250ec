// The job reader: which bytes are a job, and what is refused with which number at which place.
#![tactic(auto)]

ghost use Rattle.std.specs.Prelude.{◌+◌, ◌-◌, ◌<◌, ◌≤◌, drop, length, take, List, [], ◌∷◌, ◌≡◌, ◌++◌};
ghost use Rattle.job.specs.Answer.{answer};
ghost use Rattle.job.specs.InnerScan.{CanAdvance, behind, due_part, first_cursor, no_transactions, of_transactions, parts_of, tested, with_kind};
ghost use Rattle.script.specs.Jobs.{root, operand as size};
ghost use Rattle.script.specs.Outcome.{onward};
ghost use Rattle.script.specs.InnerTrees.{sort_of};
ghost use Rattle.script.specs.Reader.{node_at, permitted as may, read_job, read_nodes, short_only, whole};
ghost use Rattle.terms.specs.Numbers.{kind_number, outcome};

use terms::{Kind, Reason, Refusal};

// An accepted job's version, and its code's length in bytes.
#[derive(Clone, Copy, Debug, PartialEq, Eq)]
pub struct Accepted {
    pub version: u16,
    pub length: usize,
}

// A part that is due: the depth of its node, and whether it is a transaction.
#[derive(Clone, Copy)]
struct Due {
    depth: u8,
    transaction: bool,
}

// How far the reader has come: how many nodes are left of the count, how many FORKs there were, where the next node is due, and how many bytes of
// code there are so far.
#[derive(Drop)]
struct Cursor {
    left: usize,
    forks: usize,
    place: usize,
    code: usize,
}

// The transactions so far: where the ATOMIC of the one at hand stands, how many nodes that one has, and where the first ATOMIC stands whose
// transaction has more than 200.
#[derive(Drop)]
struct Transactions {
    atomic: usize,
    nodes: usize,
    long: Option<usize>,
}

// Whether a kind byte may stand where a process or a transaction is due: processes have the kinds 1 to 4, transactions 5 to 8.
fn permitted(byte: u8, transaction: bool) -> bool
    ensures { result ≡ may (sort_of transaction) byte }
{
    match byte {
        1..=4 => !transaction,
        5..=8 => transaction,
        _ => false,
    }
}

// Whether a kind is one of transactions.
fn is_transaction(kind: Kind) -> bool
    ensures { result ≡ of_transactions kind }
{
    match kind {
        Kind::Valp | Kind::Addp | Kind::Atomic | Kind::Fork => false,
        Kind::Valt | Kind::Addt | Kind::Read | Kind::Write => true,
    }
}

// How many bytes a kind's operand has.
#[tactic(auto, unfolding(script::specs::Jobs::operand))]
pub fn operand(kind: Kind) -> usize
    ensures { result ≡ size (kind_number kind) }
{
    match kind {
        Kind::Valp | Kind::Valt => 4,
        Kind::Read | Kind::Write => 1,
        _ => 0,
    }
}

// The tests of a node that is due, in document 01's order.
fn node(job: &[u8], place: usize, due: Due, forks: usize) -> Result<Kind, Refusal>
    ensures { outcome result ≡ tested (node_at (due_part due) forks place (drop place job.now)) }
{
    let length = job.len();
    if place >= length {
        return Err(Reason::Cut.at(place));
    }
    let byte = job[place];
    if !permitted(byte, due.transaction) {
        return Err(Reason::Kind.at(place));
    }
    let Ok(kind) = Kind::try_from(byte) else {
        return Err(Reason::Kind.at(place));
    };
    if due.depth > 64 {
        return Err(Reason::Depth.at(place));
    }
    let size = operand(kind);
    if length - place - 1 < size {
        return Err(Reason::Cut.at(length));
    }
    if size == 1 && job[place + 1] >= 64 {
        return Err(Reason::Register.at(place + 1));
    }
    if kind == Kind::Fork && forks >= 15 {
        return Err(Reason::Forks.at(place));
    }
    Ok(kind)
}

// A part becomes due above so many others; how many are due then. (An array with its height beside it is faster than the kit's ArrayVec, whose length
// lies in memory: read_job takes 488 ns against 638 at 74 nodes. The forecast has its own: no public function has a `requires`.)
fn wait(due: &mut [Due; 65], waiting: usize, part: Due) -> usize
    requires { waiting ≤ 64 }
    ensures count { result ≡ waiting + 1 }
    ensures long { length due.new ≡ 65 }
    ensures parts { take result due.new ≡ take waiting due.old ++ part ∷ [] }
{
    due[waiting] = part;
    waiting + 1
}

// Two parts of the same kind become due.
fn wait_twice(due: &mut [Due; 65], waiting: usize, part: Due) -> usize
    requires { waiting ≤ 63 }
    ensures count { result ≡ waiting + 2 }
    ensures long { length due.new ≡ 65 }
    ensures parts { take result due.new ≡ take waiting due.old ++ part ∷ part ∷ [] }
{
    let one = wait(due, waiting, part);
    wait(due, one, part)
}

impl Cursor {
    // The root is due, behind the header of 7 bytes; its code has a header of 5.
    fn start(count: usize) -> Cursor
        ensures { result ≡ first_cursor count }
    {
        Cursor {
            left: count,
            forks: 0,
            place: 7,
            code: 5,
        }
    }

    // A node of so many bytes is read, which adds so many bytes of code.
    fn read(&mut self, size: usize, code: usize)
        requires { (1 ≤ self.old.left) × (self.old.place + size < 18446744073709551616) × (self.old.code ≤ 6000) × (code ≤ 5) }
        ensures { self.new ≡ record { left = self.old.left - 1; forks = self.old.forks; place = self.old.place + size; code = self.old.code + code } }
    {
        self.left -= 1;
        self.place += size;
        self.code += code;
    }

    // A node is read, and its parts become due at this depth, above so many others. How many are due then.
    #[tactic(auto, unfolding(script::specs::Jobs::operand))]
    fn advance(&mut self, due: &mut [Due; 65], waiting: usize, kind: Kind, depth: u8) -> usize
        requires { CanAdvance self.old kind × (waiting ≤ 63) }
        ensures cursor { self.new ≡ behind self.old kind }
        ensures count { result ≤ waiting + 2 }
        ensures long { length due.new ≡ 65 }
        ensures parts { take result due.new ≡ take waiting due.old ++ parts_of kind depth }
    {
        let process = Due {
            depth,
            transaction: false,
        };
        let transaction = Due {
            depth,
            transaction: true,
        };
        match kind {
            Kind::Valp | Kind::Valt => {
                self.read(5, 5);
                waiting
            }
            Kind::Addp => {
                self.read(1, 1);
                wait_twice(due, waiting, process)
            }
            Kind::Atomic => {
                self.read(1, 2);
                wait(due, waiting, transaction)
            }
            Kind::Fork => {
                self.forks += 1;
                self.read(1, 3);
                wait(due, waiting, process)
            }
            Kind::Addt => {
                self.read(1, 1);
                wait_twice(due, waiting, transaction)
            }
            Kind::Read => {
                self.read(2, 2);
                waiting
            }
            Kind::Write => {
                self.read(2, 2);
                wait(due, waiting, transaction)
            }
        }
    }
}

impl Transactions {
    // No transaction yet.
    fn none() -> Transactions
        ensures { result ≡ no_transactions }
    {
        Transactions {
            atomic: 0,
            nodes: 0,
            long: None,
        }
    }

    // A node of this kind more, which stands at `place`.
    fn count(&mut self, kind: Kind, place: usize)
        requires { self.old.nodes < 18446744073709551615 }
        ensures { self.new ≡ with_kind self.old kind place }
    {
        if kind == Kind::Atomic {
            self.atomic = place;
            self.nodes = 0;
        } else if is_transaction(kind) {
            self.nodes += 1;
            if self.nodes > 200 {
                self.long = self.long.or(Some(self.atomic));
            }
        }
    }
}

// The nodes of a job, as many as its count.
fn nodes(job: &[u8], version: u16, count: usize) -> Result<Accepted, Refusal>
    requires { (7 ≤ length job.now) × (count ≤ 1000) }
    ensures { outcome result ≡ answer (onward (whole version (read_nodes count root 0 7 (drop 7 job.now))) short_only) }
{
    let root = Due {
        depth: 1,
        transaction: false,
    };
    let mut due = [root; 65];
    let mut height = 1;
    let mut cursor = Cursor::start(count);
    let mut transactions = Transactions::none();
    while height > 0 {
        height -= 1;
        // Field by field, as it was stored: one load of both bytes waits until both stores are through. (Compiling eight sums whose left parts are 58 deep
        // takes 5.0 us against 6.4.)
        let part = Due {
            depth: due[height].depth,
            transaction: due[height].transaction,
        };
        let place = cursor.place;
        if cursor.left == 0 {
            return Err(Reason::Length.at(place));
        }
        let kind = node(job, place, part, cursor.forks)?;
        transactions.count(kind, place);
        height = cursor.advance(&mut due, height, kind, part.depth + 1);
    }
    let end = cursor.place;
    if cursor.left > 0 || end < job.len() {
        return Err(Reason::Length.at(end));
    }
    if let Some(atomic) = transactions.long {
        return Err(Reason::LongTransaction.at(atomic));
    }
    Ok(Accepted {
        version,
        length: cursor.code,
    })
}

// Reads a job. Total: every byte string is answered.
pub fn read_job(job: &[u8]) -> Result<Accepted, Refusal>
    ensures { outcome result ≡ answer (read_job job.now) }
{
    if job.len() < 7 {
        return Err(Reason::Cut.at(job.len()));
    }
    if !job.starts_with(b"WSJ") {
        return Err(Reason::Mark.at(0));
    }
    let version = word::number16(job[3], job[4]);
    if version != 1 {
        return Err(Reason::Version.at(3));
    }
    let count = word::number16(job[5], job[6]);
    if !(1..=1000).contains(&count) {
        return Err(Reason::Count.at(5));
    }
    nodes(job, version, usize::from(count))
}

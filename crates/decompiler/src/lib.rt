// Reading code back: the job that compiles to it, in one pass forward over the code.
#![tactic(auto)]

ghost use Rattle.std.specs.Prelude.{ℕ, ◌*◌, ◌+◌, ◌-◌, ◌<◌, ◌≤◌, get_or, length, false, true, List, [], ◌∷◌, ◌≡◌};
ghost use Rattle.decompiler.specs.ReadBackTo.{bytes_of, read_back_to};
ghost use Rattle.decompiler.specs.Opcodes.{Decodes, opcode_number};
ghost use Rattle.decompiler.specs.InnerParts.{job_header};
ghost use Rattle.delivery.specs.Delivered.{onto};
ghost use Rattle.delivery.specs.InnerPlaces.{inserted, placed_at};
ghost use Rattle.decompiler.specs.InnerState.{CanMove, Room, at_end, child_opened, child_shut, first_state, part_grown, part_pushed, parts_merged};
ghost use Rattle.decompiler.specs.InnerWalk.{TurnDue, Restorable, Walk, TurnTaken};
ghost use Rattle.code.specs.Reader.{read_code};
ghost use Rattle.script.specs.Outcome.{done};
ghost use Rattle.script.specs.InnerTrees.{kind_in};
ghost use Rattle.script.specs.Jobs.{Job};
ghost use Rattle.script.specs.Tree.{Proc};
ghost use Rattle.terms.specs.Numbers.{outcome};

use terms::{Kind, Reason, Refusal};

// The first byte of an instruction, from 1 on.
#[derive(Clone, Copy, Debug, PartialEq, Eq)]
pub enum Opcode {
    Push,
    Add,
    Read,
    Write,
    Begin,
    Commit,
    Fork,
}

// A byte that is no opcode.
#[derive(Clone, Copy, Debug, PartialEq, Eq)]
pub struct UnknownOpcode;

impl TryFrom<u8> for Opcode {
    type Error = UnknownOpcode;

    ghost try_from_gives = { Decodes };

    fn try_from(byte: u8) -> Result<Opcode, UnknownOpcode> {
        match byte {
            1 => Ok(Opcode::Push),
            2 => Ok(Opcode::Add),
            3 => Ok(Opcode::Read),
            4 => Ok(Opcode::Write),
            5 => Ok(Opcode::Begin),
            6 => Ok(Opcode::Commit),
            7 => Ok(Opcode::Fork),
            _ => Err(UnknownOpcode),
        }
    }
}

impl Opcode {
    // The opcode's byte in code.
    pub fn byte(self) -> u8
        ensures { result ≡ opcode_number self }
    {
        match self {
            Opcode::Push => 1,
            Opcode::Add => 2,
            Opcode::Read => 3,
            Opcode::Write => 4,
            Opcode::Begin => 5,
            Opcode::Commit => 6,
            Opcode::Fork => 7,
        }
    }
}

// Puts bytes at a place of `out`. (The compiler has its own: no public function has a `requires`.)
fn put(out: &mut [u8], place: usize, bytes: &[u8])
    requires { place + length bytes.now ≤ length out.old }
    ensures { out.new ≡ placed_at place bytes.now out.old }
{
    out[place..place + bytes.len()].copy_from_slice(bytes);
}

// Puts bytes in front of a part of `out`.
fn insert(out: &mut [u8], start: usize, end: usize, bytes: &[u8])
    requires { (start ≤ end) × (end + length bytes.now ≤ length out.old) }
    ensures { out.new ≡ inserted start end bytes.now out.old }
{
    delivery::shift(out, start, end, bytes.len());
    put(out, start, bytes);
}

// A job's header: its mark, the code's version, and the node count.
fn put_header(code: &[u8], nodes: usize, out: &mut [u8])
    requires { (5 ≤ length code.now) × (7 ≤ length out.old) }
    ensures { out.new ≡ onto (job_header code.now nodes) out.old }
{
    put(
        out,
        0,
        &[
            0x57,
            0x53,
            0x4A,
            code[3],
            code[4],
            word::high(nodes),
            word::low(nodes),
        ],
    );
}

// How far the pass has come: where each part on the stack starts in the job, and how many parts there are; where each open FORK's child
// ends, and how many are open; whether a transaction is; where the next instruction is; and how many bytes of the job there are. (Arrays with their
// heights beside them and not the kit's ArrayVec: reading back 1,000 nodes takes 23.9 us against 26.7.)
#[derive(Drop)]
struct Pass {
    starts: [usize; 64],
    height: usize,
    ends: [usize; 15],
    forked: usize,
    inside: bool,
    place: usize,
    size: usize,
}

impl Pass {
    // Nothing is read yet but the code's header, and nothing written but the job's.
    fn start() -> Pass
        ensures { result ≡ first_state }
    {
        Pass {
            starts: [0; 64],
            height: 0,
            ends: [0; 15],
            forked: 0,
            inside: false,
            place: 5,
            size: 7,
        }
    }

    // A part is put on the stack, behind those that are there.
    #[tactic(auto, unfolding(crate::specs::InnerState::part_pushed))]
    fn stack(&mut self, read: usize, written: usize, inside: bool)
        requires { (self.old.height < 64) × (self.old.place + read < 18446744073709551616) × (self.old.size + written < 18446744073709551616) }
        ensures { self.new ≡ part_pushed self.old read written inside }
    {
        // Read before the array is written: behind that they would be loaded again. (With the like in the scan, reading back ten nodes takes 102 ns against 133.)
        let (height, place, size) = (self.height, self.place, self.size);
        self.starts[height] = size;
        self.height = height + 1;
        self.inside = inside;
        self.place = place + read;
        self.size = size + written;
    }

    // The topmost part becomes part of the one below it.
    #[tactic(auto, unfolding(crate::specs::InnerState::parts_merged))]
    fn merge(&mut self, read: usize, written: usize, inside: bool)
        requires { (1 ≤ self.old.height) × (self.old.place + read < 18446744073709551616) × (self.old.size + written < 18446744073709551616) }
        ensures { self.new ≡ parts_merged self.old read written inside }
    {
        self.height -= 1;
        self.inside = inside;
        self.place += read;
        self.size += written;
    }

    // Whether the innermost child ends here.
    fn is_at_end(&self) -> bool
        requires { self.now.forked ≤ 15 }
        ensures { result ≡ at_end self.now }
    {
        self.forked > 0 && self.ends[self.forked - 1] == self.place
    }

    // The innermost child has ended.
    #[tactic(auto, unfolding(crate::specs::InnerState::child_shut))]
    fn close(&mut self)
        requires { (1 ≤ self.old.forked) × (1 ≤ self.old.height) }
        ensures { self.new ≡ child_shut self.old }
    {
        self.height -= 1;
        self.forked -= 1;
    }

    // PUSH: a value's node, behind the parts that are there.
    fn push(&mut self, code: &[u8], out: &mut [u8])
        requires { Room self.old.height self.old.place self.old.size 5 5 (length code.now) (length out.old) }
        ensures state { self.new ≡ part_pushed self.old 5 5 self.old.inside }
        ensures output { out.new ≡ placed_at self.old.size (kind_in self.old.inside 1 ∷ get_or code.now (self.old.place + 1) 0 ∷ get_or code.now (self.old.place + 2) 0 ∷ get_or code.now (self.old.place + 3) 0 ∷ get_or code.now (self.old.place + 4) 0 ∷ []) out.old }
    {
        let kind = if self.inside { Kind::Valt } else { Kind::Valp };
        let place = self.place;
        let node = [
            kind.byte(),
            code[place + 1],
            code[place + 2],
            code[place + 3],
            code[place + 4],
        ];
        put(out, self.size, &node);
        self.stack(5, 5, self.inside);
    }

    // ADD: a sum's kind byte goes in front of the two topmost parts, which become one.
    fn add(&mut self, out: &mut [u8])
        requires { CanMove self.old.starts self.old.height self.old.place self.old.size 2 1 1 65536 (length out.old) }
        ensures state { self.new ≡ parts_merged self.old 1 1 self.old.inside }
        ensures output { out.new ≡ inserted (get_or self.old.starts (self.old.height - 2) 0) self.old.size (kind_in self.old.inside 2 ∷ []) out.old }
    {
        let kind = if self.inside { Kind::Addt } else { Kind::Addp };
        insert(out, self.starts[self.height - 2], self.size, &[kind.byte()]);
        self.merge(1, 1, self.inside);
    }

    // READ: its node, behind the parts that are there.
    fn read(&mut self, code: &[u8], out: &mut [u8])
        requires { Room self.old.height self.old.place self.old.size 2 2 (length code.now) (length out.old) }
        ensures state { self.new ≡ part_pushed self.old 2 2 true }
        ensures output { out.new ≡ placed_at self.old.size (7 ∷ get_or code.now (self.old.place + 1) 0 ∷ []) out.old }
    {
        put(out, self.size, &[Kind::Read.byte(), code[self.place + 1]]);
        self.stack(2, 2, true);
    }

    // WRITE: its kind byte and its register go in front of the topmost part.
    #[tactic(auto, unfolding(crate::specs::InnerState::part_grown))]
    fn write(&mut self, code: &[u8], out: &mut [u8])
        requires { CanMove self.old.starts self.old.height self.old.place self.old.size 1 2 2 (length code.now) (length out.old) }
        ensures state { self.new ≡ part_grown self.old 2 2 }
        ensures output { out.new ≡ inserted (get_or self.old.starts (self.old.height - 1) 0) self.old.size (8 ∷ get_or code.now (self.old.place + 1) 0 ∷ []) out.old }
    {
        let node = [Kind::Write.byte(), code[self.place + 1]];
        insert(out, self.starts[self.height - 1], self.size, &node);
        self.place += 2;
        self.size += 2;
    }

    // BEGIN: the kind byte of ATOMIC, which COMMIT makes one part with the transaction behind it.
    fn begin(&mut self, out: &mut [u8])
        requires { Room self.old.height self.old.place self.old.size 1 1 65536 (length out.old) }
        ensures state { self.new ≡ part_pushed self.old 1 1 true }
        ensures output { out.new ≡ placed_at self.old.size (3 ∷ []) out.old }
    {
        put(out, self.size, &[Kind::Atomic.byte()]);
        self.stack(1, 1, true);
    }

    // FORK: its kind byte, which becomes one part with the child where the child ends.
    fn fork(&mut self, code: &[u8], out: &mut [u8])
        requires room { Room self.old.height self.old.place self.old.size 3 1 (length code.now) (length out.old) }
        requires few { self.old.forked < 15 }
        requires short { length code.now ≤ 65536 }
        ensures state { self.new ≡ child_opened (part_pushed self.old 3 1 false) (self.old.place + 3 + (get_or code.now (self.old.place + 1) 0 * 256 + get_or code.now (self.old.place + 2) 0)) }
        ensures output { out.new ≡ placed_at self.old.size (4 ∷ []) out.old }
    {
        put(out, self.size, &[Kind::Fork.byte()]);
        let child = word::number16(code[self.place + 1], code[self.place + 2]);
        let end = self.place + 3 + child as usize;
        self.stack(3, 1, false);
        self.ends[self.forked] = end;
        self.forked += 1;
    }

    // One turn: the end of one child, which changes no byte, or one instruction.
    fn step(&mut self, code: &[u8], out: &mut [u8])
        requires { TurnDue code.now out.old self.old }
        ensures { (head before : List ℕ) (p : Proc) → Walk code.now head before p out.old self.old → TurnTaken code.now head before p out.new self.old self.new }
    {
        if self.is_at_end() {
            self.close();
            return;
        }
        let Ok(opcode) = Opcode::try_from(code[self.place]) else {
            // every instruction has an opcode
            return;
        };
        match opcode {
            Opcode::Push => self.push(code, out),
            Opcode::Add => self.add(out),
            Opcode::Read => self.read(code, out),
            Opcode::Write => self.write(code, out),
            Opcode::Begin => self.begin(out),
            Opcode::Commit => self.merge(1, 0, false),
            Opcode::Fork => self.fork(code, out),
        }
    }
}

// Writes the job that compiles to this code to the front of `out`. Not inlined, so that its room on the stack is not yet taken while the code is scanned.
#[inline(never)]
fn restore(code: &[u8], nodes: usize, out: &mut [u8])
    requires { Restorable code.now nodes out.old }
    ensures { (j : Job) → read_code code.now ≡ done j → out.new ≡ onto (bytes_of j) out.old }
{
    put_header(code, nodes, out);
    let mut pass = Pass::start();
    while pass.place < code.len() {
        pass.step(code, out);
    }
}

// Reads code back into the front of `out`. Total: any bytes, any output.
pub fn read_back(code: &[u8], out: &mut [u8]) -> Result<usize, Refusal>
    ensures { read_back_to code.now out.old ≡ record { answer = outcome result; output = out.new } }
{
    let scanned = scan::scan_code(code)?;
    if out.len() < scanned.size {
        return Err(Reason::ShortTray.at(0));
    }
    restore(code, scanned.nodes, out);
    Ok(scanned.size)
}

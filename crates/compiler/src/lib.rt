// The compiler: a job's stack code, written into the front of a lent output.
#![tactic(auto)]

ghost use Rattle.std.specs.Prelude.{◌+◌, ◌<◌, ◌≤◌, length, [], ◌∷◌, ◌≡◌};
ghost use Rattle.compiler.specs.CompileTo.{compile_to};
ghost use Rattle.decompiler.specs.ReadBackTo.{read_back_to};
ghost use Rattle.delivery.specs.Delivered.{onto};
ghost use Rattle.compiler.specs.InnerEmit.{Emitted, Has, Emittable, fork_bytes, code_header, part as answer, push_bytes, read_bytes};
ghost use Rattle.delivery.specs.InnerPlaces.{placed_at};
ghost use Rattle.script.specs.Tree.{Sort, Tree};
ghost use Rattle.terms.specs.Numbers.{outcome};

use decompiler::Opcode;
use terms::{Kind, Reason, Refusal};

// Puts bytes at a place of `out`. (The decompiler has its own: no public function has a `requires`.)
fn put(out: &mut [u8], place: usize, bytes: &[u8])
    requires { place + length bytes.now ≤ length out.old }
    ensures { out.new ≡ placed_at place bytes.now out.old }
{
    out[place..place + bytes.len()].copy_from_slice(bytes);
}

// What emitting a node comes to: the place behind the node in the job, and how many bytes of code were written.
#[derive(Drop)]
struct Part {
    next: usize,
    size: usize,
}

impl Part {
    // A node of as many bytes as its code.
    fn leaf(at: usize, code: &[u8], out: &mut [u8]) -> Part
        requires { (at + length code.now < 18446744073709551616) × (length code.now ≤ length out.old) }
        ensures { (result ≡ answer (at + length code.now) (length code.now)) × (out.new ≡ onto code.now out.old) }
    {
        put(out, 0, code);
        Part {
            next: at + code.len(),
            size: code.len(),
        }
    }

    // The same with more code behind it.
    fn then(self, code: &[u8], out: &mut [u8]) -> Part
        requires { self.size + length code.now ≤ length out.old }
        ensures { (result ≡ answer self.next (self.size + length code.now)) × (out.new ≡ placed_at self.size code.now out.old) }
    {
        put(out, self.size, code);
        Part {
            size: self.size + code.len(),
            ..self
        }
    }
}

// Mark and version of the code.
fn put_header(out: &mut [u8], version: u16)
    requires { 5 ≤ length out.old }
    ensures { out.new ≡ onto (code_header version) out.old }
{
    let version = usize::from(version);
    put(
        out,
        0,
        &[0x57, 0x53, 0x43, word::high(version), word::low(version)],
    );
}

// PUSH of the number whose four bytes are the operand of the node at a place.
fn put_push(job: &[u8], at: usize, out: &mut [u8]) -> Part
    requires { (at + 5 ≤ length job.now) × (5 ≤ length out.old) }
    ensures { (result ≡ answer (at + 5) 5) × (out.new ≡ onto (push_bytes job.now at) out.old) }
{
    let push = Opcode::Push.byte();
    let code = [push, job[at + 1], job[at + 2], job[at + 3], job[at + 4]];
    Part::leaf(at, &code, out)
}

// READ of the register that is the operand of the node at a place.
fn put_read(job: &[u8], at: usize, out: &mut [u8]) -> Part
    requires { (at + 2 ≤ length job.now) × (2 ≤ length out.old) }
    ensures { (result ≡ answer (at + 2) 2) × (out.new ≡ onto (read_bytes job.now at) out.old) }
{
    Part::leaf(at, &[Opcode::Read.byte(), job[at + 1]], out)
}

// ADD behind the code of both parts, the left one being `size` bytes long.
fn put_add(out: &mut [u8], size: usize, right: Part) -> Part
    requires { size + right.size + 1 ≤ length out.old }
    ensures { (result ≡ answer right.next (size + right.size + 1)) × (out.new ≡ placed_at (size + right.size) (2 ∷ []) out.old) }
{
    let both = Part {
        size: size + right.size,
        ..right
    };
    both.then(&[Opcode::Add.byte()], out)
}

// BEGIN in front of a transaction's code, and COMMIT behind it.
fn put_atomic(out: &mut [u8], part: Part) -> Part
    requires { 1 + part.size + 1 ≤ length out.old }
    ensures { (result ≡ answer part.next (1 + part.size + 1)) × (out.new ≡ placed_at (1 + part.size) (6 ∷ []) (onto (5 ∷ []) out.old)) }
{
    put(out, 0, &[Opcode::Begin.byte()]);
    let begun = Part {
        size: 1 + part.size,
        ..part
    };
    begun.then(&[Opcode::Commit.byte()], out)
}

// FORK and the length of its child's code, in front of that code.
fn put_fork(out: &mut [u8], child: Part) -> Part
    requires { child.size + 3 ≤ length out.old }
    ensures { (result ≡ answer child.next (child.size + 3)) × (out.new ≡ onto (fork_bytes child.size) out.old) }
{
    put(
        out,
        0,
        &[
            Opcode::Fork.byte(),
            word::high(child.size),
            word::low(child.size),
        ],
    );
    Part {
        size: child.size + 3,
        ..child
    }
}

// Writes the code of the tree whose node stands at a place of the job to the front of `out`, each byte once. The rest of `out` is lent on
// for the part that comes next, and for a FORK's child what starts behind its FORK. The tree is at most `depth` deep.
fn emit(job: &[u8], at: usize, depth: u8, out: &mut [u8]) -> Part
    requires { Emittable job.now at depth (length out.old) }
    ensures { (s : Sort) (t : Tree s) → Has job.now at s t → Emitted at result out.old out.new s t }
{
    let Ok(kind) = Kind::try_from(job[at]) else {
        // every node has a kind
        return Part { next: at, size: 0 };
    };
    match kind {
        Kind::Valp | Kind::Valt => put_push(job, at, out),
        Kind::Atomic => {
            let part = emit(job, at + 1, depth - 1, &mut out[1..]);
            put_atomic(out, part)
        }
        Kind::Fork => {
            let child = emit(job, at + 1, depth - 1, &mut out[3..]);
            put_fork(out, child)
        }
        Kind::Read => put_read(job, at, out),
        Kind::Write => {
            let part = emit(job, at + 2, depth - 1, out);
            part.then(&[Opcode::Write.byte(), job[at + 1]], out)
        }
        Kind::Addp | Kind::Addt => {
            let left = emit(job, at + 1, depth - 1, out);
            let right = emit(job, left.next, depth - 1, &mut out[left.size..]);
            put_add(out, left.size, right)
        }
    }
}

// Compiles a job into the front of `out`. Total: any bytes, any output. The code's length is known before the first byte is written.
pub fn compile(job: &[u8], out: &mut [u8]) -> Result<usize, Refusal>
    ensures { compile_to job.now out.old ≡ record { answer = outcome result; output = out.new } }
{
    let accepted = job::read_job(job)?;
    if out.len() < accepted.length {
        return Err(Reason::ShortTray.at(0));
    }
    put_header(out, accepted.version);
    emit(job, 7, 64, &mut out[5..]);
    Ok(accepted.length)
}

// Reads code back into the front of `out`. Total: any bytes, any output.
pub fn read_back(code: &[u8], out: &mut [u8]) -> Result<usize, Refusal>
    ensures { read_back_to code.now out.old ≡ record { answer = outcome result; output = out.new } }
{
    decompiler::read_back(code, out)
}

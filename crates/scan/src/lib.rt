// Whether code is foreign, and what is known of the job that compiles to it: one pass over the code, with a stack of 64 items.
#![tactic(auto)]

ghost use Rattle.std.specs.Prelude.{◌<◌, ◌≤◌, length, ◌≡◌};
ghost use Rattle.code.specs.Reader.{read_code};
ghost use Rattle.scan.specs.Answer.{told};
ghost use Rattle.terms.specs.Numbers.{outcome};
ghost use Rattle.terms.specs.declared.Reason.TheVariants as reason;
ghost use Rattle.scan.specs.InnerView.{Followed, counted_to, ends_long, opcode_of};

mod pass;

use ops::Op;
use pass::Scan;
use terms::{Reason, Refusal};

// What is known of the job that compiles to the code: its version, its node count, and its length in bytes.
#[derive(Clone, Copy, Debug, PartialEq, Eq)]
pub struct Scanned {
    pub version: u16,
    pub nodes: usize,
    pub size: usize,
}

// No accepted job compiles to the code.
fn foreign() -> Refusal
    ensures { result ≡ record { reason = reason.ForeignCode; place = 0 } }
{
    Reason::ForeignCode.at(0)
}

// Whether this is the COMMIT of a transaction of more than 200 nodes, `since` being the instructions behind its BEGIN.
#[tactic(auto, unfolding(crate::specs::InnerView::ends_long))]
fn ends_long(op: Op, since: usize) -> bool
    ensures { result ≡ ends_long (opcode_of op) since }
{
    match op {
        Op::Commit => since > 200,
        _ => false,
    }
}

// The instructions behind the last BEGIN, which inside a transaction are its nodes so far, with one more.
#[tactic(auto, unfolding(crate::specs::InnerView::counted_to))]
fn counted(op: Op, since: usize) -> usize
    requires { since < 18446744073709551615 }
    ensures { result ≡ counted_to (opcode_of op) since }
{
    match op {
        Op::Begin => 0,
        _ => since + 1,
    }
}

// The instructions behind the header.
fn instructions(code: &[u8]) -> Option<Scan>
    requires { (5 ≤ length code.now) × (length code.now ≤ 5005) }
    ensures { Followed code.now result }
{
    let mut scan = Scan::start();
    let mut since = 0;
    loop {
        scan.settle()?;
        let place = scan.place;
        if place >= code.len() {
            scan.finish()?;
            return Some(scan);
        }
        let op = ops::op_at(code, place);
        if ends_long(op, since) {
            return None;
        }
        since = counted(op, since);
        scan.step(op)?;
    }
}

// Scans code. Total: every byte string is answered.
pub fn scan_code(code: &[u8]) -> Result<Scanned, Refusal>
    ensures { outcome result ≡ told (read_code code.now) }
{
    if code.len() < 5 {
        return Err(foreign());
    }
    if code.len() > 5005 {
        return Err(foreign());
    }
    if !code.starts_with(b"WSC") {
        return Err(foreign());
    }
    let version = word::number16(code[3], code[4]);
    if version != 1 {
        return Err(foreign());
    }
    let Some(scan) = instructions(code) else {
        return Err(foreign());
    };
    Ok(Scanned {
        version,
        nodes: scan.nodes,
        size: scan.size,
    })
}

// Scripts typed as formulas: a text becomes a version 1 job.
#![tactic(auto)]

ghost use Rattle.std.specs.Prelude.{if◌then◌else◌, Ok, Err, ◌==◌, ℕ, ◌+◌, ◌-◌, ◌<◌, ◌≤◌, get_or, length, replicate, true, List, [], ◌∷◌, ◌≡◌};
ghost use Rattle.delivery.specs.InnerPlaces.{inserted, placed_at};
ghost use Rattle.delivery.specs.Delivered.{delivered, onto};
ghost use Rattle.script.specs.Bytes.{bytes16, bytes32};
ghost use Rattle.formula.specs.FormulaTo.{formula_to, if_accepted};
ghost use Rattle.script.specs.InnerTrees.{kind_in, sort_of};
ghost use Rattle.script.specs.Tree.{transaction};
ghost use Rattle.terms.specs.Numbers.{kind_number, outcome};
ghost use Rattle.terms.specs.declared.Reason.TheVariants as reason;
ghost use Rattle.grammar.specs.Grammar.{is_blank, is_digit};
ghost use Rattle.parsing.specs.InnerParsing.{is_at, Skipped, ScannedTo, Ready, TermTo, SumTo, OpeningTo, WordTo, handed, shut_to, Joining, TermsReady};

use parsing::{Opening, Scanned};
use terms::{Kind, Reason, Refusal};

// "A text of at most 32,768 bytes"
const MOST_TEXT: usize = 32768;
// "Brackets, forks, atomics and writes open together number at most 64"; an atomic and its bracket are two
const MOST_OPEN: usize = 64;

const MOST_AROUND_ATOMIC: usize = 63;
// "signed 32-bit range", without `-` and with it; "registers are 0 to 63"
const MOST_PLAIN: u32 = 2147483647;

const MOST_NEGATIVE: u32 = 2147483648;

const MOST_REGISTER: u32 = 63;
// the nodes of a job
const MOST_NODES: usize = 1000;
// and its bytes: 7, and 3 for each of 1,000 nodes, and 2
const LONGEST_JOB: usize = 3009;

// ---- bytes of the text

// Whether it is a byte 32, 10 or 13.
#[tactic(auto, using(std::proofs::lemmas::Bool::Decides::nat_tests), unfolding(grammar::specs::Grammar::is_blank))]
fn is_blank(b: u8) -> bool
    ensures { result ≡ is_blank b }
{
    matches!(b, b' ' | b'\n' | b'\r')
}

// Whether it is a decimal digit. (A name for std's method, since three functions cite the grammar's digit, and this contract ties the two.)
#[tactic(auto, unfolding(grammar::specs::Grammar::is_digit))]
fn is_digit(b: u8) -> bool
    ensures { result ≡ is_digit b }
{
    b.is_ascii_digit()
}

// Whether this byte stands there.
#[tactic(auto, unfolding(parsing::specs::InnerParsing::is_at))]
fn is_at(text: &[u8], at: usize, b: u8) -> bool
    ensures { result ≡ is_at text.now at b }
{
    text.get(at) == Some(&b)
}

// Whether a digit stands there.
fn digit_at(text: &[u8], at: usize) -> bool
    ensures { result ≡ true → (at < length text.now) × (is_digit (get_or text.now at 0) ≡ true) }
{
    text.get(at).is_some_and(|b| is_digit(*b))
}

// The first byte from here on that is no blank, or the text's end. (This and `digits` go by places: with iterators over the rest of the text a text of ones
// takes 0.86 of plain Rust's time against 0.59.)
fn skip(text: &[u8], from: usize) -> usize
    requires { from ≤ length text.now }
    ensures { Skipped text.now from result }
{
    for at in from..text.len() {
        if !is_blank(text[at]) {
            return at;
        }
    }
    text.len()
}

// The digits of a number that end here, if there are any.
fn scanned(from: usize, at: usize, value: u32) -> Result<Scanned, usize>
    ensures { result ≡ (if at == from then Err at else Ok (record { at = at; value = value })) }
{
    if at == from {
        return Err(at);
    }
    Ok(Scanned { at, value })
}

// Digits of a number of at most so much, or where they are none.
fn digits(text: &[u8], from: usize, most: u32) -> Result<Scanned, usize>
    requires { (from ≤ length text.now) × (most ≤ 2147483648) }
    ensures { ScannedTo text.now from most result }
{
    let mut value = 0u32;
    for at in from..text.len() {
        let b = text[at];
        if !is_digit(b) {
            return scanned(from, at, value);
        }
        let next = u64::from(value) * 10 + u64::from(b - b'0');
        if next > u64::from(most) {
            return Err(at);
        }
        value = next as u32;
    }
    scanned(from, text.len(), value)
}

// ---- the job

// A number's or a sum's kind, from the one that it has in a process.
fn kind_in(inside: bool, process: Kind) -> Kind
    requires { kind_number process ≤ 2 }
    ensures { kind_number result ≡ kind_in inside (kind_number process) }
{
    match process {
        Kind::Valp if inside => Kind::Valt,
        Kind::Addp if inside => Kind::Addt,
        _ => process,
    }
}

// A job so far: its bytes, of which the first so many are written, and its nodes. What does not fit is counted and not written.
// That `bytes` keeps its length stands in each contract: tried as a ghost field, with which the check makes no proof of `head`.
#[derive(Drop)]
struct Job {
    bytes: [u8; LONGEST_JOB],
    size: usize,
    nodes: usize,
}

impl Job {
    // A node's bytes, behind those that are written.
    fn node(&mut self, bytes: &[u8])
        requires { (self.old.size ≤ 1000000) × (self.old.nodes ≤ 1000000) × (length bytes.now ≤ 5) }
        ensures size { self.new.size ≡ self.old.size + length bytes.now }
        ensures nodes { self.new.nodes ≡ self.old.nodes + 1 }
        ensures kept { length self.new.bytes ≡ length self.old.bytes }
        ensures written { self.old.size + length bytes.now ≤ length self.old.bytes → self.new.bytes ≡ placed_at self.old.size bytes.now self.old.bytes }
    {
        let start = self.size;
        self.size += bytes.len();
        self.nodes += 1;
        if self.size <= self.bytes.len() {
            self.bytes[start..self.size].copy_from_slice(bytes);
        }
    }

    // A number's node.
    #[tactic(auto, unfolding(script::specs::Bytes::bytes32))]
    fn value(&mut self, inside: bool, value: u32)
        requires { (self.old.size ≤ 1000000) × (self.old.nodes ≤ 1000000) }
        ensures size { self.new.size ≡ self.old.size + 5 }
        ensures nodes { self.new.nodes ≡ self.old.nodes + 1 }
        ensures kept { length self.new.bytes ≡ length self.old.bytes }
        ensures written { self.old.size + 5 ≤ length self.old.bytes → self.new.bytes ≡ placed_at self.old.size (kind_in inside 1 ∷ bytes32 value) self.old.bytes }
    {
        let n = value.to_be_bytes();
        self.node(&[kind_in(inside, Kind::Valp).byte(), n[0], n[1], n[2], n[3]]);
    }

    // The kind bytes of so many sums, in front of what is written from there on: the sums' terms.
    fn join(&mut self, start: usize, adds: usize, inside: bool)
        requires { (start ≤ self.old.size) × (self.old.size + adds ≤ 1000000) × (self.old.nodes + adds ≤ 1000000) }
        ensures size { self.new.size ≡ self.old.size + adds }
        ensures nodes { self.new.nodes ≡ self.old.nodes + adds }
        ensures kept { length self.new.bytes ≡ length self.old.bytes }
        ensures written { self.old.size + adds ≤ length self.old.bytes → self.new.bytes ≡ inserted start self.old.size (replicate adds (kind_in inside 2)) self.old.bytes }
    {
        let end = self.size;
        self.size += adds;
        self.nodes += adds;
        if adds > 0 && self.size <= self.bytes.len() {
            delivery::shift(&mut self.bytes, start, end, adds);
            self.bytes[start..start + adds].fill(kind_in(inside, Kind::Addp).byte());
        }
    }

    // The header, in version 1.
    #[tactic(auto, unfolding(script::specs::Bytes::bytes16))]
    fn head(&mut self)
        requires { self.old.nodes ≤ 1000 }
        ensures size { self.new.size ≡ self.old.size }
        ensures kept { length self.new.bytes ≡ length self.old.bytes }
        ensures written { self.new.bytes ≡ onto (0x57 ∷ 0x53 ∷ 0x4A ∷ 0 ∷ 1 ∷ bytes16 self.old.nodes) self.old.bytes }
    {
        let header = [
            b'W',
            b'S',
            b'J',
            0,
            1,
            word::high(self.nodes),
            word::low(self.nodes),
        ];
        self.bytes[..7].copy_from_slice(&header);
    }
}

// ---- the reader: a function answers the place behind what it reads, or the one where that is no script

// A number without a sign that begins here. (This, `negative` and `register` differ in where the digits begin, their bound and what is written.)
fn number(text: &[u8], from: usize, inside: bool, job: &mut Job) -> Result<usize, usize>
    requires { (Ready text.now from job.old.size job.old.nodes 0) × (from < length text.now) × (is_digit (get_or text.now from 0) ≡ true) }
    ensures { (opened : ℕ) → TermTo (sort_of inside) text.now from job.old.size job.old.nodes opened (handed result job.new.size job.new.nodes) job.old.bytes job.new.bytes }
{
    let read = digits(text, from, MOST_PLAIN)?;
    job.value(inside, read.value);
    Ok(read.at)
}

// A `-` and behind it a number.
fn negative(text: &[u8], from: usize, inside: bool, job: &mut Job) -> Result<usize, usize>
    requires { (Ready text.now from job.old.size job.old.nodes 0) × (from < length text.now) × (get_or text.now from 0 ≡ 45) }
    ensures { (opened : ℕ) → TermTo (sort_of inside) text.now from job.old.size job.old.nodes opened (handed result job.new.size job.new.nodes) job.old.bytes job.new.bytes }
{
    let read = digits(text, from + 1, MOST_NEGATIVE)?;
    job.value(inside, read.value.wrapping_neg());
    Ok(read.at)
}

// A register that begins here.
fn register(text: &[u8], from: usize, job: &mut Job) -> Result<usize, usize>
    requires { (Ready text.now from job.old.size job.old.nodes 0) × (from < length text.now) × (get_or text.now from 0 ≡ 114) }
    ensures { (opened : ℕ) → TermTo transaction text.now from job.old.size job.old.nodes opened (handed result job.new.size job.new.nodes) job.old.bytes job.new.bytes }
{
    let read = digits(text, from + 1, MOST_REGISTER)?;
    job.node(&[Kind::Read.byte(), read.value as u8]);
    Ok(read.at)
}

// A write's register and `:=`, if a transaction begins with these.
fn opening(text: &[u8], from: usize, opened: usize) -> Result<Opening, usize>
    requires { from ≤ length text.now }
    ensures { OpeningTo text.now from opened result }
{
    let at = skip(text, from);
    if !is_at(text, at, b'r') {
        return Ok(Opening::Other(at));
    }
    let read = digits(text, at + 1, MOST_REGISTER)?;
    let register = read.value as u8;
    let colon = skip(text, read.at);
    if !is_at(text, colon, b':') {
        return Ok(Opening::Read(colon, register));
    }
    if opened >= MOST_OPEN {
        return Err(colon);
    }
    if !is_at(text, colon + 1, b'=') {
        return Err(colon + 1);
    }
    Ok(Opening::Write(colon + 2, register))
}

// The place behind these letters of a word, or of the first one that is not there.
fn word(text: &[u8], from: usize, letters: &[u8]) -> Result<usize, usize>
    requires { from ≤ length text.now }
    ensures { WordTo text.now from letters.now result }
{
    for (i, letter) in letters.iter().enumerate() {
        if !is_at(text, from + i, *letter) {
            return Err(from + i);
        }
    }
    Ok(from + letters.len())
}

// Whether a bracket stands there that may be opened.
fn opens(text: &[u8], at: usize, opened: usize) -> bool
    ensures { result ≡ true → (opened < 64) × (is_at text.now at 40 ≡ true) }
{
    opened < MOST_OPEN && is_at(text, at, b'(')
}

// The bracket behind a sum.
#[tactic(auto, unfolding(parsing::specs::InnerParsing::shut_to))]
fn shut(text: &[u8], at: usize) -> Result<usize, usize>
    requires { at ≤ length text.now }
    ensures { result ≡ shut_to text.now at }
{
    if !is_at(text, at, b')') {
        return Err(at);
    }
    Ok(at + 1)
}

// A process, or a transaction: a write, or terms joined by `+`. (`text`, `opened`, `inside` and `job` are no struct, since each call changes another one.)
#[cycle(sum_term_terms)]
fn sum(text: &[u8], from: usize, opened: usize, inside: bool, job: &mut Job) -> Result<usize, usize>
    requires { Ready text.now from job.old.size job.old.nodes opened }
    ensures { SumTo (sort_of inside) text.now from job.old.size job.old.nodes opened (handed result job.new.size job.new.nodes) job.old.bytes job.new.bytes }
{
    let start = job.size;
    let at = skip(text, from);
    let head = if opens(text, at, opened) {
        let end = sum(text, at + 1, opened + 1, inside, job)?;
        shut(text, end)?
    } else if digit_at(text, at) {
        number(text, at, inside, job)?
    } else if inside {
        match opening(text, from, opened)? {
            Opening::Write(next, register) => {
                job.node(&[Kind::Write.byte(), register]);
                return sum(text, next, opened + 1, true, job);
            }
            Opening::Read(next, register) => {
                job.node(&[Kind::Read.byte(), register]);
                next
            }
            Opening::Other(next) => term(text, next, opened, true, job)?,
        }
    } else {
        term(text, at, opened, false, job)?
    };
    terms(text, head, start, opened, inside, job)
}

// Behind a first term, further terms joined by `+`.
#[cycle(sum_term_terms)]
fn terms(
    text: &[u8],
    head: usize,
    start: usize,
    opened: usize,
    inside: bool,
    job: &mut Job,
) -> Result<usize, usize>
    requires { TermsReady text.now start opened (record { at = head; size = job.old.size; nodes = job.old.nodes }) }
    ensures { (from nodes : ℕ) (before : List ℕ) → Joining inside text.now from start nodes opened (record { at = head; size = job.old.size; nodes = job.old.nodes }) 0 before job.old.bytes → SumTo (sort_of inside) text.now from start nodes opened (handed result job.new.size job.new.nodes) before job.new.bytes }
{
    let mut last = head;
    let mut adds = 0;
    loop {
        let at = skip(text, last);
        if !is_at(text, at, b'+') {
            job.join(start, adds, inside);
            return Ok(at);
        }
        let next = skip(text, at + 1);
        adds += 1;
        if digit_at(text, next) {
            last = number(text, next, inside, job)?;
        } else {
            last = term(text, next, opened, inside, job)?;
        }
    }
}

// A number, a sum in brackets; outside a transaction `fork` with a term, `atomic` with a transaction in brackets; inside one a register.
#[cycle(sum_term_terms)]
fn term(
    text: &[u8],
    from: usize,
    opened: usize,
    inside: bool,
    job: &mut Job,
) -> Result<usize, usize>
    requires { Ready text.now from job.old.size job.old.nodes opened }
    ensures { TermTo (sort_of inside) text.now from job.old.size job.old.nodes opened (handed result job.new.size job.new.nodes) job.old.bytes job.new.bytes }
{
    let at = skip(text, from);
    if at >= text.len() {
        return Err(at);
    }
    let b = text[at];
    if is_digit(b) {
        return number(text, at, inside, job);
    }
    if b == b'-' {
        return negative(text, at, inside, job);
    }
    if b == b'(' {
        if opened >= MOST_OPEN {
            return Err(at);
        }
        let end = sum(text, at + 1, opened + 1, inside, job)?;
        return shut(text, end);
    }
    if inside {
        if b == b'r' {
            return register(text, at, job);
        }
        return Err(at);
    }
    if b == b'f' {
        if opened >= MOST_OPEN {
            return Err(at);
        }
        let next = word(text, at + 1, b"ork")?;
        job.node(&[Kind::Fork.byte()]);
        return term(text, next, opened + 1, false, job);
    }
    if b != b'a' || opened >= MOST_AROUND_ATOMIC {
        return Err(at);
    }
    let next = word(text, at + 1, b"tomic")?;
    let bracket = skip(text, next);
    if !is_at(text, bracket, b'(') {
        return Err(bracket);
    }
    job.node(&[Kind::Atomic.byte()]);
    let end = sum(text, bracket + 1, opened + 2, true, job)?;
    shut(text, end)
}

// ---- the entry

// The job's refusals, then 10; else the job is delivered.
fn hand_out(job: &[u8], out: &mut [u8]) -> Result<usize, Refusal>
    ensures { delivered (if_accepted job.now) out.old ≡ record { answer = outcome result; output = out.new } }
{
    job::read_job(job)?;
    delivery::deliver(out, job)
}

// The text is no formula, as this place shows.
fn no_script(place: usize) -> Refusal
    ensures { result ≡ record { reason = reason.NoScript; place = place } }
{
    Reason::NoScript.at(place)
}

// Writes the job of a text to the front of `out`, and answers its length. Total: any bytes, any output.
pub fn formula(text: &[u8], out: &mut [u8]) -> Result<usize, Refusal>
    ensures { formula_to text.now out.old ≡ record { answer = outcome result; output = out.new } }
{
    if text.len() > MOST_TEXT {
        return Err(no_script(MOST_TEXT));
    }
    let mut job = Job {
        bytes: [0u8; LONGEST_JOB],
        size: 7,
        nodes: 0,
    };
    let end = sum(text, 0, 0, false, &mut job).map_err(no_script)?;
    if end < text.len() {
        return Err(no_script(end));
    }
    if job.nodes > MOST_NODES {
        return Err(Reason::Count.at(5));
    }
    job.head();
    let size = job.size;
    let made = &job.bytes[..size];
    hand_out(made, out)
}

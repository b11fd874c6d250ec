// The memory that the test program lends to the calls: registers, counts and records by value, and how many of them are lent.
#![tactic(auto)]

ghost use Rattle.std.specs.Prelude.{◌≡◌};
ghost use Rattle.memory.specs.Memories.{sevens, untouched};

use owned::{Lent, Owned};
use text::Refused;
use thread::Thread;

#[derive(Clone, Copy)]
pub struct Memory {
    pub state: Owned,
    pub lent: Lent,
}

// A checksum: the sum of what came, and the sum of these sums.
#[derive(Clone, Copy, Default)]
struct Checksum {
    tail: u64,
    total: u64,
}

// A record with every number 7.
fn filler() -> Thread
    ensures { result ≡ sevens }
{
    Thread {
        start: 7,
        end: 7,
        place: 7,
        height: 7,
        cells: [7; 64],
        begin: 7,
        base: 7,
        over: 7,
        reads: 7,
        readlog: [7; 64],
        readcounts: [7; 64],
        writes: 7,
        writelog: [7; 64],
        rule: 7,
        backs: 7,
    }
}

// Every register -7, every count and every number of a record 7; 64 registers, 64 counts and 16 records are lent.
pub fn filled() -> Memory
    ensures { result ≡ untouched }
{
    Memory {
        state: Owned {
            registers: [-7; 65],
            counts: [7; 65],
            threads: [filler(); 17],
        },
        lent: Lent {
            registers: 64,
            counts: 64,
            records: 16,
        },
    }
}

impl Checksum {
    // One number more.
    fn add(&mut self, n: u64) {
        self.tail = self.tail.wrapping_add(n);
        self.total = self.total.wrapping_add(self.tail);
    }

    // Numbers of 32 bits, each as one of 64 in two's complement.
    fn add_all<T: Copy + Into<i64>>(&mut self, numbers: &[T]) {
        for n in numbers {
            let wide: i64 = (*n).into();
            self.add(wide.cast_unsigned());
        }
    }

    // The numbers of a record: first those that are no arrays.
    fn add_thread(&mut self, t: &Thread) {
        for n in [t.start, t.end, t.place, t.height, t.begin, t.base, t.over] {
            self.add(n as u64);
        }
        for n in [t.reads, t.writes, t.rule as u64, t.backs as u64] {
            self.add(n);
        }
        self.add_all(&t.cells);
        self.add_all(&t.readlog);
        self.add_all(&t.readcounts);
        self.add_all(&t.writelog);
    }
}

// A checksum over all registers, all counts and all records.
fn sum(state: &Owned) -> u64 {
    let mut checksum = Checksum::default();
    checksum.add_all(&state.registers);
    checksum.add_all(&state.counts);
    for t in &state.threads {
        checksum.add_thread(t);
    }
    checksum.total
}

// Whether two records have the same numbers. `Thread` is what C sees, and has no `==` of its own.
fn same_thread(a: &Thread, b: &Thread) -> bool {
    let sizes = |t: &Thread| [
        t.start, t.end, t.place, t.height, t.begin, t.base, t.over, t.rule, t.backs,
    ];
    sizes(a) == sizes(b)
        && (a.reads, a.writes) == (b.reads, b.writes)
        && a.cells == b.cells
        && a.readlog == b.readlog
        && a.readcounts == b.readcounts
        && a.writelog == b.writelog
}

// Whether all registers, all counts and all records have the same numbers.
pub fn same(a: &Owned, b: &Owned) -> bool {
    a.registers == b.registers
        && a.counts == b.counts
        && a.threads
            .iter()
            .zip(&b.threads)
            .all(|(s, t)| same_thread(s, t))
}

// ---- changes that a text asks for

// The number that the text spells, as it is without its sign.
fn magnitude(text: &[u8]) -> Option<u64> {
    text::parse_number(text).map(|n| n.value)
}

impl Memory {
    // `thread T start V`, or `thread T cell I V`; none where that is malformed.
    fn change_thread(&mut self, words: &[u8]) -> Option<()> {
        let i = text::size(text::part(words, b' ', 2), 16)?;
        let t = &mut self.state.threads[i];
        let first = text::part(words, b' ', 4);
        let second = text::part(words, b' ', 5);
        match text::part(words, b' ', 3) {
            b"start" => t.start = magnitude(first)? as usize,
            b"end" => t.end = magnitude(first)? as usize,
            b"place" => t.place = magnitude(first)? as usize,
            b"height" => t.height = magnitude(first)? as usize,
            b"begin" => t.begin = magnitude(first)? as usize,
            b"base" => t.base = magnitude(first)? as usize,
            b"over" => t.over = magnitude(first)? as usize,
            b"reads" => t.reads = magnitude(first)?,
            b"writes" => t.writes = magnitude(first)?,
            b"rule" => t.rule = magnitude(first)? as usize,
            b"backs" => t.backs = magnitude(first)? as usize,
            b"cell" => t.cells[text::size(first, 63)?] = text::parse_number(second)?.signed(),
            b"readlog" => t.readlog[text::size(first, 63)?] = text::parse_number(second)?.signed(),
            b"readcount" => t.readcounts[text::size(first, 63)?] = text::parse_number(
                second,
            )?.unsigned(),
            b"writelog" => t.writelog[text::size(first, 63)?] = text::parse_number(
                second,
            )?.signed(),
            _ => return None,
        }
        Some(())
    }

    // One change, its words standing behind a space: `records N`, `registers N`, `counts N`, `register R V`, `count R N`, or of a thread; none where that is
    // malformed. A change of the code leaves the memory as it is, and so does what is no word.
    fn change(&mut self, words: &[u8]) -> Option<()> {
        let first = text::part(words, b' ', 2);
        let second = text::part(words, b' ', 3);
        match text::part(words, b' ', 1) {
            b"code" => {}
            b"records" => self.lent.records = text::size(first, 17)?,
            b"registers" => self.lent.registers = text::size(first, 65)?,
            b"counts" => self.lent.counts = text::size(first, 65)?,
            b"register" => self.state.registers[text::size(first, 64)?] = text::parse_number(
                second,
            )?.signed(),
            b"count" => self.state.counts[text::size(first, 64)?] = text::parse_number(
                second,
            )?.unsigned(),
            b"thread" => return self.change_thread(words),
            name if text::is_word(name) => return None,
            _ => {}
        }
        Some(())
    }

    // The memory with all changes of a text, commas standing between them; none where one is malformed.
    pub fn with_all(mut self, changes: &[u8]) -> Option<Memory> {
        for words in changes.split(|byte| *byte == b',') {
            self.change(words)?;
        }
        Some(self)
    }
}

// ---- what is written

// Writes a record that is a thread's: done, with its result, or open, its last rule and its send-backs.
fn write_thread(t: &Thread, i: usize) {
    if t.start == 0 {
        return;
    }
    text::write_number(b", thread ", i);
    if t.place == t.end {
        text::write_signed(b" done ", t.cells[0]);
    } else {
        text::write(b" open");
    }
    text::write_number(b" rule ", t.rule);
    text::write_number(b" backs ", t.backs);
}

// Writes the counts of the table's 64 registers that are not 0: how often commits have written each.
pub fn write_table_counts(counts: &[u32; 65]) {
    for (i, n) in counts[..64].iter().enumerate() {
        if *n != 0 {
            text::write_number(b", count ", i);
            text::write_number(b" ", *n as usize);
        }
    }
}

// Writes the threads, registers and counts of a state, and the checksum of all the memory.
pub fn write_state(state: &Owned) {
    for (i, t) in state.threads[..16].iter().enumerate() {
        write_thread(t, i);
    }
    for (i, v) in state.registers[..64].iter().enumerate() {
        if *v != 0 {
            text::write_number(b", register ", i);
            text::write_signed(b" ", *v);
        }
    }
    write_table_counts(&state.counts);
    text::write_number(b", sum ", sum(state) as usize);
}

// Writes a refusal, and whether the memory is as it was.
pub fn write_refused(refused: Refused, before: &Owned, after: &Owned) {
    text::write_refusal(refused);
    text::write_kept(same(before, after));
}

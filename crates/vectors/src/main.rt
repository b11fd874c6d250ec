// Runs the lines of standard input, and writes a line for each.
//
// An input above 1,350,000 bytes is not run. Empty lines and lines that start with '#' are skipped. A case is a line `COMMAND label: BODY`; its label is
// written, and what the case comes to. A line that is no case is `malformed`. These commands take bytes:
//
//     job label: BYTES          reads a job
//     forecast label: BYTES     the forecast of a job: its figures, the sets of registers as numbers, the 16 heights
//     compile N label: BYTES    compiles a job into an output of N bytes
//     back N label: BYTES       reads code back into an output of N bytes
//     formula N label: BYTES    puts the job of a script, the bytes being its text, into an output of N bytes
//     report N label: BYTES     puts what the run program prints for an input into an output of N bytes
//
// BYTES are in hex, spaces between them being ignored; behind a ';' more of them may stand in decimal, as PICKS do. An output is full of AA
// beforehand, and N is at most 6,000; of a result of more than 64 bytes its length and a sum of 16 bits are written. `kept` or `altered` tells whether what
// lies behind the result, or on a refusal the whole, still is. Of what is printed, ' /' is an end of line.
//
// These run calls on a state:
//
//     COMMAND label: JOB; SETUP; CHANGES; PICKS
//
// COMMAND is `fresh`, `step`, `run`, `cut` or `calls`. JOB is a job in hex, which is compiled, or `code` and code in hex. All registers are -7
// beforehand, all counts and all numbers of all records 7; then, but for `fresh`, a fresh state is laid down and the picks of SETUP are run. CHANGES
// stand between commas: `records N`, `registers N`, `counts N` (so many are lent to the call), `code P B` (byte P becomes B), `register R V`,
// `count R N` (the table's count of register R), `thread T start V` (or end, place, height, begin, base, over, reads, writes, rule, backs),
// `thread T cell I V` (or readlog, readcount, writelog, I being a register then). PICKS are thread numbers, with `*N` behind one that is repeated.
// At each ';' and ',' a space follows.
//
// What is written: the answer, each thread with its last rule and its send-backs, each register that is not 0, each of the table's counts that is
// not 0, and a checksum over all registers, counts and records; of a refusal whether the memory was `kept`. `cut` runs the picks in one call and in
// two, cut at each place: `same` if both leave the same and the counts add up, else `differs at` the first such place. `calls` runs the lists of
// picks between '|', each in a call on the state that is there, and writes the answer of each with the table's counts, and at the end the state.
#![tactic(auto)]

mod outputs;
mod states;

// Room for the bytes or picks of a line.
const ROOM: usize = 70000;

// The longest input that is run.
const LONGEST: usize = 1350000;

// Room for the input, and one byte more.
const INPUT: usize = LONGEST + 1;

// The command of a line, or nothing where a space and a colon do not follow it.
fn command(line: &[u8]) -> &[u8] {
    let label = text::before(line, b':');
    if label.len() == line.len() || !text::holds(label, b' ') {
        return b"";
    }
    text::before(label, b' ')
}

// Runs the case of a line. This match alone tells the commands apart.
fn run_case(line: &[u8]) {
    let label = text::before(line, b':');
    let body = text::behind(line, b':');
    match command(line) {
        b"job" => outputs::run_bytes(body, outputs::write_reading),
        b"forecast" => outputs::run_bytes(body, outputs::write_forecast),
        b"compile" => outputs::run_output(label, body, compiler::compile, outputs::write_code),
        b"back" => outputs::run_output(label, body, compiler::read_back, outputs::write_job),
        b"formula" => outputs::run_output(label, body, formula::formula, outputs::write_job),
        b"report" => outputs::run_output(label, body, listing::report, outputs::write_printed),
        b"fresh" => states::run_picks(
            body,
            states::untouched,
            |code, m, _picks| calls::run_fresh(code, m),
        ),
        b"step" => states::run_picks(body, states::set_up, calls::run_step),
        b"run" => states::run_picks(body, states::set_up, calls::run_run),
        b"cut" => states::run_picks(body, states::set_up, calls::run_cut),
        b"calls" => states::run_lists(body),
        _ => text::write_malformed(),
    }
}

// Runs one line, and writes its label and what the case comes to.
fn run_line(line: &[u8]) {
    if text::says(line) {
        text::write_label(line);
        run_case(line);
        text::write_end();
    }
}

fn main() {
    let mut space = text::room::<INPUT>();
    let length = io::read_full(0, &mut space);
    if length > LONGEST {
        text::write(b"input longer than 1350000 bytes\n");
        return;
    }
    for line in space[..length].split(|byte| *byte == b'\n') {
        run_line(line);
    }
}

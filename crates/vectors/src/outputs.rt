// The commands that take bytes.
use terms::Refusal;
use text::Refused;

// What an output is full of beforehand.
const FILLER: u8 = 0xAA;

// The greatest size of an output.
const LARGEST: u32 = 6000;

// Writes what became of the part of an output that no result was put into.
fn write_rest(rest: &[u8]) {
    text::write_kept(rest.iter().all(|byte| *byte == FILLER));
}

// Writes what is printed, all its lines in one line.
pub(crate) fn write_printed(lines: &[u8]) {
    text::write(b"prints");
    for line in lines.split_inclusive(|byte| *byte == b'\n') {
        text::write(b" ");
        text::write(text::before(line, b'\n'));
        if text::holds(line, b'\n') {
            text::write(b" /");
        }
    }
}

// Writes code that is a result.
pub(crate) fn write_code(code: &[u8]) {
    text::write(b"code ");
    text::write_bytes(code);
}

// Writes a job that is a result.
pub(crate) fn write_job(job: &[u8]) {
    text::write(b"job ");
    text::write_bytes(job);
}

// Writes a refusal in the papers' numbers.
fn write_refusal(refusal: Refusal) {
    text::write_refusal(Refused {
        number: usize::from(refusal.reason.number()),
        place: refusal.place,
    });
}

// Writes a job's version and the length of its code, or why it is none.
pub(crate) fn write_reading(bytes: &[u8]) {
    match job::read_job(bytes) {
        Ok(accepted) => {
            text::write_number(b"accepted version ", usize::from(accepted.version));
            text::write_number(b" code ", accepted.length);
        }
        Err(refusal) => write_refusal(refusal),
    }
}

// Writes the forecast of a job, or why there is none.
pub(crate) fn write_forecast(bytes: &[u8]) {
    let told = forecast::forecast(bytes);
    if let Some(refused) = Refused::told(told.refusal, told.place) {
        text::write_refusal(refused);
        return;
    }
    text::write_number(b"code ", told.length);
    text::write_number(b" transactions ", told.transactions);
    text::write_number(b" threads ", told.threads);
    text::write_number(b" instructions ", told.instructions);
    text::write_number(b" longest ", told.longest);
    text::write_number(b" bound ", told.bound);
    text::write_number(b" reads ", told.reads as usize);
    text::write_number(b" writes ", told.writes as usize);
    text::write(b" heights");
    for height in told.heights {
        text::write_number(b" ", usize::from(height));
    }
}

// Puts the bytes that the text spells into `space`, in hex and behind a ';' as picks, and answers them.
fn parse<'a>(text: &[u8], space: &'a mut [u8]) -> Option<&'a [u8]> {
    let count = text::parse_hex(text::before(text, b';'), space)?;
    let picks = text::parse_picks(text::behind(text, b';'), &mut space[count..])?;
    Some(text::front(space, count.checked_add(picks)?))
}

// Runs a command on the bytes that the text spells.
pub(crate) fn run_bytes<C: FnOnce(&[u8])>(text: &[u8], call: C)
    requires { C.IsAlwaysCallable call }
{
    let mut space = text::room::<{ super::ROOM }>();
    match parse(text, &mut space) {
        Some(bytes) => call(bytes),
        None => text::write_malformed(),
    }
}

// Runs a call on the bytes that the text spells and an output, whose size is the label's second word. Writes the result as `write_result` does, and what the
// call made of what lies behind it.
pub(crate) fn run_output<C: FnOnce(&[u8], &mut [u8]) -> Result<usize, Refusal>, W: FnOnce(&[u8])>(
    label: &[u8],
    text: &[u8],
    call: C,
    write_result: W,
)
    requires call { C.IsAlwaysCallable call }
    requires write_result { W.IsAlwaysCallable write_result }
{
    let Some(size) = text::size(text::part(label, b' ', 1), LARGEST) else {
        text::write_malformed();
        return;
    };
    let mut given = text::room::<{ super::ROOM }>();
    let Some(bytes) = parse(text, &mut given) else {
        text::write_malformed();
        return;
    };
    let mut space = text::room::<{ super::ROOM }>();
    let n = text::within(size, &space);
    let out = &mut space[..n];
    out.fill(FILLER);
    match call(bytes, out) {
        Ok(length) => {
            if length > out.len() {
                text::write(b"beyond the output");
                return;
            }
            write_result(text::front(out, length));
            write_rest(text::rest(out, length));
        }
        Err(refusal) => {
            write_refusal(refusal);
            write_rest(out);
        }
    }
}

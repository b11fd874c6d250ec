// The commands that run calls on a state.
use memory::Memory;

// ---- the code

// Compiles the job that the text spells into `code`, and answers how long the code is.
fn load_job(text: &[u8], code: &mut [u8]) -> Option<usize> {
    let mut space = text::room::<{ super::ROOM }>();
    let count = text::parse_hex(text, &mut space)?;
    compiler::compile(&space[..count], code).ok()
}

// Puts the code at the start of `code`, and answers how long it is.
fn load(text: &[u8], code: &mut [u8]) -> Option<usize> {
    if matches!(text::part(text, b' ', 1), b"code") {
        return text::parse_hex(text::rest(text, 5), code);
    }
    load_job(text, code)
}

// Puts a byte into the code for each change that asks for it; none where one is malformed.
fn change_code(code: &mut [u8], changes: &[u8]) -> Option<()> {
    for words in changes.split(|byte| *byte == b',') {
        if matches!(text::part(words, b' ', 1), b"code") {
            // a place that is no number up to 6,000 is the one behind them
            let place = text::size(text::part(words, b' ', 2), 6000).unwrap_or(6001);
            let byte = text::size(text::part(words, b' ', 3), 255)?;
            *code.get_mut(place)? = u8::try_from(byte).ok()?;
        }
    }
    Some(())
}

// ---- the calls

// One of the calls of `calls`, and what is written of it. Answers what it leaves.
fn run_next(code: &[u8], m: Memory, list: &[u8]) -> Memory {
    let mut picks = text::room::<{ super::ROOM }>();
    match text::parse_picks(list, &mut picks) {
        Some(count) => calls::run_next(code, m, &picks[..count]),
        None => {
            text::write_malformed();
            m
        }
    }
}

// The calls of `calls`, one for each list, and what the last leaves.
fn run_calls(code: &[u8], m: Memory, lists: &[u8]) -> Option<()> {
    let mut after = run_next(code, m, text::before(lists, b'|'));
    for list in text::behind(lists, b'|').split_inclusive(|byte| *byte == b'|') {
        text::write(b" | ");
        after = run_next(code, after, text::before(list, b'|'));
    }
    memory::write_state(&after.state);
    Some(())
}

// ---- the case

// The memory with nothing laid down, whatever the list.
pub(crate) fn untouched(_code: &[u8], _list: &[u8]) -> Option<Memory> {
    Some(memory::filled())
}

// A fresh state and the picks that the list spells.
pub(crate) fn set_up(code: &[u8], list: &[u8]) -> Option<Memory> {
    let mut picks = text::room::<{ super::ROOM }>();
    let count = text::parse_picks(list, &mut picks)?;
    Some(calls::begun(code, memory::filled(), &picks[..count]))
}

// Runs a call on what is set up from a line's body: the code, the memory with the changes, and the text of the picks; none where the body is malformed.
fn run_body<
    S: FnOnce(&[u8], &[u8]) -> Option<Memory>,
    C: FnOnce(&[u8], Memory, &[u8]) -> Option<()>,
>(body: &[u8], set_up: S, call: C) -> Option<()>
    requires set_up { S.IsAlwaysCallable set_up }
    requires call { C.IsAlwaysCallable call }
{
    let mut space = text::room::<{ super::ROOM }>();
    let length = load(text::before(body, b';'), &mut space)?;
    let n = text::within(length, &space);
    let code = &mut space[..n];
    let m = set_up(code, text::part(body, b';', 1))?.with_all(text::part(body, b';', 2))?;
    change_code(code, text::part(body, b';', 2))?;
    call(code, m, text::part(body, b';', 3))
}

// Writes that the case is malformed, if nothing else came of it.
fn write_none(done: Option<()>) {
    if done.is_none() {
        text::write_malformed();
    }
}

// Runs a call of the picks that a line's body spells, on the memory that `set_up` makes.
pub(crate) fn run_picks<S: FnOnce(&[u8], &[u8]) -> Option<Memory>, C: FnOnce(&[u8], Memory, &[u8])>(
    body: &[u8],
    set_up: S,
    call: C,
)
    requires set_up { S.IsAlwaysCallable set_up }
    requires call { C.IsAlwaysCallable call }
{
    write_none(run_body(body, set_up, |code, m, list| {
        let mut picks = text::room::<{ super::ROOM }>();
        let count = text::parse_picks(list, &mut picks)?;
        call(code, m, &picks[..count]);
        Some(())
    }));
}

// Runs the calls of the lists of picks in a line's body.
pub(crate) fn run_lists(body: &[u8]) {
    write_none(run_body(body, set_up, run_calls));
}

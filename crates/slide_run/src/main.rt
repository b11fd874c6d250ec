// The run program: reads a job and picks from standard input, and writes the listing of the run.
#![tactic(auto)]

// Writes what an input prints. No listing is longer than the room, so none is refused.
fn show(input: &[u8]) {
    let mut out = [0; 4449];
    if let Ok(length) = listing::report(input, &mut out) {
        if let Some(text) = out.get(..length) {
            io::write_all(1, text);
        }
    }
}

fn main() {
    let mut input = [0; 65537];
    let length = io::read_full(0, &mut input);
    show(&input[..length]);
}

// What the calls that run the machine answer. What one pick does is defined in specs/.
#![tactic(auto)]

// The answer of `fresh`: document 01's number of the refusal, 0 if there is none, and the place.
#[repr(C)]
#[derive(Clone, Copy)]
pub struct FreshReply {
    pub refusal: usize,
    pub place: usize,
}

// The answer of `step`: the refusal as above, and what the pick did, 0 throughout if it was refused.
#[repr(C)]
#[derive(Clone, Copy)]
pub struct StepReply {
    pub refusal: usize,
    pub place: usize,
    // 0 idle, 1 push, 2 sum, 3 fork, 4 begin, 5 read from the write log, 6 read from the read log, 7 read from the table, 8 write,
    // 9 commit, 10 sent back
    pub event: usize,
    // the first stale register, if it was sent back, else 0
    pub register: usize,
    // 1 if the pick took a turn, else 0
    pub turn: usize,
    // 1 if it was a sum outside a transaction that left the range of 32 bits; if it was a commit, how many sums of its attempt did, as noted;
    // else 0
    pub over: usize,
}

// The answer of `run`: the refusal as above, and the counts of its picks, 0 throughout if it was refused.
#[repr(C)]
#[derive(Clone, Copy)]
pub struct RunReply {
    pub refusal: usize,
    pub place: usize,
    pub steps: usize,
    pub idle: usize,
    pub commits: usize,
    pub back: usize,
    // sums that left the range of 32 bits, outside transactions and, as noted, in attempts that took effect
    pub over: usize,
}

// The instruction that stands at a place of the code, with its operand.
#![tactic(auto)]

ghost use Rattle.std.specs.Prelude.{drop, ◌∷◌, ◌≡◌};
ghost use Rattle.code.specs.Ops.{op_at};
ghost use Rattle.ops.specs.Shown.{shown_op};

// An instruction as it stands in the code; a FORK has its child's length.
#[derive(Clone, Copy)]
pub enum Op {
    Push(i32),
    Add,
    Read(u8),
    Write(u8),
    Begin,
    Commit,
    Fork(usize),
    // an unknown opcode, a cut operand, a register of 64 or more, or no byte at all; not an `Option` around, which would put a second match into each
    // match over the instructions, as this is a case of each
    Foreign,
}

// The instruction that an opcode and the bytes behind it make.
#[tactic(auto, unfolding(code::specs::Ops::op_at, code::specs::Ops::opcode_operand, code::specs::Ops::decoded, word::specs::Sum::signed))]
fn instruction(opcode: u8, operand: &[u8]) -> Op
    ensures { result ≡ shown_op (op_at (opcode ∷ operand.now)) }
{
    match opcode {
        1 => match operand {
            [a, b, c, d, ..] => Op::Push(i32::from_be_bytes([*a, *b, *c, *d])),
            _ => Op::Foreign,
        },
        2 => Op::Add,
        3 => match operand {
            [register, ..] if *register < 64 => Op::Read(*register),
            _ => Op::Foreign,
        },
        4 => match operand {
            [register, ..] if *register < 64 => Op::Write(*register),
            _ => Op::Foreign,
        },
        5 => Op::Begin,
        6 => Op::Commit,
        7 => match operand {
            [high, low, ..] => Op::Fork(word::number16(*high, *low) as usize),
            _ => Op::Foreign,
        },
        _ => Op::Foreign,
    }
}

// The instruction at a place. Total: every place of every byte string is answered.
#[tactic(auto, unfolding(code::specs::Ops::op_at))]
pub fn op_at(code: &[u8], place: usize) -> Op
    ensures { result ≡ shown_op (op_at (drop place code.now)) }
{
    match code.get(place..) {
        Some([opcode, operand @ ..]) => instruction(*opcode, operand),
        _ => Op::Foreign,
    }
}

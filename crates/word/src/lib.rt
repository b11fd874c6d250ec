// Numbers of 32 bits, of two bytes, and sets of 64 registers: the leaves of every layer above.
#![tactic(auto)]

ghost use Rattle.std.specs.Prelude.{◌*◌, ◌+◌, ◌/◌, ◌%◌, ◌≡◌};
ghost use Rattle.std.specs.Iterator.{YieldsFirst, item_count};
ghost use Rattle.word.specs.Registers.{left, member, members, none, with};
ghost use Rattle.word.specs.InnerCount.{saturated};
ghost use Rattle.word.specs.Sum.{added, wrapping};

// A sum, and whether the exact sum fell outside the range of 32 bits.
#[derive(Clone, Copy)]
pub struct Added {
    pub value: i32,
    pub overflowed: bool,
}

// The sum of two numbers, wrapped to 32 bits, and whether it left the range: the one leaf for ADD.
pub fn add(a: i32, b: i32) -> Added
    ensures { result ≡ added wrapping a b }
{
    let (value, overflowed) = a.overflowing_add(b);
    Added { value, overflowed }
}

// The sum of two counts; the greatest number stands for what is above it.
pub fn saturating_add(a: usize, b: usize) -> usize
    ensures { result ≡ saturated a b }
{
    a.saturating_add(b)
}

// The set with no register.
pub fn empty() -> u64
    ensures { result ≡ none }
{
    0
}

// The set with the register besides. A register of 64 or above leaves the set as it is.
pub fn insert(set: u64, register: u8) -> u64
    ensures { result ≡ with set register }
{
    if register < 64 {
        set | (1 << register)
    } else {
        set
    }
}

// Whether the register is in the set. None of 64 or above is.
pub fn has(set: u64, register: u8) -> bool
    ensures { result ≡ member set register }
{
    register < 64 && (set >> register) & 1 == 1
}

// The registers of a set, ascending. What is left of them is itself a set.
#[derive(Drop)]
pub struct Ascending {
    set: u64,
}

// The registers of the set, ascending.
pub fn members(set: u64) -> Ascending
    ensures { left result ≡ members set }
{
    Ascending { set }
}

impl Iterator for Ascending {
    type Item = u8;

    ghost next_gives = { YieldsFirst left };

    ghost remaining = { item_count left };

    // The lowest register that is left: the zeros below it are passed over at once.
    fn next(&mut self) -> Option<u8> {
        if self.set == 0 {
            return None;
        }
        let register = self.set.trailing_zeros() as u8;
        self.set &= self.set - 1;
        Some(register)
    }
}

// The number that two bytes hold, the high one first.
pub fn number16(high: u8, low: u8) -> u16
    ensures { result ≡ high * 256 + low }
{
    u16::from_be_bytes([high, low])
}

// The high one of the two bytes of a number below 65,536, and the low one.
pub fn high(n: usize) -> u8
    ensures { result ≡ n / 256 % 256 }
{
    let [.., high, _] = n.to_be_bytes();
    high
}

pub fn low(n: usize) -> u8
    ensures { result ≡ n % 256 }
{
    let [.., low] = n.to_be_bytes();
    low
}

// Text for the test programs: lines, words, numbers and bytes in hex are taken apart, and what a case comes to is written.
#![tactic(auto)]

ghost use Rattle.std.specs.Prelude.{◌≡◌, ◌+◌, ◌-◌, ◌*◌, ◌<◌, ◌≤◌, min, IfSome, Some, None, cond, length, take, drop, nat_lt};
ghost use Rattle.io.specs.Counts.{IsPrefixLen};
ghost use Rattle.text.specs.Texts.{
  zeros,
  place,
  ahead,
  after,
  piece,
  said,
  decimal,
  digits_of,
  spelled,
  size_of,
  nearest,
  nearest_up,
  is_word,
  told,
};

// A number with its sign.
#[derive(Clone, Copy, Debug, PartialEq, Eq)]
pub struct Number {
    pub minus: bool,
    pub value: u64,
}

// A refusal: its number in the papers, and the place.
#[derive(Clone, Copy, Debug, PartialEq, Eq)]
pub struct Refused {
    pub number: usize,
    pub place: usize,
}

// Room for so many bytes. The contract has the length, so that no caller's proof computes it.
pub fn room<const N: usize>() -> [u8; N]
    ensures zero { result ≡ zeros N }
    ensures len { N ≡ length result }
{
    [0; N]
}

// ---- parts of a text

// The first place of the byte in the text, or the text's length.
fn find(text: &[u8], byte: u8) -> usize
    ensures place { result ≡ place byte text.now }
    ensures within { IsPrefixLen result text.now }
{
    text.iter()
        .position(|other| *other == byte)
        .unwrap_or(text.len())
}

// What stands before the first such byte, or all of the text.
pub fn before<'a>(text: &'a [u8], byte: u8) -> &'a [u8]
    ensures { result.now ≡ ahead byte text.now }
{
    &text[..find(text, byte)]
}

// What stands behind the first such byte, or nothing.
pub fn behind<'a>(text: &'a [u8], byte: u8) -> &'a [u8]
    ensures after { result.now ≡ after byte text.now }
    ensures shorter { length result.now ≤ length text.now - 1 }
{
    rest(text, find(text, byte).saturating_add(1))
}

// Part k, counted from 0, of a text whose parts stand between such bytes; nothing where there are fewer.
pub fn part<'a>(text: &'a [u8], byte: u8, k: u8) -> &'a [u8]
    ensures { result.now ≡ piece byte k text.now }
{
    text.split(|other| *other == byte)
        .nth(usize::from(k))
        .unwrap_or(b"")
}

// Whether the byte stands in the text.
pub fn holds(text: &[u8], byte: u8) -> bool
    ensures { result ≡ nat_lt (place byte text.now) (length text.now) }
{
    find(text, byte) < text.len()
}

// The first n bytes, or all where there are fewer.
pub fn front<'a>(bytes: &'a [u8], n: usize) -> &'a [u8]
    ensures { result.now ≡ take n bytes.now }
{
    &bytes[..within(n, bytes)]
}

// What stands behind the first n bytes.
pub fn rest<'a>(bytes: &'a [u8], n: usize) -> &'a [u8]
    ensures { result.now ≡ drop n bytes.now }
{
    &bytes[within(n, bytes)..]
}

// The number n, but at most how many bytes there are. With its contract `&mut bytes[..n]` needs no proof file.
pub fn within(n: usize, bytes: &[u8]) -> usize
    ensures least { result ≡ min n (length bytes.now) }
    ensures within { IsPrefixLen result bytes.now }
{
    n.min(bytes.len())
}

// Whether a line is to be run: not an empty one, and not one that starts with '#'.
pub fn says(line: &[u8]) -> bool
    ensures { result ≡ said line.now }
{
    !matches!(line, [] | [b'#', ..])
}

// Whether the text is a word: 1 to 12 small letters.
pub fn is_word(text: &[u8]) -> bool
    ensures { result ≡ is_word text.now }
{
    if text.is_empty() || text.len() > 12 {
        return false;
    }
    text.iter().all(|byte| byte.is_ascii_lowercase())
}

// ---- numbers and bytes

// The number with a digit behind it, if the byte is a decimal digit and there is room for it in 64 bits.
fn longer(value: u64, byte: u8) -> Option<u64>
    ensures { result ≡ cond (decimal value byte) (Some (value * 10 + (byte - 48))) None }
{
    let digit = char::from(byte).to_digit(10)?;
    value.checked_mul(10)?.checked_add(u64::from(digit))
}

// The number that the text spells in digits, one at least.
fn digits(text: &[u8]) -> Option<u64>
    ensures { result ≡ digits_of text.now }
{
    if text.is_empty() {
        return None;
    }
    let mut value: u64 = 0;
    for byte in text {
        value = longer(value, *byte)?;
    }
    Some(value)
}

// The number that the text spells in decimal digits, maybe with a minus in front.
pub fn parse_number(text: &[u8]) -> Option<Number>
    ensures { result ≡ spelled text.now }
{
    let (minus, magnitude) = match text {
        [b'-', magnitude @ ..] => (true, magnitude),
        _ => (false, text),
    };
    digits(magnitude).map(|value| Number { minus, value })
}

// The number that the text spells, if it is one from 0 up to `most`.
pub fn size(text: &[u8], most: u32) -> Option<usize>
    ensures value { result ≡ size_of (spelled text.now) most }
    ensures bound { IfSome result (λ n. n ≤ most) }
{
    let number = parse_number(text)?;
    if number.minus || number.value > u64::from(most) {
        return None;
    }
    Some(number.value as usize)
}

impl Number {
    // The nearest number of 32 bits.
    pub fn signed(self) -> i32
        ensures { result ≡ nearest self }
    {
        match (i32::try_from(self.value), self.minus) {
            (Ok(value), false) => value,
            (Ok(value), true) => -value,
            (Err(_), false) => i32::MAX,
            (Err(_), true) => i32::MIN,
        }
    }

    // The nearest number of 32 bits from 0 up.
    pub fn unsigned(self) -> u32
        ensures { result ≡ nearest_up self }
    {
        if self.minus {
            return 0;
        }
        u32::try_from(self.value).unwrap_or(u32::MAX)
    }
}

// The byte that two hex digits spell.
fn pair(high: u8, low: u8) -> Option<u8> {
    let high = char::from(high).to_digit(16)?;
    let low = char::from(low).to_digit(16)?;
    Some((high * 16 + low) as u8)
}

// Puts the bytes that the text spells in hex at the start of out, and answers how many they are; none where the text is not well formed or they have no room.
// It answers the count and no slice: picks are put behind the bytes, into the same room.
pub fn parse_hex(text: &[u8], out: &mut [u8]) -> Option<usize>
    ensures { IfSome result (λ count. IsPrefixLen count out.new) }
{
    let mut left = text;
    let mut count: usize = 0;
    loop {
        match left {
            [] => return Some(count),
            [b' ', others @ ..] => left = others,
            [high, low, others @ ..] => {
                let byte = pair(*high, *low)?;
                *out.get_mut(count)? = byte;
                count += 1;
                left = others;
            }
            [_] => return None,
        }
    }
}

// The sum of each byte times its place, counted from 1, in 16 bits: from the end, each tail's sum is added once.
fn checksum(bytes: &[u8]) -> u16 {
    let mut tail: u16 = 0;
    let mut sum: u16 = 0;
    for byte in bytes.iter().rev() {
        tail = tail.wrapping_add(u16::from(*byte));
        sum = sum.wrapping_add(tail);
    }
    sum
}

// ---- the picks

// How often a word says its pick: `3*N` says it N times, `3` once.
fn times(word: &[u8]) -> Option<usize> {
    if !holds(word, b'*') {
        return Some(1);
    }
    size(behind(word, b'*'), 40000)
}

// Puts the picks that the list spells at the start of `picks`, words such as `3` or `3*N` with spaces between, as far as there is room, and answers how
// many they are; none where a word is not well formed.
pub fn parse_picks(list: &[u8], picks: &mut [u8]) -> Option<usize>
    ensures { IfSome result (λ count. IsPrefixLen count picks.new) }
{
    let mut count: usize = 0;
    for word in list.split(|byte| *byte == b' ') {
        if !word.is_empty() {
            let pick = u8::try_from(size(before(word, b'*'), 255)?).ok()?;
            let end = count.saturating_add(times(word)?).min(picks.len());
            picks[count..end].fill(pick);
            count = end;
        }
    }
    Some(count)
}

// ---- what is written

// The digits of hex.
const DIGITS: &[u8; 16] = b"0123456789ABCDEF";

// Writes bytes as pairs of digits, with a space between.
fn write_pairs(bytes: &[u8]) {
    for (at, byte) in bytes.iter().enumerate() {
        if at > 0 {
            write(b" ");
        }
        write(&[
            DIGITS[usize::from(*byte / 16)],
            DIGITS[usize::from(*byte % 16)],
        ]);
    }
}

// Writes a result, or of a long one its length and checksum.
pub fn write_bytes(bytes: &[u8]) {
    if bytes.len() <= 64 {
        write_pairs(bytes);
        return;
    }
    write_number(b"", bytes.len());
    write_number(b" bytes sum ", usize::from(checksum(bytes)));
}

pub fn write(text: &[u8]) {
    io::write_all(1, text);
}

// Writes a word and a number.
pub fn write_number(word: &[u8], n: usize) {
    write(word);
    io::print_decimal(1, n as u64);
}

// Writes a word and a number with its sign.
pub fn write_signed(word: &[u8], n: i32) {
    write(word);
    if n < 0 {
        write(b"-");
    }
    io::print_decimal(1, u64::from(n.unsigned_abs()));
}

impl Refused {
    // The refusal with this number, 0 being none.
    pub fn told(number: usize, place: usize) -> Option<Refused>
        ensures { result ≡ told number place }
    {
        if number == 0 {
            return None;
        }
        Some(Refused { number, place })
    }
}

pub fn write_refusal(refused: Refused) {
    write_number(b"refused ", refused.number);
    write_number(b" at ", refused.place);
}

// Writes what a line comes to that is no case.
pub fn write_malformed() {
    write(b"malformed");
}

// Writes whether what was lent is as it was.
pub fn write_kept(kept: bool) {
    if kept {
        write(b" kept");
    } else {
        write(b" altered");
    }
}

// Writes a line's label.
pub fn write_label(line: &[u8]) {
    write(before(line, b':'));
    write(b": ");
}

pub fn write_end() {
    write(b"\n");
}

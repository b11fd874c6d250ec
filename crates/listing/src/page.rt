// A page: the bytes that are printed, one text behind the other.
ghost use Rattle.std.specs.Prelude.{◌+◌, ◌≤◌, ◌≡◌, [], ◌++◌, length};
ghost use Rattle.listing.specs.InnerPage.{sign_of};
ghost use Rattle.listing.specs.Listed.{ascii, decimal, integer};

use std::marker::Model;

// A page with room for the longest listing: the counts, 17 threads and 65 registers. Texts are put by `put` and not by `write!`, of which no clause says what
// it writes.
#[derive(Drop)]
pub(crate) struct Page {
    bytes: [u8; 4449],
    length: usize,
}

impl Model for Page {
    ghost use Rattle.std.specs.Prelude.{ℕ, List, ◌≤◌, take};

    ghost Value = { List ℕ };

    ghost view = { λ p. take p.length p.bytes };

    ghost invariant = { λ p. p.length ≤ 4449 };
}

impl Page {
    // An empty page.
    pub(crate) fn new() -> Page
        ensures { result ≡ [] }
    {
        Page {
            bytes: [0; 4449],
            length: 0,
        }
    }

    // What stands on the page.
    pub(crate) fn text(&self) -> &[u8]
        ensures text { result.now ≡ self.now }
        ensures bound { length result.now ≤ 4449 }
    {
        &self.bytes[..self.length]
    }

    // A text, behind what stands there.
    pub(crate) fn put(&mut self, text: &[u8])
        requires { length self.old + length text.now ≤ 4449 }
        ensures { self.new ≡ self.old ++ text.now }
    {
        let end = self.length + text.len();
        self.bytes[self.length..end].copy_from_slice(text);
        self.length = end;
    }

    // A word, and behind it a number in decimal.
    pub(crate) fn put_number(&mut self, word: &[u8], n: usize)
        requires { length self.old + length word.now + 20 ≤ 4449 }
        ensures text { self.new ≡ self.old ++ (word.now ++ decimal n) }
        ensures bound { length self.new ≤ length self.old + length word.now + 20 }
    {
        self.put(word);
        let mut digits = [0; 20];
        let k = io::decimal(n as u64, &mut digits);
        self.put(&digits[..k]);
    }

    // A minus where a number is below zero.
    fn put_sign(&mut self, n: i32)
        requires { length self.old + 1 ≤ 4449 }
        ensures text { self.new ≡ self.old ++ sign_of n }
        ensures bound { length self.new ≤ length self.old + 1 }
    {
        if n < 0 {
            self.put(b"-");
        }
    }

    // A word, a signed number, and the end of the line.
    pub(crate) fn put_integer(&mut self, word: &[u8], n: i32)
        requires { length self.old + length word.now + 22 ≤ 4449 }
        ensures text { self.new ≡ self.old ++ (word.now ++ (integer n ++ ascii "\n")) }
        ensures bound { length self.new ≤ length self.old + length word.now + 22 }
    {
        self.put(word);
        self.put_sign(n);
        self.put_number(b"", n.unsigned_abs() as usize);
        self.put(b"\n");
    }
}

// Text into a lent buffer. Each method of `Text` puts its text behind what was put before, as far as there is room: so texts are put one after another with no
// test between them, and in the end the length of the whole is known. All serve the layers above: a text begins at an index below 2^32 (a byte of it may
// stand somewhat behind that).
#![tactic(auto)]

ghost use Rattle.std.specs.Prelude.{◌≡◌, [], ◌∷◌, ◌++◌, ◌+◌, ◌<◌, ◌≤◌, length};
ghost use Rattle.standard.specs.Characters.{bytes, digit_of, padded, shown};
ghost use Rattle.standard.specs.Addresses.{five_bytes};
ghost use Rattle.text.specs.Laid.{Writes, without};

use standard::{Address, Refusal};

// A lent buffer, and the index in it that the next text begins at.
#[derive(Drop)]
pub struct Text<'a> {
    out: &'a mut [u8],
    at: usize,
}

impl<'a> Text<'a> {
    // Text from an index on.
    pub fn at(out: &'a mut [u8], at: usize) -> Text<'a>
        ensures same { result.out.ghost_name ≡ out.entry.ghost_name }
        ensures is { (result.out.now ≡ out.old) × (result.at ≡ at) }
    {
        Text { out, at }
    }

    // The index behind the text.
    pub fn end(&self) -> usize
        ensures { result ≡ self.now.at }
    {
        self.at
    }

    pub fn byte(&mut self, c: u8)
        requires { self.old.at < 8589934592 }
        ensures { Writes self.old self.new 1 (c ∷ []) }
    {
        if self.at < self.out.len() {
            self.out[self.at] = c;
        }
        self.at += 1;
    }

    pub fn bytes(&mut self, text: &[u8])
        requires { (self.old.at < 4294967296) × (length text.now < 65536) }
        ensures { Writes self.old self.new (length text.now) text.now }
    {
        for &c in text {
            self.byte(c);
        }
    }

    // A number in so many digits.
    pub fn padded(&mut self, width: u64, n: u64)
        requires { (self.old.at < 4294967296) × (width < 65536) }
        ensures { (Writes self.old self.new width (padded width n)) × (self.new.at ≡ self.old.at + width) }
    {
        for left in (0..width).rev() {
            self.byte(last_digit(without(left, n)));
        }
    }

    // "other numbers no leading zeros"
    pub fn number(&mut self, n: u64)
        requires { self.old.at < 4294967296 }
        ensures { Writes self.old self.new 20 (shown n) }
    {
        self.padded(width_of(n), n);
    }

    // A text, and a number behind it: ` L=5`.
    pub fn named(&mut self, name: &[u8], n: u64)
        requires { (self.old.at + length name.now < 4294967296) × (length name.now < 65536) }
        ensures { Writes self.old self.new (length name.now + 20) (name.now ++ shown n) }
    {
        self.bytes(name);
        self.number(n);
    }

    // A text, and a refusal behind it: "number and each place, one space between". The second place, which not every line shows, is the caller's.
    pub fn refusal(&mut self, name: &[u8], r: Refusal)
        requires { (self.old.at < 4294901760) × (length name.now < 1024) }
        ensures { Writes self.old self.new (length name.now + 41) ((name.now ++ shown r.number) ++ (bytes " " ++ shown r.first)) }
    {
        self.named(name, u64::from(r.number));
        self.named(b" ", r.first);
    }

    // "Addresses have five digits"
    pub fn address(&mut self, a: Address)
        requires { (self.old.at < 4294967296) × (a.cylinder < 3000) × (a.side < 256) × (a.sector < 3000) }
        ensures { (Writes self.old self.new 5 (five_bytes a)) × (self.new.at ≡ self.old.at + 5) }
    {
        self.padded(5, a.cylinder * 1000 + a.side * 100 + a.sector);
    }
}

// A number without so many of its last digits.
fn without(digits: u64, n: u64) -> u64
    ensures { result ≡ without digits n }
{
    let mut m = n;
    for _ in 0..digits {
        m /= 10;
    }
    m
}

// The last digit of a number, as a character.
fn last_digit(n: u64) -> u8
    ensures { result ≡ digit_of n }
{
    (48 + n % 10) as u8
}

// How many digits a number has.
fn width_of(n: u64) -> u64
    ensures { (result ≡ length (shown n)) × (result ≤ 20) }
{
    let mut m = n;
    let mut width = 1;
    while 10 <= m {
        m /= 10;
        width += 1;
    }
    width
}

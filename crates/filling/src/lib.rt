// The bodies of good records, filled in turn: "Written records get the valid mark; the writer hands each physical record's body on to be filled." A pen stands at
// a byte of a record; what is laid from it goes on over the good records behind. Everything here is inner: the layers above call it on the extent of an accepted
// volume.
#![tactic(auto)]

ghost use Rattle.std.specs.Prelude.{◌≡◌, true, List, ◌∷◌, ℕ, ◌+◌, ◌-◌, ◌/◌, ◌<◌, ◌≤◌, length, take, drop};
ghost use Rattle.standard.specs.Characters.{digit_of, padded};
ghost use Rattle.standard.specs.Layout.{kind_offset};
ghost use Rattle.standard.specs.Addresses.{ordinal};
ghost use Rattle.standard.specs.Packing.{fill};
ghost use Rattle.standard.specs.Writing.{splice};
ghost use Rattle.extents.specs.Cursors.{legal_at, standing};
ghost use Rattle.layout.specs.Room.{Sized};
ghost use Rattle.filling.specs.Poured.{poured, laid_by, Placed, Lays, packed, word_s, Marked, Turned};

use extents::{Cursor, next_good};
use fields::copy_run;
use layout::{kind_behind, kind_of};
use standard::Geometry;

// A record that is begun, the number of its bytes that are laid, and where the next byte stands in the image.
#[derive(Clone, Copy)]
pub struct Pen {
    pub c: Cursor,
    pub i: u64,
    pub at: u64,
}

// "Content left, and physical records' ends, are filled with 00."
fn lay_fill(body: &mut [u8], i: usize, n: usize)
    requires { i + n ≤ length body.old }
    ensures { body.new ≡ splice i (fill n) body.old }
{
    body[i..i + n].fill(0);
}

// The filler: data, and 00 fill behind it, laid into a record's body from byte i on.
fn pack(body: &mut [u8], i: u64, bytes: &[u8], from: u64, n: u64, zeros: u64)
    requires { (i + n + zeros ≤ length body.old) × (from + n ≤ length bytes.now) }
    ensures { body.new ≡ splice i (packed bytes.now from n zeros) body.old }
{
    copy_run(bytes, from, body, i, n);
    lay_fill(body, (i + n) as usize, zeros as usize);
}

// A record is begun: it gets the valid mark, in its kind byte.
fn mark_at(g: Geometry, image: &mut [u8], c: Cursor, at: u64) -> Pen
    requires { (Sized g image.old) × (legal_at g c ≡ true) × (1 ≤ c.left) × (at ≡ kind_offset g (ordinal g c.at)) }
    ensures { Marked g image.old c image.new result }
{
    image[at as usize] = g.k;
    Pen {
        c,
        i: 0,
        at: at + 1,
    }
}

// The same, where it is not known yet where the record is.
fn mark(g: Geometry, image: &mut [u8], c: Cursor) -> Pen
    requires { (Sized g image.old) × (legal_at g c ≡ true) × (1 ≤ c.left) }
    ensures { Marked g image.old c image.new result }
{
    let at = kind_of(g, c.at);
    mark_at(g, image, c, at)
}

// A pen on the first of the records that are to be written.
pub fn begin(g: Geometry, image: &mut [u8], c: Cursor) -> Pen
    requires { (Sized g image.old) × (legal_at g c ≡ true) × (1 ≤ c.left) }
    ensures { ((b : ℕ) (bytes : List ℕ) → poured g (standing g image.old c) (b ∷ bytes) image.old ≡ laid_by g image.new result (b ∷ bytes)) × (Placed g image.new result) }
{
    mark(g, image, c)
}

// From the end of a record to the next good one, past defective records.
fn turn_past(g: Geometry, image: &mut [u8], p: Pen) -> Pen
    requires { (Placed g image.old p) × (p.i ≡ g.P) }
    ensures { Turned g image.old p image.new result }
{
    let next = next_good(g, image, p.c);
    if next.left == 0 {
        return p;
    }
    mark(g, image, next)
}

// From the end of a record to the next good one, where a byte is still to come; behind the last record the pen stays. A record without the incorrect mark is good,
// and most next ones are: where it begins is found once.
fn turn(g: Geometry, image: &mut [u8], p: Pen) -> Pen
    requires { (Placed g image.old p) × (p.i ≡ g.P) }
    ensures { Turned g image.old p image.new result }
{
    let c = p.c;
    let a = c.at;
    let left = c.left;
    let end = p.at;
    if left == 1 {
        return p;
    }
    let next = a.step(g);
    let o = kind_behind(g, a, next, end);
    let kind = u64::from(image[o as usize]);
    if kind == 16 + u64::from(g.k) {
        return turn_past(g, image, p);
    }
    mark_at(
        g,
        image,
        Cursor {
            at: next,
            left: left - 1,
        },
        o,
    )
}

// Data and fill that have room in the record: its body, the part of the image behind the kind byte, is handed to the filler.
fn put_in(g: Geometry, image: &mut [u8], p: Pen, bytes: &[u8], from: u64, n: u64, zeros: u64) -> Pen
    requires { (Placed g image.old p) × (p.i + n + zeros ≤ g.P) × (from + n ≤ length bytes.now) }
    ensures { (Lays g image.old p (packed bytes.now from n zeros) image.new result) × (result.c ≡ p.c) × (result.i ≡ p.i + n + zeros) }
{
    let c = p.c;
    let i = p.i;
    let at = p.at;
    let a = (at - i) as usize;
    let e = a + usize::from(g.P);
    pack(&mut image[a..e], i, bytes, from, n, zeros);
    Pen {
        c,
        i: i + n + zeros,
        at: at + n + zeros,
    }
}

// Data, and fill behind it, laid from a pen on: record by record, and none is begun behind the last one that a byte comes to.
pub fn put(
    g: Geometry,
    image: &mut [u8],
    start: Pen,
    bytes: &[u8],
    first: u64,
    count: u64,
    behind: u64,
) -> Pen
    requires { (Placed g image.old start) × (first + count ≤ length bytes.now) × (count < 4294967296) × (behind < 4294967296) }
    ensures { Lays g image.old start (packed bytes.now first count behind) image.new result }
{
    let size = u64::from(g.P);
    let mut p = start;
    let mut from = first;
    let mut n = count;
    let mut zeros = behind;
    while size - p.i < n + zeros {
        let k = size - p.i;
        let d = n.min(k);
        p = put_in(g, image, p, bytes, from, d, k - d);
        p = turn(g, image, p);
        if p.i == size {
            return p;
        }
        from += d;
        n -= d;
        zeros -= k - d;
    }
    put_in(g, image, p, bytes, from, n, zeros)
}

// A digit of a number, as a character: the one that is worth so much.
fn digit_at(n: u64, worth: u64) -> u8
    requires { 0 < worth }
    ensures { result ≡ digit_of (n / worth) }
{
    (48 + n / worth % 10) as u8
}

// A control word: that of S, "`0`-`3`, four digits". That of V, "four digits", is the last four bytes of it.
fn word_of(digit: u64, size: u64) -> [u8; 5]
    requires { digit < 4 }
    ensures { result ≡ word_s digit size }
{
    [
        (48 + digit) as u8,
        digit_at(size, 1000),
        digit_at(size, 100),
        digit_at(size, 10),
        digit_at(size, 1),
    ]
}

// The last four bytes of a word, laid into a record's body from byte i on.
fn lay_four(body: &mut [u8], i: usize, word: [u8; 5])
    requires { i + 4 ≤ length body.old }
    ensures { body.new ≡ splice i (drop 1 word) body.old }
{
    body[i] = word[1];
    body[i + 1] = word[2];
    body[i + 2] = word[3];
    body[i + 3] = word[4];
}

// The last n bytes of a word: all five, or four.
fn lay_word(body: &mut [u8], i: usize, word: [u8; 5], n: u64)
    requires { (4 ≤ n) × (n ≤ 5) × (i + n ≤ length body.old) }
    ensures { body.new ≡ splice i (drop (5 - n) word) body.old }
{
    if n == 4 {
        lay_four(body, i, word);
        return;
    }
    body[i] = word[0];
    lay_four(body, i + 1, word);
}

// A word that has room in the record: its body is lent, as to the filler. Most words have room, and these need no run of bytes.
fn word_in(g: Geometry, image: &mut [u8], p: Pen, word: [u8; 5], n: u64) -> Pen
    requires { (Placed g image.old p) × (4 ≤ n) × (n ≤ 5) × (p.i + n ≤ g.P) }
    ensures { Lays g image.old p (drop (5 - n) word) image.new result }
{
    let c = p.c;
    let i = p.i;
    let at = p.at;
    let a = (at - i) as usize;
    let e = a + usize::from(g.P);
    lay_word(&mut image[a..e], i as usize, word, n);
    Pen {
        c,
        i: i + n,
        at: at + n,
    }
}

// A word that goes on over records, as data does.
fn word_over(g: Geometry, image: &mut [u8], p: Pen, word: [u8; 5], n: u64) -> Pen
    requires { (Placed g image.old p) × (n ≤ 5) }
    ensures { Lays g image.old p (drop (5 - n) word) image.new result }
{
    put(g, image, p, &word, 5 - n, n, 0)
}

// The control word of S, or the last four bytes of it, that of V.
fn put_word(g: Geometry, image: &mut [u8], p: Pen, digit: u64, size: u64, n: u64) -> Pen
    requires { (Placed g image.old p) × (digit < 4) × (4 ≤ n) × (n ≤ 5) }
    ensures { Lays g image.old p (drop (5 - n) (word_s digit size)) image.new result }
{
    let word = word_of(digit, size);
    let i = p.i;
    if i + n <= u64::from(g.P) {
        return word_in(g, image, p, word, n);
    }
    word_over(g, image, p, word, n)
}

// The control word of V: "four digits".
pub fn put_length(g: Geometry, image: &mut [u8], p: Pen, size: u64) -> Pen
    requires { Placed g image.old p }
    ensures { Lays g image.old p (padded 4 size) image.new result }
{
    put_word(g, image, p, 0, size, 4)
}

// The control word of S: "`0`-`3`, four digits".
pub fn put_segment(g: Geometry, image: &mut [u8], p: Pen, digit: u64, size: u64) -> Pen
    requires { (Placed g image.old p) × (digit < 4) }
    ensures { Lays g image.old p (word_s digit size) image.new result }
{
    put_word(g, image, p, digit, size, 5)
}

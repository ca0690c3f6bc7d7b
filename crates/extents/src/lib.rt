// The records of an extent: a cursor that walks them, the good ones, and what one walk tells of all. Everything here is inner: the layers above call it on
// extents of an accepted volume.
#![tactic(auto)]

ghost use Rattle.std.specs.Prelude.{◌≡◌, true, false, cond, ◌+◌, ◌-◌, ◌<◌, ◌≤◌, length, drop};
ghost use Rattle.standard.specs.Layout.{kind_offset};
ghost use Rattle.standard.specs.Addresses.{legal, ordinal, stepped, address_of};
ghost use Rattle.standard.specs.Files.{addresses_from, is_defective, is_wrong};
ghost use Rattle.extents.specs.Cursors.{legal_at, good_from, standing, Walks};
ghost use Rattle.extents.specs.Surveys.{surveyed};

use fields::rank_of;
use layout::{first_byte, incorrect_mark, kind_after, kind_of, ordinal_of};
use standard::{Address, Geometry, Refusal};

// An address of an extent, and the number of its addresses from there on.
#[derive(Clone, Copy)]
pub struct Cursor {
    pub at: Address,
    pub left: u64,
}

// "A record of the extent is defective if its mark is incorrect and its first byte `F`". Its kind stands at `o`.
pub fn is_defective(g: Geometry, image: &[u8], a: Address, o: u64) -> bool
    requires { (legal g a ≡ true) × (o ≡ kind_offset g (ordinal g a)) }
    ensures { result ≡ is_defective g image.now a }
{
    incorrect_mark(g, image, a, o) && first_byte(g, image, a, o) == 70
}

// What one look at a record tells.
#[derive(Clone, Copy)]
enum Flaw {
    Good,
    Defective,
    Wrong,
}

// One look at a record: whether it is wrong ("incorrect mark, not `F`"), or defective. A walk over all records asks this once of each.
fn flaw_of(g: Geometry, image: &[u8], a: Address, o: u64) -> Flaw
    requires { (legal g a ≡ true) × (o ≡ kind_offset g (ordinal g a)) }
    ensures { result ≡ cond (is_wrong g image.now a) Flaw.Wrong (cond (is_defective g image.now a) Flaw.Defective Flaw.Good) }
{
    if incorrect_mark(g, image, a, o) {
        if first_byte(g, image, a, o) == 70 {
            return Flaw::Defective;
        }
        return Flaw::Wrong;
    }
    Flaw::Good
}

// A walk over records: the address that it stands at, the number of addresses from there on, and where the kind of the record there stands in the image.
#[derive(Clone, Copy)]
pub struct Walk {
    pub at: Address,
    pub left: u64,
    pub kind: u64,
}

impl Walk {
    // From a cursor with an address left.
    pub fn begin(g: Geometry, c: Cursor) -> Walk
        requires { (legal_at g c ≡ true) × (1 ≤ c.left) }
        ensures { Walks g result × (result.at ≡ c.at) × (result.left ≡ c.left) }
    {
        Walk {
            at: c.at,
            left: c.left,
            kind: kind_of(g, c.at),
        }
    }

    // Onward by one record: each stands behind the one before, but where the track ends.
    pub fn step(self, g: Geometry) -> Walk
        requires { Walks g self × (1 ≤ self.left) }
        ensures { Walks g result × (result.at ≡ stepped g self.at) × (result.left ≡ self.left - 1) }
    {
        let next = self.at.step(g);
        Walk {
            at: next,
            left: self.left - 1,
            kind: kind_after(g, self.at, next, self.kind),
        }
    }
}

// One walk over all records from a cursor on: refusal 17 of the first wrong record, or whether every record is good, not some defective.
pub fn survey(g: Geometry, image: &[u8], from: Cursor) -> Result<bool, Refusal>
    requires { legal_at g from ≡ true }
    ensures { result ≡ surveyed g image.now false (addresses_from g from.left from.at) }
{
    if from.left == 0 {
        return Ok(true);
    }
    let mut w = Walk::begin(g, from);
    let mut holed = false;
    while 0 < w.left {
        match flaw_of(g, image, w.at, w.kind) {
            Flaw::Wrong => return Err(Refusal::at(17, ordinal_of(g, w.at))),
            Flaw::Defective => holed = true,
            Flaw::Good => {}
        }
        w = w.step(g);
    }
    Ok(!holed)
}

// Onward to the good record behind n other good ones, from where a walk stands.
fn past_good(g: Geometry, image: &[u8], from: Walk, n: u64) -> Cursor
    requires { Walks g from }
    ensures { (standing g image.now result ≡ drop n (good_from g image.now from.left from.at)) × (legal_at g result ≡ true) × (result.left ≤ from.left) }
{
    let mut w = from;
    let mut i = n;
    while 0 < w.left {
        let bad = is_defective(g, image, w.at, w.kind);
        if !bad & (i == 0) {
            return Cursor {
                at: w.at,
                left: w.left,
            };
        }
        i -= u64::from(!bad);
        w = w.step(g);
    }
    Cursor { at: w.at, left: 0 }
}

// Onward past the defective records.
pub fn to_good(g: Geometry, image: &[u8], from: Cursor) -> Cursor
    requires { legal_at g from ≡ true }
    ensures { (standing g image.now result ≡ good_from g image.now from.left from.at) × (legal_at g result ≡ true) × (result.left ≤ from.left) }
{
    if from.left == 0 {
        return from;
    }
    past_good(g, image, Walk::begin(g, from), 0)
}

// Past n good records.
pub fn skip_good(g: Geometry, image: &[u8], from: Cursor, n: u64) -> Cursor
    requires { legal_at g from ≡ true }
    ensures { (standing g image.now result ≡ drop n (standing g image.now from)) × (legal_at g result ≡ true) × (result.left ≤ from.left) × (0 < n → result.left ≤ from.left - 1) }
{
    if (n == 0) | (from.left == 0) {
        return from;
    }
    past_good(g, image, Walk::begin(g, from).step(g), n - 1)
}

// The next good record.
pub fn next_good(g: Geometry, image: &[u8], c: Cursor) -> Cursor
    requires { (legal_at g c ≡ true) × (1 ≤ c.left) }
    ensures { (standing g image.now result ≡ drop 1 (standing g image.now c)) × (legal_at g result ≡ true) × (result.left < c.left) }
{
    skip_good(g, image, c, 1)
}

// The number of good records.
pub fn count_good(g: Geometry, image: &[u8], from: Cursor) -> u64
    requires { (legal_at g from ≡ true) × (from.left < 4294967296) }
    ensures { result ≡ length (good_from g image.now from.left from.at) }
{
    let mut n = 0;
    if from.left == 0 {
        return n;
    }
    let mut w = Walk::begin(g, from);
    while 0 < w.left {
        let bad = is_defective(g, image, w.at, w.kind);
        n += u64::from(!bad);
        w = w.step(g);
    }
    n
}

// The address of a rank.
pub fn address_of(g: Geometry, r: u64) -> Address
    requires { (0 < g.D) × (0 < g.S) × (r < 8589934592) }
    ensures { result ≡ address_of g r }
{
    let d = u64::from(g.D);
    let s = u64::from(g.S);
    let track = r / d;
    Address {
        cylinder: track / s + 1,
        side: track % s,
        sector: r % d + 1,
    }
}

// Past n records, good or not, by arithmetic.
fn skip_any(g: Geometry, from: Cursor, n: u64) -> Cursor
    requires { (legal_at g from ≡ true) × (from.left < 4294967296) }
    ensures { (addresses_from g result.left result.at ≡ drop n (addresses_from g from.left from.at)) × (legal_at g result ≡ true) × (result.left ≤ from.left) }
{
    let at = from.at;
    let left = from.left;
    if left <= n {
        return Cursor { at, left: 0 };
    }
    Cursor {
        at: address_of(g, rank_of(g, at) + n),
        left: left - n,
    }
}

// Onward to the good record behind n others: by arithmetic where every record is good, else by one walk.
pub fn nth_good(g: Geometry, image: &[u8], from: Cursor, whole: bool, n: u64) -> Cursor
    requires { (legal_at g from ≡ true) × (from.left < 4294967296) × (whole ≡ true → good_from g image.now from.left from.at ≡ addresses_from g from.left from.at) }
    ensures { (standing g image.now result ≡ drop n (good_from g image.now from.left from.at)) × (legal_at g result ≡ true) × (result.left ≤ from.left) }
{
    if whole {
        return skip_any(g, from, n);
    }
    skip_good(g, image, to_good(g, image, from), n)
}

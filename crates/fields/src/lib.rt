// The characters and the numbers of a label's fields. All functions serve the layers above (inner): a `requires` states a field's width, or a bound that
// the contracts of the callers give.
#![tactic(auto)]

ghost use Rattle.std.specs.Prelude.{◌≡◌, ◌&&◌, ◌||◌, not, ◌+◌, ◌-◌, ◌*◌, ◌%◌, ◌^◌, ◌<◌, ◌≤◌, length, drop, eqb};
ghost use Rattle.std.proofs.Math.Seq.{paste};
ghost use Rattle.standard.specs.Characters.{between, one_of, same, a_set, in_a_set, is_hex, hex_digits, spaces, digits, digit_value, number, hex_value, hex, spaces_or_number};
ghost use Rattle.standard.specs.Addresses.{address_in, legal, past_last, rank, is_address};
ghost use Rattle.fields.specs.Numbers.{perhaps};

use standard::{Address, Geometry, digit, is_digit};

// Tests of numbers, and tests joined.
pub fn is(a: u64, b: u64) -> bool
    ensures { result ≡ eqb a b }
{
    a == b
}

pub fn in_range(low: u64, high: u64, n: u64) -> bool
    ensures { result ≡ between low high n }
{
    (low <= n) & (n <= high)
}

// A part of a rule that applies only where the test holds.
pub fn if_so(test: bool, part: bool) -> bool
    ensures { result ≡ (not test || part) }
{
    !test | part
}

// "The a-set (house reading): bytes hex 20-22, 25-3F, 41-5A, 5F." That is 20-5F but for seven (which a compiler can make one
// look at a row of bits).
pub fn in_a_set(c: u64) -> bool
    ensures { result ≡ a_set c }
{
    if c < 32 {
        return false;
    }
    if 95 < c {
        return false;
    }
    !((c == 35) | (c == 36) | (c == 64) | (c == 91) | (c == 92) | (c == 93) | (c == 94))
}

// "Hex digits are 0-9, A-F."
pub fn is_hex(c: u64) -> bool
    ensures { result ≡ is_hex c }
{
    is_digit(c) | in_range(65, 70, c)
}

// One of the characters given.
pub fn one_of(c: u64, xs: &[u64]) -> bool
    ensures { result ≡ one_of xs.now c }
{
    xs.iter().any(|&x| c == x)
}

// Whether every character of a field is a space, of the a-set, a hex digit.
pub fn all_spaces(f: &[u8]) -> bool
    ensures { result ≡ spaces f.now }
{
    f.iter().all(|&c| c == 32)
}

pub fn all_in_a_set(f: &[u8]) -> bool
    ensures { result ≡ in_a_set f.now }
{
    f.iter().all(|&c| in_a_set(u64::from(c)))
}

pub fn all_hex(f: &[u8]) -> bool
    ensures { result ≡ hex_digits f.now }
{
    f.iter().all(|&c| is_hex(u64::from(c)))
}

// Whether two fields have the same bytes.
pub fn same_as(f: &[u8], w: &[u8]) -> bool
    ensures { result ≡ same f.now w.now }
{
    f == w
}

// The number that a field spells, if all its characters are digits: tested and reckoned in one pass.
pub fn decimal_in(f: &[u8]) -> Option<u64>
    requires { length f.now ≤ 9 }
    ensures { result ≡ perhaps (digits f.now) (number f.now) }
{
    let mut n = 0;
    for &b in f {
        let c = u64::from(b);
        if !is_digit(c) {
            return None;
        }
        n = n * 10 + digit(c);
    }
    Some(n)
}

// A field that may be blank: spaces, or a number of a range.
pub fn spaces_or_number(low: u64, high: u64, f: &[u8]) -> bool
    requires { length f.now ≤ 9 }
    ensures { result ≡ spaces_or_number low high f.now }
{
    if all_spaces(f) {
        return true;
    }
    let Some(n) = decimal_in(f) else {
        return false;
    };
    in_range(low, high, n)
}

// Numbers of fields that were judged before, or are judged elsewhere. A field of any bytes spells one; the bounds hold of any bytes.
pub fn number_in(f: &[u8]) -> u64
    requires { length f.now ≤ 5 }
    ensures { (result ≡ number f.now) × (result < 30 * 10 ^ length f.now) }
{
    let mut n = 0;
    for &c in f {
        n = n * 10 + digit(u64::from(c));
    }
    n
}

fn hex_digit(c: u64) -> u64
    requires { c < 256 }
    ensures { (result ≡ hex_value c) × (result < 512) }
{
    if is_digit(c) {
        return digit(c);
    }
    minus(c, 65) + 10
}

pub fn hex_in(f: &[u8]) -> u64
    requires { length f.now ≤ 2 }
    ensures { (result ≡ hex f.now) × (result < 10000) × (length f.now ≡ 1 → result < 512) }
{
    let mut n = 0;
    for &c in f {
        n = n * 16 + hex_digit(u64::from(c));
    }
    n
}

// Reckoning. A difference that is 0 where there is none; products with a factor of at most MOST; what is left of a division, also of one by 0.
pub fn minus(a: u64, b: u64) -> u64
    ensures { result ≡ a - b }
{
    a.saturating_sub(b)
}

pub fn times<const MOST: u64>(a: u64, b: u64) -> u64
    requires { (a < 1099511627776) × (b ≤ MOST) × (MOST ≤ 65536) }
    ensures { (result ≡ a * b) × (result ≤ a * MOST) }
{
    a * b
}

pub fn rest(a: u64, b: u64) -> u64
    ensures { result ≡ a % b }
{
    a.checked_rem(b).unwrap_or(a)
}

pub fn is_multiple(a: u64, b: u64) -> bool
    ensures { result ≡ eqb (a % b) 0 }
{
    is(rest(a, b), 0)
}

// Bytes: n of a list, from an index on, laid over those of another. (Byte by byte, as `copy_from_slice` wants `memmove`: the header says that the archive wants
// `memset` and `memcpy` alone.)
pub fn copy_run(bytes: &[u8], from: u64, out: &mut [u8], at: u64, n: u64)
    requires { (from + n ≤ length bytes.now) × (at + n ≤ length out.old) }
    ensures { out.new ≡ paste out.old at (drop from bytes.now) n }
{
    for i in 0..n {
        out[(at + i) as usize] = bytes[(from + i) as usize];
    }
}

// Addresses. "cylinder 01..L, side below S, sector 01..D."
pub fn is_legal(g: Geometry, a: Address) -> bool
    ensures { result ≡ legal g a }
{
    let s = a.side;
    let n = u64::from(g.S);
    in_range(1, u64::from(g.L), a.cylinder) & (s < n) & in_range(1, u64::from(g.D), a.sector)
}

// "The step from the last address gives cylinder L+1, side 0, sector 01, legal only as a data end."
pub fn past_last(g: Geometry, a: Address) -> bool
    ensures { result ≡ past_last g a }
{
    is(a.cylinder, u64::from(g.L) + 1) & is(a.side, 0) & is(a.sector, 1)
}

// "Sector counts fastest, then side, then cylinder." The bounds are those of any five bytes (`Address::spelled`).
pub fn rank_of(g: Geometry, a: Address) -> u64
    requires { (a.cylinder < 3000) × (a.side < 256) × (a.sector < 3000) }
    ensures { (result ≡ rank g a) × (result < 4294967296) }
{
    let c = minus(a.cylinder, 1);
    let n = minus(a.sector, 1);
    times::<255>(times::<255>(c, u64::from(g.S)) + a.side, u64::from(g.D)) + n
}

// The rank of the address that stands in a field, if it is one.
pub fn address_rank(g: Geometry, f: &[u8]) -> Option<u64>
    ensures { result ≡ perhaps (is_address g f.now) (rank g (address_in f.now)) }
{
    let a = Address::read(f)?;
    if !is_legal(g, a) {
        return None;
    }
    Some(rank_of(g, a))
}

// The rules of a label's fields, one by one. What a rule reads of other fields is handed to it, read and judged: "A part of a rule that reads another field
// is not applied while that field is itself at fault." All functions serve the layer above (inner), which judges the fields in order.
#![tactic(auto)]

ghost use Rattle.std.specs.Prelude.{◌≡◌, true, ◌&&◌, ◌||◌, ◌+◌, ◌-◌, ◌≤◌, length, take, drop};
ghost use Rattle.standard.specs.Characters.{bytes, field, at, same, in_a_set, spaces};
ghost use Rattle.standard.specs.Addresses.{rank};
ghost use Rattle.standard.specs.Labels.{level, name_of, block_length, start_of, record_length, rule6, rule23, rule29, rule35, rule40, rule54, rule58, rule63, rule75, spaces_or_date};
ghost use Rattle.fields.specs.Numbers.{perhaps};
ghost use Rattle.checks.specs.Parts.{is_other, format_right, block_least, block_fits, blocked_right, blank_or, record_fits, unused_fits};
ghost use Rattle.checks.specs.Held.{Held};

use fields::{
    address_rank, all_in_a_set, all_spaces, decimal_in, if_so, in_range, is_legal, is_multiple,
    number_in, one_of, past_last, rank_of, same_as, times,
};
use standard::{Address, Geometry};

// What the rows up to 40 have read: the level and its verdict, the format, B, the rank of the start.
#[derive(Clone, Copy)]
pub struct Seen {
    pub level: u64,
    pub right44: bool,
    pub format: u64,
    pub block: u64,
    pub start: u64,
}

// "space, 1, 2 or another a-character"
#[tactic(auto, unfolding(crate::specs::Parts::is_other))]
pub fn is_other(c: u64, right44: bool) -> bool
    ensures { result ≡ is_other c right44 }
{
    right44 & !((c == 32) | (c == 49) | (c == 50))
}

// A space is in the a-set, so where 14-22 are spaces only 6-13 are asked for the rest of it.
fn short_name(h: &[u8]) -> bool
    requires { length h.now ≡ 128 }
    ensures { result ≡ (in_a_set (name_of h.now) && spaces (field h.now 14 22)) }
{
    if !all_spaces(&h[13..22]) {
        return false;
    }
    all_in_a_set(&h[5..13])
}

// "6-22 a-set; levels space and 1 have spaces in 14-22."
pub fn name_right(h: &[u8], c: u64) -> bool
    requires { (length h.now ≡ 128) × (c ≡ level h.now) }
    ensures { result ≡ rule6 h.now }
{
    if (c == 32) | (c == 49) {
        return short_name(h);
    }
    all_in_a_set(&h[5..22])
}

// "29-33 start": its rank, if it is an address.
#[tactic(auto, unfolding(standard::specs::Labels::rule29))]
pub fn start_in(g: Geometry, h: &[u8]) -> Option<u64>
    requires { length h.now ≡ 128 }
    ensures { result ≡ perhaps (rule29 g h.now) (rank g (start_of h.now)) }
{
    address_rank(g, &h[28..33])
}

// "35-39 end, not before start."
pub fn end_right(g: Geometry, h: &[u8], start: u64) -> bool
    requires { (length h.now ≡ 128) × (start ≡ rank g (start_of h.now)) × (rule29 g h.now ≡ true) }
    ensures { result ≡ rule35 g h.now }
{
    let Some(end) = address_rank(g, &h[34..39]) else {
        return false;
    };
    !(end < start)
}

// "40 space or F (fixed), V, S; levels space and 1 fixed only."
#[tactic(auto, unfolding(crate::specs::Parts::format_right))]
pub fn format_right(c: u64, f: u64) -> bool
    ensures { result ≡ format_right c f }
{
    one_of(f, &[32, 70, 86, 83]) & if_so((c == 32) | (c == 49), one_of(f, &[32, 70]))
}

// "at least 1, 4, 5 for F, V, S"
#[tactic(auto, unfolding(crate::specs::Parts::block_least))]
fn block_least(f: u64, right40: bool, b: u64) -> bool
    ensures { result ≡ block_least f right40 b }
{
    (!right40 | (!one_of(f, &[32, 70]) | (1 <= b)))
        & (!right40 | (!one_of(f, &[86]) | (4 <= b)))
        & (!right40 | (!one_of(f, &[83]) | (5 <= b)))
}

// "at most D·P; above P a multiple of P; level space at most P; V and S at most 9,999 (house)."
#[tactic(auto, unfolding(crate::specs::Parts::block_fits))]
fn block_fits(g: Geometry, c: u64, f: u64, right40: bool, b: u64) -> bool
    ensures { result ≡ block_fits g c f right40 b }
{
    let p = u64::from(g.P);
    let most = times::<65536>(u64::from(g.D), p);
    let long = one_of(f, &[86]) | one_of(f, &[83]);
    block_least(f, right40, b)
        & (b <= most)
        & (!(p < b) | is_multiple(b, p))
        & (!(c == 32) | (b <= p))
        & (!right40 | (!long | (b <= 9999)))
}

// "23-27 block length B": the number, if the field is right. A part that reads 40 is not applied while 40 is at fault.
pub fn block_in(g: Geometry, h: &[u8], c: u64, f: u64, right40: bool) -> Option<u64>
    requires { (length h.now ≡ 128) × (c ≡ level h.now) × (f ≡ at h.now 40) × (right40 ≡ rule40 h.now) }
    ensures { result ≡ perhaps (rule23 g h.now) (block_length h.now) }
{
    let b = decimal_in(&h[22..27])?;
    block_fits(g, c, f, right40, b).then_some(b)
}

// "63 space, or B for blocked; S needs B; level space needs space." 40 is right.
#[tactic(auto, unfolding(crate::specs::Parts::blocked_right))]
pub fn blocked_right(c: u64, f: u64, b: u64) -> bool
    ensures { result ≡ blocked_right c f b }
{
    one_of(b, &[32, 66]) & (!one_of(f, &[83]) | (b == 66)) & (!(c == 32) | (b == 32))
}

// The number of a field that may be blank, if it is blank or has digits. It stands from a on and ends before e.
#[tactic(auto, unfolding(crate::specs::Parts::blank_or))]
fn blank_or(blank: u64, h: &[u8], a: usize, e: usize) -> Option<u64>
    requires { (length h.now ≡ 128) × (a ≤ e) × (e ≤ 128) × (e ≤ a + 9) }
    ensures { result ≡ blank_or blank (take (e - a) (drop a h.now)) }
{
    let f = &h[a..e];
    if all_spaces(f) {
        return Some(blank);
    }
    decimal_in(f)
}

// "F: 1 to B, equal to B if unblocked, else a divisor of B; level space R = B. V: 4 to B, RCW counted." A part that reads 63 is not applied while 63 is at
// fault; 23 and 40 are right.
#[tactic(auto, unfolding(crate::specs::Parts::record_fits))]
fn record_fits(c: u64, f: u64, right63: bool, blocked: bool, b: u64, r: u64) -> bool
    ensures { result ≡ record_fits c f right63 blocked b r }
{
    let fixed = one_of(f, &[32, 70]);
    (!fixed | in_range(1, b, r))
        & (!right63 | (!(fixed & !blocked) | (r == b)))
        & (!right63 | (!(fixed & blocked) | is_multiple(b, r)))
        & (!(c == 32) | (r == b))
        & (!one_of(f, &[86]) | in_range(4, b, r))
}

// "54-57 record length R; spaces mean R = B": the number, if the field is right.
pub fn record_in(g: Geometry, h: &[u8], x: Seen, b: u64, right63: bool) -> Option<u64>
    requires { (length h.now ≡ 128) × Held g h.now x × (b ≡ at h.now 63) × (right63 ≡ rule63 h.now) }
    ensures { result ≡ perhaps (rule54 g h.now) (record_length h.now) }
{
    let r = blank_or(x.block, h, 53, 57)?;
    record_fits(x.level, x.format, right63, b == 66, x.block, r).then_some(r)
}

#[tactic(auto, unfolding(crate::specs::Parts::unused_fits))]
fn unused_fits(f: u64, right63: bool, blocked: bool, b: u64, r: u64, u: u64) -> bool
    ensures { result ≡ unused_fits f right63 blocked b r u }
{
    (u < b) & (!right63 | (blocked | (u == 0))) & (!one_of(f, &[32, 70]) | is_multiple(u, r))
}

// "58-62 unused count U, spaces meaning 0, below B; 0 if unblocked; for F a multiple of R." 23, 40 and 54 are right.
pub fn unused_right(g: Geometry, h: &[u8], x: Seen, b: u64, right63: bool, r: u64) -> bool
    requires { (length h.now ≡ 128) × Held g h.now x × (b ≡ at h.now 63) × (right63 ≡ rule63 h.now) × (r ≡ record_length h.now) × (rule54 g h.now ≡ true) }
    ensures { result ≡ rule58 g h.now }
{
    let Some(u) = blank_or(0, h, 57, 62) else {
        return false;
    };
    unused_fits(x.format, right63, b == 66, x.block, r, u)
}

// "spaces or YYMMDD (month 01-12, day 01-31)"
#[tactic(auto, unfolding(standard::specs::Labels::spaces_or_date))]
fn spaces_or_date(f: &[u8]) -> bool
    requires { length f.now ≡ 6 }
    ensures { result ≡ spaces_or_date f.now }
{
    if all_spaces(f) {
        return true;
    }
    decimal_in(f).is_some()
        & in_range(1, 12, number_in(&f[2..4]))
        & in_range(1, 31, number_in(&f[4..6]))
}

// "48-53 spaces or YYMMDD"
pub fn date_right(h: &[u8]) -> bool
    requires { length h.now ≡ 128 }
    ensures { result ≡ spaces_or_date (field h.now 48 53) }
{
    spaces_or_date(&h[47..53])
}

// "67-72 the same, or 999999."
pub fn expiry_right(h: &[u8]) -> bool
    requires { length h.now ≡ 128 }
    ensures { result ≡ (spaces_or_date (field h.now 67 72) || same (field h.now 67 72) (bytes "999999")) }
{
    let f = &h[66..72];
    if spaces_or_date(f) {
        return true;
    }
    same_as(f, b"999999")
}

// "75-79 data end: not before start, an address or the one past the last."
pub fn data_end_right(g: Geometry, h: &[u8], start: u64) -> bool
    requires { (length h.now ≡ 128) × (start ≡ rank g (start_of h.now)) × (rule29 g h.now ≡ true) }
    ensures { result ≡ rule75 g h.now }
{
    let Some(a) = Address::read(&h[74..79]) else {
        return false;
    };
    if !(is_legal(g, a) | past_last(g, a)) {
        return false;
    }
    let end = rank_of(g, a);
    !(end < start)
}

// Which rule of a label is broken. "In all three labels a fault is reported at its field's first position, the lowest first."
//
// Each field is read once and each rule decided once, in the order of the table: where a row is reached, the rows above it hold. "A part of a rule that
// reads another field is not applied while that field is itself at fault" so matters only where a field reads a higher one: 23 reads 40, 54 and 58 read 63.
// The verdicts of 40 and 63 are made before those fields are judged, and handed on. (6, 23 and 40 read 44 too, but where 44 is at fault no level's test holds.)
// All functions serve the layers above (inner).
#![tactic(auto)]

ghost use Rattle.std.specs.Prelude.{◌≡◌, true, length, drop};
ghost use Rattle.standard.specs.Addresses.{rank};
ghost use Rattle.standard.specs.Rules.{lowest_fault};
ghost use Rattle.standard.specs.Labels.{level, start_of, rule29, rule44, label_fault};
ghost use Rattle.fields.specs.Numbers.{fault_in};
ghost use Rattle.rules.specs.Tables.{other_rows, known_rows};
ghost use Rattle.checks.specs.Held.{Held};

use checks::{
    Seen, block_in, blocked_right, data_end_right, date_right, end_right, expiry_right,
    format_right, is_other, name_right, record_in, start_in, unused_right,
};
use fields::{in_a_set, one_of, spaces_or_number};
use labels::{is_hdr1, level_of};
use standard::Geometry;

// The lowest position at fault.
pub fn label_fault(g: Geometry, h: &[u8]) -> Option<u64>
    requires { length h.now ≡ 128 }
    ensures { result ≡ fault_in (label_fault g h.now) }
{
    if !is_hdr1(h) {
        return Some(1);
    }
    let c = level_of(h);
    let right44 = in_a_set(c);
    if is_other(c, right44) {
        return other_fault(g, h);
    }
    known_fault(g, h, c, right44)
}

// "Another level has only 1-4, 29-33, 35-39 and 44 judged."
fn other_fault(g: Geometry, h: &[u8]) -> Option<u64>
    requires { length h.now ≡ 128 }
    ensures { result ≡ fault_in (lowest_fault (other_rows g h.now)) }
{
    let Some(start) = start_in(g, h) else {
        return Some(29);
    };
    if !end_right(g, h, start) {
        return Some(35);
    }
    None
}

// The rows from 6 on, for level space, 1, 2 and for one outside the a-set.
#[tactic(auto, using(fields::proofs::RowLaws::rows), unfolding(crate::specs::Tables::known_rows))]
fn known_fault(g: Geometry, h: &[u8], c: u64, right44: bool) -> Option<u64>
    requires { (length h.now ≡ 128) × (c ≡ level h.now) × (right44 ≡ rule44 h.now) }
    ensures { result ≡ fault_in (lowest_fault (known_rows g h.now)) }
{
    if !name_right(h, c) {
        return Some(6);
    }
    fault_from_23(g, h, c, right44)
}

// 23 reads 40, whose verdict is made first.
fn fault_from_23(g: Geometry, h: &[u8], c: u64, right44: bool) -> Option<u64>
    requires { (length h.now ≡ 128) × (c ≡ level h.now) × (right44 ≡ rule44 h.now) }
    ensures { result ≡ fault_in (lowest_fault (drop 1 (known_rows g h.now))) }
{
    let f = u64::from(h[39]);
    let right40 = format_right(c, f);
    let Some(block) = block_in(g, h, c, f, right40) else {
        return Some(23);
    };
    let Some(start) = start_in(g, h) else {
        return Some(29);
    };
    if !end_right(g, h, start) {
        return Some(35);
    }
    if !right40 {
        return Some(40);
    }
    fault_from_41(
        g,
        h,
        Seen {
            level: c,
            right44,
            format: f,
            block,
            start,
        },
    )
}

#[tactic(auto, using(fields::proofs::RowLaws::rows), unfolding(crate::specs::Tables::known_rows, standard::specs::Labels::rule41, standard::specs::Labels::rule42, standard::specs::Labels::rule43))]
fn fault_from_41(g: Geometry, h: &[u8], x: Seen) -> Option<u64>
    requires { (length h.now ≡ 128) × Held g h.now x }
    ensures { result ≡ fault_in (lowest_fault (drop 5 (known_rows g h.now))) }
{
    if !one_of(u64::from(h[40]), &[32, 66]) {
        return Some(41);
    }
    if !in_a_set(u64::from(h[41])) {
        return Some(42);
    }
    if !one_of(u64::from(h[42]), &[32, 80]) {
        return Some(43);
    }
    if !x.right44 {
        return Some(44);
    }
    fault_from_45(g, h, x)
}

#[tactic(auto, using(fields::proofs::RowLaws::rows), unfolding(crate::specs::Tables::known_rows, standard::specs::Labels::rule45, standard::specs::Labels::rule46, standard::specs::Labels::rule48))]
fn fault_from_45(g: Geometry, h: &[u8], x: Seen) -> Option<u64>
    requires { (length h.now ≡ 128) × Held g h.now x }
    ensures { result ≡ fault_in (lowest_fault (drop 9 (known_rows g h.now))) }
{
    if !one_of(u64::from(h[44]), &[32, 67, 76]) {
        return Some(45);
    }
    if !spaces_or_number(1, 99, &h[45..47]) {
        return Some(46);
    }
    if !date_right(h) {
        return Some(48);
    }
    fault_from_54(g, h, x)
}

// 54 and 58 read 63, whose verdict is made first.
fn fault_from_54(g: Geometry, h: &[u8], x: Seen) -> Option<u64>
    requires { (length h.now ≡ 128) × Held g h.now x }
    ensures { result ≡ fault_in (lowest_fault (drop 12 (known_rows g h.now))) }
{
    let b = u64::from(h[62]);
    let right63 = blocked_right(x.level, x.format, b);
    let Some(r) = record_in(g, h, x, b, right63) else {
        return Some(54);
    };
    if !unused_right(g, h, x, b, right63, r) {
        return Some(58);
    }
    if !right63 {
        return Some(63);
    }
    fault_from_64(g, h, x.start)
}

#[tactic(auto, using(fields::proofs::RowLaws::rows), unfolding(crate::specs::Tables::known_rows, standard::specs::Labels::rule64, standard::specs::Labels::rule67, standard::specs::Labels::rule73))]
fn fault_from_64(g: Geometry, h: &[u8], start: u64) -> Option<u64>
    requires { (length h.now ≡ 128) × (start ≡ rank g (start_of h.now)) × (rule29 g h.now ≡ true) }
    ensures { result ≡ fault_in (lowest_fault (drop 15 (known_rows g h.now))) }
{
    if !one_of(u64::from(h[63]), &[32, 83]) {
        return Some(64);
    }
    if !expiry_right(h) {
        return Some(67);
    }
    if !in_a_set(u64::from(h[72])) {
        return Some(73);
    }
    if !data_end_right(g, h, start) {
        return Some(75);
    }
    None
}

// VOL1 and ERMAP: which of their rules is broken, and the numbers that they give a volume. A label is the 128 bytes of its sector; all functions serve the
// layers above (inner).
#![tactic(auto)]

ghost use Rattle.std.specs.Prelude.{◌≡◌, ◌&&◌, ◌||◌, not, ◌+◌, ◌-◌, ◌*◌, ◌^◌, ◌<◌, ◌≤◌, length, drop, ltb, leb};
ghost use Rattle.standard.specs.Characters.{bytes, between, same, field, spaces, hex};
ghost use Rattle.standard.specs.Rules.{lowest_fault};
ghost use Rattle.standard.specs.Volume.{vol1_rules, hex_between, volume_k};
ghost use Rattle.standard.specs.Defects.{is_cylinder, cylinder_in, ermap_rules, defect_in};
ghost use Rattle.fields.specs.Numbers.{fault_in};
ghost use Rattle.numbers.specs.Numbers.{bare, defected};

use fields::{
    all_hex, all_in_a_set, all_spaces, decimal_in, hex_in, in_a_set, in_range, is, minus,
    number_in, one_of, same_as, spaces_or_number,
};
use standard::{Geometry, digit};

// A field of hex digits, two at most, whose number is in a range.
fn hex_between(low: u64, high: u64, f: &[u8]) -> bool
    requires { length f.now ≤ 2 }
    ensures { result ≡ hex_between low high f.now }
{
    all_hex(f) & in_range(low, high, hex_in(f))
}

// "81-82 hex L, 1-96; 83-84 hex I, 8-26; 85-86 hex D, 1-26; 89 hex S, 1-2."
#[tactic(auto, using(fields::proofs::RowLaws::rows), unfolding(standard::specs::Volume::vol1_rules))]
fn vol1_fault_from_81(v: &[u8]) -> Option<u64>
    requires { length v.now ≡ 128 }
    ensures { result ≡ fault_in (lowest_fault (drop 8 (vol1_rules v.now))) }
{
    if !hex_between(1, 96, &v[80..82]) {
        return Some(81);
    }
    if !hex_between(8, 26, &v[82..84]) {
        return Some(83);
    }
    if !hex_between(1, 26, &v[84..86]) {
        return Some(85);
    }
    if !hex_between(1, 2, &v[88..89]) {
        return Some(89);
    }
    None
}

// "72 `A`; 76 space, 1, 2, 3 for P = 128, 256, 512, 1024; 77-78 spaces or 01-13"; 2026-02: "Position 80 must be `3`; 79 becomes reserved and is not judged."
#[tactic(auto, using(fields::proofs::RowLaws::rows), unfolding(standard::specs::Volume::vol1_rules))]
fn vol1_fault_from_72(v: &[u8]) -> Option<u64>
    requires { length v.now ≡ 128 }
    ensures { result ≡ fault_in (lowest_fault (drop 4 (vol1_rules v.now))) }
{
    if !one_of(u64::from(v[71]), &[65]) {
        return Some(72);
    }
    if !one_of(u64::from(v[75]), &[32, 49, 50, 51]) {
        return Some(76);
    }
    if !spaces_or_number(1, 13, &v[76..78]) {
        return Some(77);
    }
    if !one_of(u64::from(v[79]), &[51]) {
        return Some(80);
    }
    vol1_fault_from_81(v)
}

// "1-4 `VOL1`"
fn is_vol1(v: &[u8]) -> bool
    requires { length v.now ≡ 128 }
    ensures { result ≡ same (field v.now 1 4) (bytes "VOL1") }
{
    same_as(&v[0..4], b"VOL1")
}

// VOL1: the lowest position at fault. "1-4 `VOL1`; 5-10, 11, 38-51 in the a-set"
#[tactic(auto, using(fields::proofs::RowLaws::rows), unfolding(standard::specs::Volume::vol1_rules))]
pub fn vol1_fault(v: &[u8]) -> Option<u64>
    requires { length v.now ≡ 128 }
    ensures { result ≡ fault_in (lowest_fault (vol1_rules v.now)) }
{
    if !is_vol1(v) {
        return Some(1);
    }
    if !all_in_a_set(&v[4..10]) {
        return Some(5);
    }
    if !in_a_set(u64::from(v[10])) {
        return Some(11);
    }
    if !all_in_a_set(&v[37..51]) {
        return Some(38);
    }
    vol1_fault_from_72(v)
}

// "76 space, 1, 2, 3": k.
fn kind_in(v: &[u8]) -> u64
    requires { length v.now ≡ 128 }
    ensures { result ≡ volume_k v.now }
{
    let c = u64::from(v[75]);
    if c == 32 {
        return 0;
    }
    digit(c)
}

fn hex_byte(f: &[u8]) -> u8
    requires { (length f.now ≤ 2) × (hex f.now < 256) }
    ensures { result ≡ hex f.now }
{
    hex_in(f) as u8
}

// "for P = 128, 256, 512, 1024", which is 128·2^k
fn record_size(k: u64) -> u16
    requires { k ≤ 3 }
    ensures { result ≡ 128 * 2 ^ k }
{
    if k == 0 {
        return 128;
    }
    if k == 1 {
        return 256;
    }
    if k == 2 {
        return 512;
    }
    1024
}

// The numbers of a VOL1 without a fault.
pub fn vol1_numbers(v: &[u8]) -> Geometry
    requires { (length v.now ≡ 128) × (lowest_fault (vol1_rules v.now) ≡ 0) }
    ensures { result ≡ bare v.now }
{
    let k = kind_in(v);
    Geometry {
        L: hex_byte(&v[80..82]),
        I: hex_byte(&v[82..84]),
        D: hex_byte(&v[84..86]),
        k: k as u8,
        P: record_size(k),
        S: hex_byte(&v[88..89]),
        d1: 0,
        d2: 0,
    }
}

// A cylinder "and `0`".
fn is_cylinder(f: &[u8]) -> bool
    requires { length f.now ≡ 3 }
    ensures { result ≡ is_cylinder f.now }
{
    decimal_in(f).is_some() & is(u64::from(f[2]), 48)
}

fn cylinder_in(f: &[u8]) -> u64
    requires { length f.now ≡ 3 }
    ensures { (result ≡ cylinder_in f.now) × (result < 3000) }
{
    number_in(&f[0..2])
}

// "7-9 spaces, or a cylinder d1 in 01..L and `0`"
fn first_right(l: u64, f: &[u8]) -> bool
    requires { length f.now ≡ 3 }
    ensures { result ≡ (spaces f.now || (is_cylinder f.now && between 1 l (cylinder_in f.now))) }
{
    all_spaces(f) | (is_cylinder(f) & in_range(1, l, cylinder_in(f)))
}

// "11-13 spaces, or d2 and `0`, where d1 is present and d1 < d2 ≤ L+1": f holds d2, e holds d1. (d2 - 1 ≤ L says the last, and cannot wrap.)
fn second_right(l: u64, e: &[u8], f: &[u8]) -> bool
    requires { (length f.now ≡ 3) × (length e.now ≡ 3) }
    ensures { result ≡ (spaces f.now || (is_cylinder f.now && not (spaces e.now) && ltb (cylinder_in e.now) (cylinder_in f.now) && leb (cylinder_in f.now) (l + 1))) }
{
    let c = cylinder_in(e);
    let d = cylinder_in(f);
    let below = minus(d, 1);
    all_spaces(f) | (is_cylinder(f) & !all_spaces(e) & (c < d) & (below <= l))
}

// "1-5 `ERMAP`"
fn is_ermap(e: &[u8]) -> bool
    requires { length e.now ≡ 128 }
    ensures { result ≡ same (field e.now 1 5) (bytes "ERMAP") }
{
    same_as(&e[0..5], b"ERMAP")
}

// ERMAP on a volume of l cylinders: the lowest position at fault.
#[tactic(auto, using(fields::proofs::RowLaws::rows), unfolding(standard::specs::Defects::ermap_rules, standard::specs::Defects::ermap_rule7, standard::specs::Defects::ermap_rule11))]
pub fn ermap_fault(l: u64, e: &[u8]) -> Option<u64>
    requires { length e.now ≡ 128 }
    ensures { result ≡ fault_in (lowest_fault (ermap_rules l e.now)) }
{
    if !is_ermap(e) {
        return Some(1);
    }
    let d1 = &e[6..9];
    if !first_right(l, d1) {
        return Some(7);
    }
    if !second_right(l, d1, &e[10..13]) {
        return Some(11);
    }
    None
}

fn defect_in(f: &[u8]) -> u8
    requires { (length f.now ≡ 3) × (defect_in f.now < 256) }
    ensures { result ≡ defect_in f.now }
{
    if all_spaces(f) {
        return 0;
    }
    cylinder_in(f) as u8
}

// The numbers with the defective cylinders of an ERMAP without a fault.
pub fn with_defects(g: Geometry, e: &[u8]) -> Geometry
    requires { (length e.now ≡ 128) × (lowest_fault (ermap_rules g.L e.now) ≡ 0) }
    ensures { result ≡ defected g e.now }
{
    Geometry {
        L: g.L,
        I: g.I,
        D: g.D,
        k: g.k,
        P: g.P,
        S: g.S,
        d1: defect_in(&e[6..9]),
        d2: defect_in(&e[10..13]),
    }
}

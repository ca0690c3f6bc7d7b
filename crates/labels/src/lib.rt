// A label: what its fields say. (Which of its rules is broken is said in `checks` and `rules`.) A label is the 128 bytes of its slot; all functions serve the
// layers above (inner).
#![tactic(auto)]

ghost use Rattle.std.specs.Prelude.{◌≡◌, ◌&&◌, ◌||◌, not, ◌<◌, length};
ghost use Rattle.standard.specs.Characters.{bytes, field, same};
ghost use Rattle.standard.specs.Addresses.{address_in, rank};
ghost use Rattle.standard.specs.Labels.{level, known_level, name_of, block_length, start_of, end_of, record_length, unused_count, is_blocked, data_end_of, format_of};
ghost use Rattle.labels.specs.Forms.{form_in};

use fields::{all_spaces, is, number_in, rank_of, same_as};
use standard::{Address, Geometry};

// "40 space or F (fixed), V, S"
#[derive(Clone, Copy)]
pub enum Form {
    Fixed,
    Variable,
    Spanned,
}

// "A slot is a label (valid mark, `HDR1`)": positions 1-4.
pub fn is_hdr1(h: &[u8]) -> bool
    requires { length h.now ≡ 128 }
    ensures { result ≡ same (field h.now 1 4) (bytes "HDR1") }
{
    same_as(&h[0..4], b"HDR1")
}

// "Position 44 is the level".
pub fn level_of(h: &[u8]) -> u64
    requires { length h.now ≡ 128 }
    ensures { (result ≡ level h.now) × (result < 256) }
{
    u64::from(h[43])
}

#[tactic(auto, unfolding(standard::specs::Labels::known_level))]
pub fn known_level(h: &[u8]) -> bool
    requires { length h.now ≡ 128 }
    ensures { result ≡ known_level h.now }
{
    let c = level_of(h);
    (c == 32) | (c == 49) | (c == 50)
}

pub fn name_is(h: &[u8], name: &[u8]) -> bool
    requires { length h.now ≡ 128 }
    ensures { result ≡ same (name_of h.now) name.now }
{
    same_as(&h[5..22], name)
}

// "29-33 start; 35-39 end"; "75-79 data end": the address, and its rank among the data addresses. The bounds are those of any bytes.
pub fn start_of(h: &[u8]) -> Address
    requires { length h.now ≡ 128 }
    ensures { (result ≡ start_of h.now) × (result.cylinder < 3000) × (result.side < 256) × (result.sector < 3000) }
{
    Address::spelled(&h[28..33])
}

pub fn end_of(h: &[u8]) -> Address
    requires { length h.now ≡ 128 }
    ensures { (result ≡ end_of h.now) × (result.cylinder < 3000) × (result.side < 256) × (result.sector < 3000) }
{
    Address::spelled(&h[34..39])
}

fn spelled_rank(g: Geometry, f: &[u8]) -> u64
    ensures { (result ≡ rank g (address_in f.now)) × (result < 4294967296) }
{
    rank_of(g, Address::spelled(f))
}

pub fn start_rank(g: Geometry, h: &[u8]) -> u64
    requires { length h.now ≡ 128 }
    ensures { (result ≡ rank g (start_of h.now)) × (result < 4294967296) }
{
    spelled_rank(g, &h[28..33])
}

pub fn end_rank(g: Geometry, h: &[u8]) -> u64
    requires { length h.now ≡ 128 }
    ensures { (result ≡ rank g (end_of h.now)) × (result < 4294967296) }
{
    spelled_rank(g, &h[34..39])
}

pub fn data_end_rank(g: Geometry, h: &[u8]) -> u64
    requires { length h.now ≡ 128 }
    ensures { (result ≡ rank g (data_end_of h.now)) × (result < 4294967296) }
{
    spelled_rank(g, &h[74..79])
}

// The format of a label.
#[tactic(auto, unfolding(standard::specs::Labels::format_of))]
pub fn form_of(h: &[u8]) -> Form
    requires { length h.now ≡ 128 }
    ensures { result ≡ form_in (format_of h.now) }
{
    match h[39] {
        b'V' => Form::Variable,
        b'S' => Form::Spanned,
        _ => Form::Fixed,
    }
}

// "63 space, or B for blocked"
pub fn is_blocked(h: &[u8]) -> bool
    requires { length h.now ≡ 128 }
    ensures { result ≡ is_blocked h.now }
{
    is(u64::from(h[62]), 66)
}

// "23-27 block length B"
pub fn block_length(h: &[u8]) -> u64
    requires { length h.now ≡ 128 }
    ensures { (result ≡ block_length h.now) × (result < 10000000) }
{
    number_in(&h[22..27])
}

// "54-57 record length R; spaces mean R = B."
#[tactic(auto, unfolding(standard::specs::Labels::record_length))]
pub fn record_length(h: &[u8]) -> u64
    requires { length h.now ≡ 128 }
    ensures { (result ≡ record_length h.now) × (result < 10000000) }
{
    let f = &h[53..57];
    if all_spaces(f) {
        return block_length(h);
    }
    number_in(f)
}

// "58-62 unused count U, spaces meaning 0"
#[tactic(auto, unfolding(standard::specs::Labels::unused_count))]
pub fn unused_count(h: &[u8]) -> u64
    requires { length h.now ≡ 128 }
    ensures { (result ≡ unused_count h.now) × (result < 10000000) }
{
    let f = &h[57..62];
    if all_spaces(f) {
        return 0;
    }
    number_in(f)
}

// The label slots of the index cylinder: refusals 8 to 12, and what is asked of a slot afterwards. Everything here is inner.
#![tactic(auto)]

ghost use Rattle.std.specs.Prelude.{◌≡◌, ◌+◌, ◌-◌, ◌*◌, ◌<◌, ◌≤◌, true, ◌&&◌, length};
ghost use Rattle.standard.specs.Layout.{kind_at, slot_count, slot_ordinal, label_at};
ghost use Rattle.standard.specs.Labels.{known_level, name_of};
ghost use Rattle.standard.specs.Slots.{is_label, slot_refusal};
ghost use Rattle.standard.specs.Judgement.{shares, namesake, clashes_below, refusal8to10, refusal11, refusal12};
ghost use Rattle.layout.specs.Room.{Room};
ghost use Rattle.index.specs.Whole.{Whole, Slotted};
ghost use Rattle.index.specs.Extents.{extent_in, Known, touches};
ghost use Rattle.index.specs.Names.{eight_from, key_of, key_in, Keyed};

use labels::{end_rank, known_level, name_is, start_rank};
use layout::{label_at, slot_count, slot_first, slot_kind};
use rules::label_fault;
use standard::{Geometry, Refusal};

// A slot with the valid mark: 9 if it has no `HDR1`, which is position 1 of the table, and 10 for any other fault.
fn label_refusal(g: Geometry, image: &[u8], slot: u64) -> Result<(), Refusal>
    requires { Room g image.now slot × (kind_at g image.now (slot_ordinal slot) ≡ 0) }
    ensures { result ≡ slot_refusal g image.now slot }
{
    match label_fault(g, label_at(g, image, slot)) {
        None => Ok(()),
        Some(1) => Err(Refusal::at(9, slot)),
        Some(fault) => Err(Refusal::within(10, slot, fault)),
    }
}

// A slot with the incorrect mark: deleted where the first byte is `D`, unreadable where it is `F`.
fn mark_refusal(g: Geometry, image: &[u8], slot: u64) -> Result<(), Refusal>
    requires { Room g image.now slot × (kind_at g image.now (slot_ordinal slot) ≡ 16) }
    ensures { result ≡ slot_refusal g image.now slot }
{
    let c = slot_first(g, image, slot);
    if c == 68 {
        return Ok(());
    }
    if c == 70 {
        return Err(Refusal::at(8, slot));
    }
    Err(Refusal::at(9, slot))
}

// "slots checked one by one through 8, 9, 10": a slot. The label's rules are judged of a label alone.
fn slot_refusal(g: Geometry, image: &[u8], slot: u64) -> Result<(), Refusal>
    requires { Room g image.now slot }
    ensures { result ≡ slot_refusal g image.now slot }
{
    let k = slot_kind(g, image, slot);
    if k == 0 {
        return label_refusal(g, image, slot);
    }
    if k == 16 {
        return mark_refusal(g, image, slot);
    }
    if k == 32 {
        return Err(Refusal::at(8, slot));
    }
    Err(Refusal::at(9, slot))
}

pub fn slots(g: Geometry, image: &[u8]) -> Result<(), Refusal>
    requires { Whole g image.now }
    ensures { result ≡ refusal8to10 g image.now }
{
    for slot in 1..slot_count(g) + 1 {
        slot_refusal(g, image, slot)?;
    }
    Ok(())
}

// Once the slots have passed 8 to 10, a valid mark is a label's, so the byte of kind alone tells.
pub fn is_label(g: Geometry, image: &[u8], slot: u64) -> bool
    requires { Slotted g image.now × (1 ≤ slot) × (slot ≤ slot_count g) }
    ensures { result ≡ is_label g image.now slot }
{
    slot_kind(g, image, slot) == 0
}

// A label of level space, 1 or 2.
pub fn is_known(g: Geometry, image: &[u8], slot: u64) -> bool
    requires { Slotted g image.now × (1 ≤ slot) × (slot ≤ slot_count g) }
    ensures { result ≡ (is_label g image.now slot && known_level (label_at g image.now slot)) }
{
    is_label(g, image, slot) && known_level(label_at(g, image, slot))
}

// An extent by the ranks of its start and its end. A slot with no label has one that begins behind every end, so that it meets none.
#[derive(Clone, Copy)]
pub struct Extent {
    pub start: u32,
    pub end: u32,
}

impl Extent {
    pub const NONE: Extent = Extent {
        start: 4294967295,
        end: 0,
    };

    // Whether two share a record. Extents mostly follow each other, so whether this one begins behind the other's end is asked first.
    fn meets(self, other: Extent) -> bool
        ensures { result ≡ touches self other }
    {
        self.start <= other.end && other.start <= self.end
    }
}

pub fn extent_in(g: Geometry, image: &[u8], slot: u64) -> Extent
    requires { Slotted g image.now × (1 ≤ slot) × (slot ≤ slot_count g) }
    ensures { result ≡ extent_in g image.now slot }
{
    if !is_label(g, image, slot) {
        return Extent::NONE;
    }
    let h = label_at(g, image, slot);
    Extent {
        start: start_rank(g, h) as u32,
        end: end_rank(g, h) as u32,
    }
}

// `lower` has the extents of the slots below.
fn shares_below(g: Geometry, image: &[u8], slot: u64, x: Extent, lower: &[Extent]) -> bool
    requires { Slotted g image.now × (1 ≤ slot) × (slot ≤ slot_count g) × (x ≡ extent_in g image.now slot) × Known g image.now lower.now (slot - 1) × (length lower.now ≡ slot - 1) }
    ensures { result ≡ clashes_below (shares g image.now) slot (slot - 1) }
{
    is_label(g, image, slot) && lower.iter().any(|e| x.meets(*e))
}

// "extent shares a record with a lower slot's", "lowest such slot". Each label's addresses are read once, into a row: a volume has at most 45 slots.
pub fn shared(g: Geometry, image: &[u8]) -> Result<(), Refusal>
    requires { Slotted g image.now }
    ensures { result ≡ refusal11 g image.now }
{
    let mut extents = [Extent::NONE; 45];
    for slot in 1..slot_count(g) + 1 {
        let x = extent_in(g, image, slot);
        let at = (slot - 1) as usize;
        if shares_below(g, image, slot, x, &extents[..at]) {
            return Err(Refusal::at(11, slot));
        }
        extents[at] = x;
    }
    Ok(())
}

// Eight bytes as one number.
fn eight_from(s: &[u8], at: usize) -> u64
    requires { (at < 121) × (length s.now ≡ 128) }
    ensures { result ≡ eight_from s.now at }
{
    u64::from_le_bytes([
        s[at],
        s[at + 1],
        s[at + 2],
        s[at + 3],
        s[at + 4],
        s[at + 5],
        s[at + 6],
        s[at + 7],
    ])
}

// The beginning and the end of a name in one number: names whose numbers differ are not compared byte by byte.
fn name_key(h: &[u8]) -> u64
    requires { length h.now ≡ 128 }
    ensures { result ≡ key_of (name_of h.now) }
{
    std::num::wrapping_add_u64(eight_from(h, 5), eight_from(h, 14))
}

// Whether a label of a known level has the name of a lower one. Names mostly differ in their numbers already.
fn named_like(g: Geometry, image: &[u8], slot: u64, lower: u64, key: u64, other: u64) -> bool
    requires { Slotted g image.now × (1 ≤ slot) × (slot ≤ slot_count g) × (1 ≤ lower) × (lower ≤ slot_count g) × ((is_label g image.now slot && known_level (label_at g image.now slot)) ≡ true) × (key ≡ key_in g image.now slot) × (other ≡ key_in g image.now lower) }
    ensures { result ≡ namesake g image.now slot lower }
{
    if key != other {
        return false;
    }
    if !is_known(g, image, lower) {
        return false;
    }
    let h = label_at(g, image, lower);
    name_is(label_at(g, image, slot), &h[5..22])
}

// `keys` has the numbers of the slots below.
fn named_below(g: Geometry, image: &[u8], slot: u64, key: u64, keys: &[u64]) -> bool
    requires { Slotted g image.now × (1 ≤ slot) × (slot ≤ slot_count g) × (key ≡ key_in g image.now slot) × Keyed g image.now keys.now (slot - 1) × (length keys.now ≡ slot - 1) }
    ensures { result ≡ clashes_below (namesake g image.now) slot (slot - 1) }
{
    if !is_known(g, image, slot) {
        return false;
    }
    for lower in 1..slot {
        if named_like(g, image, slot, lower, key, keys[(lower - 1) as usize]) {
            return true;
        }
    }
    false
}

// "name of a lower slot (levels space, 1, 2)", "lowest such slot"
pub fn named(g: Geometry, image: &[u8]) -> Result<(), Refusal>
    requires { Slotted g image.now }
    ensures { result ≡ refusal12 g image.now }
{
    let mut keys = [0u64; 45];
    for slot in 1..slot_count(g) + 1 {
        let key = name_key(label_at(g, image, slot));
        let at = (slot - 1) as usize;
        if named_below(g, image, slot, key, &keys[..at]) {
            return Err(Refusal::at(12, slot));
        }
        keys[at] = key;
    }
    Ok(())
}

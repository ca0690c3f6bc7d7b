// Finding a file of the volume: by its name or its slot, its label's bytes in the image; and what the calls on a file ask of its slot first. What a customer
// calls has no `requires`.
#![tactic(auto)]

ghost use Rattle.std.specs.Prelude.{◌≡◌, true, [], ◌≤◌};
ghost use Rattle.standard.specs.Refusals.{refuse, or_else};
ghost use Rattle.standard.specs.Layout.{slot_count, label_at};
ghost use Rattle.standard.specs.Slots.{has_label};
ghost use Rattle.standard.specs.Finding.{is_named, found, found_at, label_named, label_in_slot};
ghost use Rattle.standard.specs.Writing.{refusal24};
ghost use Rattle.index.specs.Whole.{Slotted, some_slot};
ghost use Rattle.finding.specs.Handed.{HandedOut};
ghost use Rattle.finding.specs.Slot.{slot_named, known_file};

use index::{is_known, is_label};
use labels::{known_level, name_is};
use layout::{label_at, label_offset, slot_count};
use standard::{Found, Geometry, Refusal};
use volume::{judge, refusal_of};

// Whether a slot of the volume has a label. (For layers above: any slot, on an accepted volume.)
pub fn has_label(g: Geometry, image: &[u8], slot: u64) -> bool
    requires { Slotted g image.now }
    ensures { result ≡ has_label g image.now slot }
{
    if slot < 1 {
        return false;
    }
    let n = slot_count(g);
    if n < slot {
        return false;
    }
    is_label(g, image, slot)
}

// Refusals 13 and 14: what every call on a file asks of its slot first. (For layers above, on an accepted volume.)
pub fn known_file(g: Geometry, image: &[u8], slot: u64) -> Result<(), Refusal>
    requires { Slotted g image.now }
    ensures { result ≡ known_file g image.now slot }
{
    if !has_label(g, image, slot) {
        return Err(Refusal::at(13, 0));
    }
    if !known_level(label_at(g, image, slot)) {
        return Err(Refusal::at(14, slot));
    }
    Ok(())
}

// 24 "43 is P", behind what was asked of the slot before it: writing and deleting ask it. (For layers above, on an accepted volume.)
pub fn unprotected(
    g: Geometry,
    image: &[u8],
    slot: u64,
    asked: Result<(), Refusal>,
) -> Result<(), Refusal>
    requires { Slotted g image.now × (asked ≡ Ok tt → has_label g image.now slot ≡ true) }
    ensures { result ≡ or_else asked (refusal24 (label_at g image.now slot) slot) }
{
    asked?;
    let h = label_at(g, image, slot);
    if u64::from(h[42]) == 80 {
        return Err(Refusal::at(24, slot));
    }
    Ok(())
}

fn is_named(g: Geometry, image: &[u8], name: &[u8], slot: u64) -> bool
    requires { Slotted g image.now × (1 ≤ slot) × (slot ≤ slot_count g) }
    ensures { result ≡ is_named g image.now name.now slot }
{
    is_known(g, image, slot) && name_is(label_at(g, image, slot), name)
}

// "Names are 17 bytes, found among levels space, 1, 2 only": the slot. (For layers above, on an accepted volume.)
pub fn slot_named(g: Geometry, image: &[u8], name: &[u8]) -> Option<u64>
    requires { Slotted g image.now }
    ensures { (result ≡ some_slot (slot_named g image.now name.now)) × (slot_named g image.now name.now ≤ slot_count g) }
{
    for slot in 1..slot_count(g) + 1 {
        if is_named(g, image, name, slot) {
            return Some(slot);
        }
    }
    None
}

// 13: "no label in that slot or of that name", 0
fn unfound() -> Result<Found, Refusal>
    ensures { result ≡ Err (refuse 13 0) }
{
    Err(Refusal::at(13, 0))
}

pub fn find(image: &[u8], name: &[u8]) -> Result<Found, Refusal>
    ensures { result ≡ found image.now name.now }
{
    let verdict = judge(image);
    let Ok(g) = verdict else {
        return Err(refusal_of(verdict));
    };
    let Some(bearer) = slot_named(g, image, name) else {
        return unfound();
    };
    Ok(Found {
        slot: bearer,
        offset: label_offset(g, bearer),
    })
}

pub fn find_slot(image: &[u8], slot: u64) -> Result<Found, Refusal>
    ensures { result ≡ found_at image.now slot }
{
    let verdict = judge(image);
    let Ok(g) = verdict else {
        return Err(refusal_of(verdict));
    };
    if has_label(g, image, slot) {
        return Ok(Found {
            slot,
            offset: label_offset(g, slot),
        });
    }
    unfound()
}

fn nothing(image: &[u8]) -> &[u8]
    ensures { result.now ≡ [] }
{
    &image[0..0]
}

// "A file's label is handed out as the 128 bytes in the image itself, empty if refused (1-13 only)": a part of the lent image, which begins
// at the offset that `find` and `find_slot` give.
pub fn label_named<'a, 'b>(image: &'a [u8], name: &'b [u8]) -> &'a [u8]
    ensures { (result.now ≡ label_named image.now name.now) × (HandedOut image.entry (found image.now name.now) result) }
{
    let Ok(g) = judge(image) else {
        return nothing(image);
    };
    let Some(slot) = slot_named(g, image, name) else {
        return nothing(image);
    };
    label_at(g, image, slot)
}

pub fn label_in_slot(image: &[u8], slot: u64) -> &[u8]
    ensures { (result.now ≡ label_in_slot image.now slot) × (HandedOut image.entry (found_at image.now slot) result) }
{
    let Ok(g) = judge(image) else {
        return nothing(image);
    };
    if !has_label(g, image, slot) {
        return nothing(image);
    }
    label_at(g, image, slot)
}

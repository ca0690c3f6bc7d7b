// What is free on the volume. The free records: all data addresses less those of the labels' extents, which share none. For a new file: the lowest deleted
// slot, and the lowest run of free addresses. What a customer calls has no `requires`.
#![tactic(auto)]

ghost use Rattle.std.specs.Prelude.{◌≡◌, cond, ◌<◌, ◌≤◌, length};
ghost use Rattle.standard.specs.Layout.{slot_count, label_at};
ghost use Rattle.standard.specs.Addresses.{address_count};
ghost use Rattle.standard.specs.Slots.{is_label};
ghost use Rattle.standard.specs.Files.{extent_size};
ghost use Rattle.standard.specs.Judgement.{judged};
ghost use Rattle.standard.specs.Free.{free_records, free_count};
ghost use Rattle.standard.specs.Creating.{lowest_deleted, lowest_run};
ghost use Rattle.promises.specs.Volumes.FreeLaws.{extents_below};
ghost use Rattle.index.specs.Whole.{Slotted, some_slot};
ghost use Rattle.index.specs.Extents.{Known};
ghost use Rattle.vacancy.specs.Passes.{past_one, past_all};

use fields::{minus, times};
use index::{Extent, extent_in, is_label};
use layout::slot_count;
use standard::{Geometry, Refusal};
use volume::{judge, refusal_of};

// All data addresses of the volume.
fn addresses(g: Geometry) -> u64
    ensures { (result ≡ address_count g) × (result < 16777216) }
{
    times::<255>(times::<255>(u64::from(g.L), u64::from(g.S)), u64::from(g.D))
}

// The number of records in a slot's extent: 0 where it has no label, as that extent ends before it starts. (Inner.)
pub fn size_in(g: Geometry, image: &[u8], slot: u64) -> u64
    requires { Slotted g image.now × (1 ≤ slot) × (slot ≤ slot_count g) }
    ensures { (result ≡ cond (is_label g image.now slot) (extent_size g (label_at g image.now slot)) 0) × (result < 4294967297) }
{
    let x = extent_in(g, image, slot);
    minus(u64::from(x.end) + 1, u64::from(x.start))
}

// The records of all extents: no two share one, so that the sizes are summed up.
fn used(g: Geometry, image: &[u8]) -> u64
    requires { Slotted g image.now }
    ensures { result ≡ extents_below g image.now (slot_count g) }
{
    let mut total = 0;
    for slot in 1..slot_count(g) + 1 {
        total += size_in(g, image, slot);
    }
    total
}

// The free records: all data addresses less those of the labels' extents. (For layers above, on an accepted volume.)
pub fn free_in(g: Geometry, image: &[u8]) -> u64
    requires { judged image.now ≡ Ok g }
    ensures { result ≡ free_records g image.now }
{
    addresses(g) - used(g, image)
}

pub fn free(image: &[u8]) -> Result<u64, Refusal>
    ensures { result ≡ free_count image.now }
{
    let verdict = judge(image);
    let Ok(g) = verdict else {
        return Err(refusal_of(verdict));
    };
    Ok(free_in(g, image))
}

// "the lowest deleted slot". Once the slots have passed 8 to 10, one that has no label is deleted. (Inner, on an accepted volume.)
pub fn lowest_deleted(g: Geometry, image: &[u8]) -> Option<u64>
    requires { Slotted g image.now }
    ensures { (result ≡ some_slot (lowest_deleted g image.now)) × (lowest_deleted g image.now ≤ slot_count g) }
{
    for slot in 1..slot_count(g) + 1 {
        if !is_label(g, image, slot) {
            return Some(slot);
        }
    }
    None
}

// A search for n free addresses in a row that stands at `start`, and an extent: it goes on behind the extent if that has one of the n addresses from there on.
fn past_one(e: Extent, n: u64, start: u64) -> u64
    requires { (n < 4294967296) × (start ≤ 4294967296) }
    ensures { (result ≡ past_one n e start) × (result ≤ 4294967296) }
{
    let end = u64::from(e.end);
    if end < start {
        return start;
    }
    if start + n <= u64::from(e.start) {
        return start;
    }
    end + 1
}

// One pass of it over the extents.
fn past_all(extents: &[Extent], n: u64, start: u64) -> u64
    requires { (n < 4294967296) × (start ≤ 4294967296) }
    ensures { (result ≡ past_all n extents.now start) × (result ≤ 4294967296) }
{
    let mut next = start;
    for e in extents {
        next = past_one(*e, n, next);
    }
    next
}

// The lowest run by the extents of all slots: passes until one moves nothing, or too few addresses are left. Each that moves has passed an extent's end for
// good, so there are at most as many as labels.
fn run_among(g: Geometry, image: &[u8], extents: &[Extent], n: u64) -> Option<u64>
    requires { (judged image.now ≡ Ok g) × (1 ≤ n) × Known g image.now extents.now (slot_count g) × (length extents.now ≡ slot_count g) }
    ensures { result ≡ lowest_run g image.now n }
{
    let all = addresses(g);
    let mut start = 0;
    'passes: while n <= minus(all, start) {
        let next = past_all(extents, n, start);
        if next == start {
            return Some(start);
        }
        start = next;
    }
    None
}

// "the lowest free run of n consecutive data addresses", n of at least 1. Each label's addresses are read once, into a row: a volume has at most 45 slots.
// The time grows with the labels alone, whatever n is. (Inner, on an accepted volume.)
pub fn lowest_run(g: Geometry, image: &[u8], n: u64) -> Option<u64>
    requires { (judged image.now ≡ Ok g) × (1 ≤ n) }
    ensures { result ≡ lowest_run g image.now n }
{
    let count = slot_count(g);
    let mut extents = [Extent::NONE; 45];
    for slot in 1..count + 1 {
        let x = extent_in(g, image, slot);
        extents[(slot - 1) as usize] = x;
    }
    run_among(g, image, &extents[..count as usize], n)
}

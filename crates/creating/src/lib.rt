// Creating a file (request 2026-01): "Creating takes the 29 bytes of label fields [..] and a number n of physical records, and uses the lowest free run of n
// consecutive data addresses and the lowest deleted slot." First everything that can be refused is asked, of the image as it is; then the plan is carried out: one
// store to the slot's sector.
#![tactic(auto)]

ghost use Rattle.std.specs.Prelude.{◌≡◌, ◌≤◌};
ghost use Rattle.standard.specs.Judgement.{judged};
ghost use Rattle.standard.specs.Creating.{created_start, image_created, created, image_after_create};
ghost use Rattle.creating.specs.Plans.{room_in, plan_in, Accepted};

use drafting::{draft, proposal_fault};
use extents::address_of;
use finding::slot_named;
use relabel::store_slot;
use standard::{Address, Created, Geometry, Refusal};
use vacancy::{lowest_deleted, lowest_run};
use volume::{judge, refusal_of};

// What an accepted create does: the slot of the new label, and the number, from 0, of its file's first address.
#[derive(Clone, Copy)]
pub struct Plan {
    pub slot: u64,
    pub first: u64,
}

// "then 28 no deleted slot, 29 no run"
fn room_in(g: Geometry, image: &[u8], n: u64) -> Result<Plan, Refusal>
    requires { (judged image.now ≡ Ok g) × (1 ≤ n) }
    ensures { result ≡ room_in g image.now n }
{
    let Some(slot) = lowest_deleted(g, image) else {
        return Err(Refusal::at(28, 0));
    };
    let Some(first) = lowest_run(g, image, n) else {
        return Err(Refusal::at(29, 0));
    };
    Ok(Plan { slot, first })
}

// "10 for the proposed label, with slot 0 [..], 12 for a name in use, with the slot that has it, then 28 no deleted slot, 29 no run": the first refusal, or the
// plan. (Inner, for layers above: on an accepted volume.)
pub fn plan_in(g: Geometry, image: &[u8], wanted: &[u8], n: u64) -> Result<Plan, Refusal>
    requires { judged image.now ≡ Ok g }
    ensures { result ≡ plan_in g image.now wanted.now n }
{
    if let Some(fault) = proposal_fault(g, wanted, n) {
        return Err(Refusal::within(10, 0, fault));
    }
    if let Some(bearer) = slot_named(g, image, &wanted[0..17]) {
        return Err(Refusal::at(12, bearer));
    }
    room_in(g, image, n)
}

// The plan carried out: the label with its extent, and the valid mark. Answers the start. (Inner, for layers above: of an accepted plan.)
pub fn carry_out(g: Geometry, image: &mut [u8], wanted: &[u8], n: u64, slot: u64, i: u64) -> Address
    requires { Accepted g image.old wanted.now n slot i }
    ensures { (result ≡ created_start g image.old n) × (image.new ≡ image_created g image.old wanted.now n) }
{
    let start = address_of(g, i);
    let label = draft(wanted, start, address_of(g, i + (n - 1)));
    store_slot(g, image, slot, 0, &label);
    start
}

// Creating a file. "A file call stops at the first refusal of the volume." "A refusal returns number and place, and all lent bytes stay."
pub fn create(image: &mut [u8], wanted: &[u8], n: u64) -> Result<Created, Refusal>
    ensures { (result ≡ created image.old wanted.now n) × (image.new ≡ image_after_create image.old wanted.now n) }
{
    let verdict = judge(image);
    let Ok(g) = verdict else {
        return Err(refusal_of(verdict));
    };
    let p = plan_in(g, image, wanted, n)?;
    let slot = p.slot;
    let start = carry_out(g, image, wanted, n, slot, p.first);
    Ok(Created { slot, start })
}

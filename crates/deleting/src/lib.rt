// Deleting a file (request 2026-01): "Deleting gives the slot the incorrect mark and first byte `D`, nothing else." First everything that can be refused is asked;
// then one store to the slot's sector.
#![tactic(auto)]

ghost use Rattle.std.specs.Prelude.{◌≡◌};
ghost use Rattle.standard.specs.Judgement.{judged};
ghost use Rattle.standard.specs.Creating.{delete_refusal, image_without, deleted, image_after_delete};
ghost use Rattle.standard.specs.Files.{extent_size};
ghost use Rattle.standard.specs.Layout.{label_at};

use finding::{known_file, unprotected};
use relabel::store_slot;
use standard::{Geometry, Refusal};
use vacancy::size_in;
use volume::{judge, refusal_of};

// "delete gives 13, 14, 24": the first of them that is given. (Inner, for layers above: on an accepted volume.)
pub fn plan_out(g: Geometry, image: &[u8], slot: u64) -> Result<(), Refusal>
    requires { judged image.now ≡ Ok g }
    ensures { result ≡ delete_refusal g image.now slot }
{
    unprotected(g, image, slot, known_file(g, image, slot))
}

// The delete carried out. Answers how many records are free again: those of the extent. (Inner, for layers above: where nothing is refused.)
pub fn drop_label(g: Geometry, image: &mut [u8], slot: u64) -> u64
    requires { (judged image.old ≡ Ok g) × (delete_refusal g image.old slot ≡ Ok tt) }
    ensures { (result ≡ extent_size g (label_at g image.old slot)) × (image.new ≡ image_without g slot image.old) }
{
    let freed = size_in(g, image, slot);
    store_slot(g, image, slot, 16, b"D");
    freed
}

// Deleting a file. "A file call stops at the first refusal of the volume." "A refusal returns number and place, and all lent bytes stay."
pub fn delete(image: &mut [u8], slot: u64) -> Result<u64, Refusal>
    ensures { (result ≡ deleted image.old slot) × (image.new ≡ image_after_delete image.old slot) }
{
    let verdict = judge(image);
    let Ok(g) = verdict else {
        return Err(refusal_of(verdict));
    };
    plan_out(g, image, slot)?;
    Ok(drop_label(g, image, slot))
}

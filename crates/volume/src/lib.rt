// The judgement of a volume, refusals 1 to 12, and what a refused volume says to a file call. What a customer calls has no `requires`.
#![tactic(auto)]

ghost use Rattle.std.specs.Prelude.{◌≡◌, ◌≤◌, length};
ghost use Rattle.standard.specs.Rules.{lowest_fault};
ghost use Rattle.standard.specs.Volume.{vol1_rules};
ghost use Rattle.standard.specs.Layout.{vol1_of, image_length};
ghost use Rattle.standard.specs.Judgement.{judged, volume_of};
ghost use Rattle.numbers.specs.Numbers.{bare};
ghost use Rattle.index.specs.Whole.{Whole};
ghost use Rattle.volume.specs.Stages.{judged_from, refusal_of};

use index::{named, shared, slots};
use layout::{image_length, index_body, index_kind, kinds};
use numbers::{ermap_fault, vol1_fault, vol1_numbers, with_defects};
use standard::{Geometry, Refusal};

// 8 to 12.
fn judge_slots(g: Geometry, image: &[u8]) -> Result<Geometry, Refusal>
    requires { Whole g image.now }
    ensures { result ≡ judged_from 7 image.now g }
{
    slots(g, image)?;
    shared(g, image)?;
    named(g, image)?;
    Ok(g)
}

// 7, and what is left with the numbers that ERMAP gives.
fn judge_defects(g: Geometry, image: &[u8]) -> Result<Geometry, Refusal>
    requires { (903 ≤ length image.now) × (lowest_fault (vol1_rules (vol1_of image.now)) ≡ 0) × (g ≡ bare (vol1_of image.now)) × (length image.now ≡ image_length g) }
    ensures { result ≡ judged_from 6 image.now (volume_of image.now) }
{
    let e = index_body(image, 5);
    if let Some(fault) = ermap_fault(u64::from(g.L), e) {
        return Err(Refusal::at(7, fault));
    }
    judge_slots(with_defects(g, e), image)
}

// 5 and 6, which do not ask for defective cylinders.
fn judge_sectors(g: Geometry, image: &[u8]) -> Result<Geometry, Refusal>
    requires { (903 ≤ length image.now) × (lowest_fault (vol1_rules (vol1_of image.now)) ≡ 0) × (g ≡ bare (vol1_of image.now)) }
    ensures { result ≡ judged_from 4 image.now (volume_of image.now) }
{
    let n = image.len() as u64;
    let m = image_length(g);
    if n != m {
        return Err(Refusal::at(5, 0));
    }
    kinds(g, image)?;
    judge_defects(g, image)
}

// 3 and 4, and the numbers of VOL1.
fn judge_vol1(image: &[u8]) -> Result<Geometry, Refusal>
    requires { 903 ≤ length image.now }
    ensures { result ≡ judged_from 2 image.now (volume_of image.now) }
{
    let v = index_body(image, 7);
    if let Some(fault) = vol1_fault(v) {
        return Err(Refusal::at(3, fault));
    }
    let access = u64::from(v[10]);
    if access != 32 {
        return Err(Refusal::at(4, 11));
    }
    judge_sectors(vol1_numbers(v), image)
}

// "Volume order is 1 to 12": the first of these refusals, or the volume's numbers.
pub fn judge(image: &[u8]) -> Result<Geometry, Refusal>
    ensures { result ≡ judged image.now }
{
    if image.len() < 903 {
        return Err(Refusal::at(1, 0));
    }
    if index_kind(image, 5) != 0 {
        return Err(Refusal::at(2, 5));
    }
    if index_kind(image, 7) != 0 {
        return Err(Refusal::at(2, 7));
    }
    judge_vol1(image)
}

// What stops a file call: "A file call stops at the first refusal of the volume." (Inner: every file call asks it behind `let .. else`, of a refused volume
// alone. There is no refusal 0: it stands for an accepted one.)
pub fn refusal_of(verdict: Result<Geometry, Refusal>) -> Refusal
    ensures { result ≡ refusal_of verdict }
{
    let Err(refusal) = verdict else {
        return Refusal::at(0, 0);
    };
    refusal
}

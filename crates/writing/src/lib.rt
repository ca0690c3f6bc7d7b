// Writing a file: "Writing takes all record bodies joined, and their lengths." First everything that can be refused is asked, of the image as it is; then the plan
// is carried out: the blocks over the good records of the extent, and the two fields of the label.
#![tactic(auto)]

ghost use Rattle.std.specs.Prelude.{◌≡◌, true, ◌+◌, ◌<◌, length};
ghost use Rattle.standard.specs.Layout.{label_at};
ghost use Rattle.standard.specs.Labels.{known_level, format_of, block_length};
ghost use Rattle.standard.specs.Slots.{has_label};
ghost use Rattle.standard.specs.Files.{addresses_from};
ghost use Rattle.standard.specs.Judgement.{judged};
ghost use Rattle.standard.specs.Writing.{total, packing, image_with, written, image_after};
ghost use Rattle.promises.specs.Writing.NeededLaws.{EachFits};
ghost use Rattle.labels.specs.Forms.{format_for};
ghost use Rattle.extents.specs.Cursors.{legal_at, good_from};
ghost use Rattle.files.specs.Numbers.{numbers_of};
ghost use Rattle.writing.specs.Plans.{plan_of, plan_or, plan_in, fitted_by, level_on, fault_by, draft_refusal, Accepted};

use ending::data_end;
use extents::{Cursor, count_good, survey, to_good};
use files::{Numbers, numbers_of};
use finding::unprotected;
use labels::{Form, end_of, form_of, is_blocked};
use laying::store;
use layout::label_at;
use opening::usable;
use relabel::set_label;
use sizing::{first_wrong, level_after, sums_to};
use standard::{Address, Geometry, Refusal};
use volume::{judge, refusal_of};

// What an accepted write does: the extent from its start on, how its records are laid, the number of blocks, and U and the data end as they will stand.
#[derive(Clone, Copy)]
pub struct Plan {
    pub first: Cursor,
    pub form: Form,
    pub blocked: bool,
    pub B: u64,
    pub m: u64,
    pub blocks: u64,
    pub U: u64,
    pub end: Address,
}

// The number of good records: where none is defective they need no counting.
fn good_in(g: Geometry, image: &[u8], first: Cursor, whole: bool) -> u64
    requires { (legal_at g first ≡ true) × (first.left < 4294967296) × (whole ≡ true → good_from g image.now first.left first.at ≡ addresses_from g first.left first.at) }
    ensures { result ≡ length (good_from g image.now first.left first.at) }
{
    if whole {
        return first.left;
    }
    count_good(g, image, first)
}

// Refusals 25 and 26 of a list.
fn list_fault(form: Form, B: u64, R: u64, size: u64, lengths: &[u32]) -> Result<(), Refusal>
    ensures { result ≡ fault_by (format_for form) B R size lengths.now }
{
    if !sums_to(lengths, size) {
        return Err(Refusal::at(25, 0));
    }
    first_wrong(form, B, R, lengths)
}

// Refusal 27, or the plan.
fn fitted(
    g: Geometry,
    image: &[u8],
    slot: u64,
    h: &[u8],
    n: Numbers,
    whole: bool,
    lengths: &[u32],
) -> Result<Plan, Refusal>
    requires { (judged image.now ≡ Ok g) × (has_label g image.now slot ≡ true) × (known_level (label_at g image.now slot) ≡ true) × (h.now ≡ label_at g image.now slot) × (length h.now ≡ 128) × (n ≡ numbers_of g h.now) × (whole ≡ true → good_from g image.now n.size n.start ≡ addresses_from g n.size n.start) × (EachFits (format_of h.now) (block_length h.now) lengths.now) × (length lengths.now + total lengths.now < 18446744073709551616) }
    ensures { result ≡ fitted_by g image.now slot (level_on (label_at g image.now slot) lengths.now) }
{
    let form = form_of(h);
    let blocked = is_blocked(h);
    let B = n.B;
    let m = n.m;
    let start = n.start;
    let first = Cursor {
        at: start,
        left: n.size,
    };
    let l = level_after(form, blocked, B, lengths);
    let blocks = l.blocks;
    let held = good_in(g, image, first, whole) / m;
    if held < blocks {
        return Err(Refusal::at(27, blocks));
    }
    let end = data_end(g, image, start, end_of(h), first, whole, m, held, blocks);
    Ok(Plan {
        first,
        form,
        blocked,
        B,
        m,
        blocks,
        U: l.room,
        end,
    })
}

// Refusals 17 and 25 to 27, or the plan, of a label `h` that passed 13 to 16 and 24.
fn drafted(
    g: Geometry,
    image: &[u8],
    slot: u64,
    h: &[u8],
    bodies: &[u8],
    lengths: &[u32],
) -> Result<Plan, Refusal>
    requires { (judged image.now ≡ Ok g) × (has_label g image.now slot ≡ true) × (known_level (label_at g image.now slot) ≡ true) × (h.now ≡ label_at g image.now slot) × (length h.now ≡ 128) }
    ensures { result ≡ plan_or (draft_refusal g image.now slot bodies.now lengths.now) (plan_of g image.now slot bodies.now lengths.now) }
{
    let n = numbers_of(g, h);
    let start = n.start;
    let first = Cursor {
        at: start,
        left: n.size,
    };
    let whole = survey(g, image, first)?;
    let size = bodies.len() as u64;
    list_fault(form_of(h), n.B, n.R, size, lengths)?;
    fitted(g, image, slot, h, n, whole, lengths)
}

// The plan carried out: the list over the good records of the extent, then U and the data end.
fn carry_out(g: Geometry, image: &mut [u8], slot: u64, p: Plan, bodies: &[u8], lengths: &[u32])
    requires { Accepted g image.old slot bodies.now lengths.now p }
    ensures { image.new ≡ image_with g image.old slot (packing (label_at g image.old slot) bodies.now lengths.now) }
{
    let c = to_good(g, image, p.first);
    let end = p.end;
    let form = p.form;
    store(g, image, c, form, p.blocked, p.B, p.m, bodies, lengths);
    set_label(g, image, slot, p.U, end);
}

// "Writing: 13-16, 24, 17, 25-27": the first refusal, or the plan.
fn plan_in(
    g: Geometry,
    image: &[u8],
    slot: u64,
    bodies: &[u8],
    lengths: &[u32],
) -> Result<Plan, Refusal>
    requires { judged image.now ≡ Ok g }
    ensures { result ≡ plan_in g image.now slot bodies.now lengths.now }
{
    unprotected(g, image, slot, usable(g, image, slot))?;
    drafted(g, image, slot, label_at(g, image, slot), bodies, lengths)
}

// Writing a file. "A file call stops at the first refusal of the volume." "A refusal returns number and place, and all lent bytes stay."
pub fn write(image: &mut [u8], slot: u64, bodies: &[u8], lengths: &[u32]) -> Result<u64, Refusal>
    ensures { (result ≡ written image.old slot bodies.now lengths.now) × (image.new ≡ image_after image.old slot bodies.now lengths.now) }
{
    let verdict = judge(image);
    let Ok(g) = verdict else {
        return Err(refusal_of(verdict));
    };
    let p = plan_in(g, image, slot, bodies, lengths)?;
    carry_out(g, image, slot, p, bodies, lengths);
    Ok(p.blocks)
}

// Opening a file: its numbers, or the refusal 13 to 18 that shuts it; and where its blocks are. Everything here is inner: the layers above call it on an
// accepted volume, or begin with the judgement of any.
#![tactic(auto)]

ghost use Rattle.std.specs.Prelude.{◌≡◌, true, [], ◌∷◌, ◌+◌, ◌<◌, ◌≤◌, length};
ghost use Rattle.standard.specs.Refusals.{in_order};
ghost use Rattle.standard.specs.Layout.{label_at};
ghost use Rattle.standard.specs.Labels.{known_level};
ghost use Rattle.standard.specs.Slots.{has_label};
ghost use Rattle.standard.specs.Files.{refusal17, refusal18};
ghost use Rattle.standard.specs.Records.{aligned};
ghost use Rattle.standard.specs.Judgement.{judged};
ghost use Rattle.labels.specs.Forms.{format_for};
ghost use Rattle.opening.specs.Opened.{usable_in, file_numbers, open_or, opening_in, Opened, size_at, inside_by, Seated, Staged};

use extents::{Cursor, nth_good, skip_good, survey};
use files::{numbers_of, tally_by};
use finding::known_file;
use labels::{Form, form_of, is_blocked};
use layout::label_at;
use standard::{Geometry, Place, Refusal};
use volume::{judge, refusal_of};

// The numbers of an opened file: its volume's, its slot, a cursor on its extent's start, whether every record of the extent is good; "40 space or F (fixed),
// V, S"; "63 space, or B for blocked"; m, "blocks take m good records in turn"; B, R and U by the document's letters; and the number of its blocks.
#[derive(Clone, Copy)]
pub struct FileNumbers {
    pub g: Geometry,
    pub slot: u64,
    pub first: Cursor,
    pub whole: bool,
    pub form: Form,
    pub blocked: bool,
    pub m: u64,
    pub B: u64,
    pub R: u64,
    pub U: u64,
    pub count: u64,
}

// Refusals 13 to 16: what both reading and writing ask of a slot first.
pub fn usable(g: Geometry, image: &[u8], slot: u64) -> Result<(), Refusal>
    requires { judged image.now ≡ Ok g }
    ensures { result ≡ usable_in g image.now slot }
{
    known_file(g, image, slot)?;
    let h = label_at(g, image, slot);
    if u64::from(h[41]) != 32 {
        return Err(Refusal::at(15, slot));
    }
    if u64::from(h[44]) != 32 {
        return Err(Refusal::at(16, slot));
    }
    Ok(())
}

// Refusals 17 and 18, or the numbers, of a label `h` that passed 13 and 14. One walk over the extent tells both.
fn concluded(g: Geometry, image: &[u8], slot: u64, h: &[u8]) -> Result<FileNumbers, Refusal>
    requires { (judged image.now ≡ Ok g) × (has_label g image.now slot ≡ true) × (known_level (label_at g image.now slot) ≡ true) × (h.now ≡ label_at g image.now slot) × (length h.now ≡ 128) }
    ensures { result ≡ open_or (in_order (refusal17 g image.now (label_at g image.now slot) ∷ refusal18 g image.now (label_at g image.now slot) slot ∷ [])) (file_numbers g image.now slot) }
{
    let n = numbers_of(g, h);
    let start = n.start;
    let first = Cursor {
        at: start,
        left: n.size,
    };
    let whole = survey(g, image, first)?;
    let count = tally_by(g, image, n, slot, Ok(whole))?;
    Ok(FileNumbers {
        g,
        slot,
        first,
        whole,
        form: form_of(h),
        blocked: is_blocked(h),
        m: n.m,
        B: n.B,
        R: n.R,
        U: n.U,
        count,
    })
}

// Refusals 13 to 18, or the numbers: "Reading: 13-19", of which a place that is asked decides 19.
pub fn open_in(g: Geometry, image: &[u8], slot: u64) -> Result<FileNumbers, Refusal>
    requires { judged image.now ≡ Ok g }
    ensures { result ≡ opening_in g image.now slot }
{
    usable(g, image, slot)?;
    let h = label_at(g, image, slot);
    concluded(g, image, slot, h)
}

// "A block's content is its first B bytes; B-U in the last." (Block b has a next number to compare with the count.)
pub fn content_size(f: FileNumbers, b: u64) -> u64
    requires { (f.U ≤ f.B) × (b < 18446744073709551615) }
    ensures { result ≡ size_at f b }
{
    let size = f.B;
    if b + 1 == f.count {
        return size - f.U;
    }
    size
}

// "F offsets are multiples of R"
fn is_aligned(form: Form, R: u64, offset: u64) -> bool
    requires { form ≡ Form.Fixed → 1 ≤ R }
    ensures { result ≡ aligned (format_for form) R offset }
{
    match form {
        Form::Fixed => offset % R == 0,
        Form::Variable => true,
        Form::Spanned => true,
    }
}

// "Any place in the file may be asked; F offsets are multiples of R; offset at most the content; block = count only with offset 0"
pub fn in_file(f: FileNumbers, pl: Place) -> bool
    requires { (f.U ≤ f.B) × (f.form ≡ Form.Fixed → 1 ≤ f.R) }
    ensures { result ≡ inside_by f pl }
{
    let block = pl.block;
    let offset = pl.offset;
    let count = f.count;
    let form = f.form;
    if block < count {
        let size = content_size(f, block);
        let right = is_aligned(form, f.R, offset);
        return (offset <= size) & right;
    }
    (block == count) & (offset == 0)
}

// A cursor on the first record of block b, or behind the last: "blocks take m good records in turn". By arithmetic where every record is good.
fn block_start(image: &[u8], f: FileNumbers, b: u64) -> Cursor
    requires { (Opened image.now f) × (b ≤ f.count) }
    ensures { Seated image.now f b result }
{
    nth_good(f.g, image, f.first, f.whole, b * f.m)
}

// A block of the file, and a cursor on its first record.
#[derive(Clone, Copy)]
pub struct Seat {
    pub block: u64,
    pub at: Cursor,
}

// The seat of the file's first block.
pub fn first_seat(image: &[u8], f: FileNumbers) -> Seat
    requires { Opened image.now f }
    ensures { Seated image.now f result.block result.at }
{
    Seat {
        block: 0,
        at: block_start(image, f, 0),
    }
}

// From a seat to that of another block. Where a record of the extent is defective this is a walk, so it goes on from the seat if it can: a file that is read
// from block to block is walked once.
pub fn seat_at(image: &[u8], f: FileNumbers, s: Seat, b: u64) -> Seat
    requires { (Opened image.now f) × (Seated image.now f s.block s.at) × (b ≤ f.count) }
    ensures { (Seated image.now f b result.at) × (result.block ≡ b) }
{
    let block = s.block;
    if b == block {
        return s;
    }
    if f.whole | (b < block) {
        return Seat {
            block: b,
            at: block_start(image, f, b),
        };
    }
    Seat {
        block: b,
        at: skip_good(f.g, image, s.at, (b - block) * f.m),
    }
}

// An opened file's numbers, and the seat of one of its blocks, from which reading goes on.
#[derive(Clone, Copy)]
pub struct Stage {
    pub file: FileNumbers,
    pub seat: Seat,
}

// Judges the volume and opens the file in a slot: one of the refusals 1 to 18, or the stage. "A file call stops at the first refusal of the volume."
pub fn begin(image: &[u8], slot: u64) -> Result<Stage, Refusal>
    ensures { Staged image.now slot result }
{
    let verdict = judge(image);
    let Ok(g) = verdict else {
        return Err(refusal_of(verdict));
    };
    let file = open_in(g, image, slot)?;
    Ok(Stage {
        file,
        seat: first_seat(image, file),
    })
}

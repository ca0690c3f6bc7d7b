// A file's numbers from its label, the good records of its extent, and the number of its blocks; refusals 13, 14, 17 and 18.
#![tactic(auto)]

ghost use Rattle.std.specs.Prelude.{◌≡◌, true, false, cond, leb, ◌-◌, ◌<◌, ◌≤◌, length};
ghost use Rattle.standard.specs.Judgement.{judged};
ghost use Rattle.standard.specs.Files.{addresses_from, records_to_block, count_in, counted};
ghost use Rattle.extents.specs.Cursors.{legal_on};
ghost use Rattle.extents.specs.Surveys.{surveyed};
ghost use Rattle.files.specs.Numbers.{numbers_of, ended_by, tallied};

use extents::{Cursor, count_good, survey};
use fields::minus;
use finding::known_file;
use labels::{
    block_length, data_end_rank, end_rank, record_length, start_of, start_rank, unused_count,
};
use layout::label_at;
use standard::{Address, Geometry, Refusal};
use volume::{judge, refusal_of};

// What a label says of its file, with what follows from it: m, "blocks take m good records in turn"; the extent, from `start` on `size` addresses; whether the
// data end lies `inside` it; and how many addresses lie `before` the data end.
#[derive(Clone, Copy)]
pub struct Numbers {
    pub B: u64,
    pub R: u64,
    pub U: u64,
    pub m: u64,
    pub start: Address,
    pub size: u64,
    pub inside: bool,
    pub before: u64,
}

// "With m = B/P for B > P, else 1"
fn records_to_block(g: Geometry, h: &[u8]) -> u64
    requires { (length h.now ≡ 128) × (0 < g.P) }
    ensures { result ≡ records_to_block g h.now }
{
    let b = block_length(h);
    let p = u64::from(g.P);
    if p < b {
        return b / p;
    }
    1
}

// How many addresses of the extent lie before the data end: all of them, where it is beyond.
fn before_end(end: u64, first: u64, last: u64, size: u64) -> u64
    ensures { result ≡ cond (leb end last) (end - first) size }
{
    if end <= last {
        return minus(end, first);
    }
    size
}

// The numbers of a label. (Inner: the label of an accepted volume.)
pub fn numbers_of(g: Geometry, h: &[u8]) -> Numbers
    requires { (length h.now ≡ 128) × (0 < g.P) }
    ensures { result ≡ numbers_of g h.now }
{
    let first = start_rank(g, h);
    let last = end_rank(g, h);
    let end = data_end_rank(g, h);
    let size = minus(last + 1, first);
    Numbers {
        B: block_length(h),
        R: record_length(h),
        U: unused_count(h),
        m: records_to_block(g, h),
        start: start_of(h),
        size,
        inside: end <= last,
        before: before_end(end, first, last, size),
    }
}

// Refusal 18, or the number of blocks that so many good records before the data end make.
fn ended(n: Numbers, slot: u64, good: u64) -> Result<u64, Refusal>
    requires { 0 < n.m }
    ensures { result ≡ ended_by n slot good }
{
    let m = n.m;
    let unused = n.U;
    let blocks = good / m;
    let parted = n.inside & (good % m != 0);
    if parted | ((0 < unused) & (blocks == 0)) {
        return Err(Refusal::at(18, slot));
    }
    Ok(blocks)
}

// Refusals 17 and 18, or the number of blocks, from what one walk over the extent found: where it found no defective record, good records need no counting.
// (Inner: opening asks it, to walk once.)
pub fn tally_by(
    g: Geometry,
    image: &[u8],
    n: Numbers,
    slot: u64,
    found: Result<bool, Refusal>,
) -> Result<u64, Refusal>
    requires { (0 < n.m) × (n.before ≤ n.size) × (n.size < 4294967296) × (legal_on g n.size n.start ≡ true) × (found ≡ surveyed g image.now false (addresses_from g n.size n.start)) }
    ensures { result ≡ tallied g image.now n slot }
{
    let start = n.start;
    let whole = found?;
    if whole {
        return ended(n, slot, n.before);
    }
    let good = count_good(
        g,
        image,
        Cursor {
            at: start,
            left: n.before,
        },
    );
    ended(n, slot, good)
}

// Refusals 17 and 18, or the number of blocks, by one walk.
fn tally(g: Geometry, image: &[u8], n: Numbers, slot: u64) -> Result<u64, Refusal>
    requires { (0 < n.m) × (n.before ≤ n.size) × (n.size < 4294967296) × (legal_on g n.size n.start ≡ true) }
    ensures { result ≡ tallied g image.now n slot }
{
    let start = n.start;
    let found = survey(
        g,
        image,
        Cursor {
            at: start,
            left: n.size,
        },
    );
    tally_by(g, image, n, slot, found)
}

// Refusals 13 and 14, then 17 and 18, or the number of blocks: "the count of blocks needs only 13, 14, 17, 18". (Inner: on an accepted volume.)
pub fn count_in(g: Geometry, image: &[u8], slot: u64) -> Result<u64, Refusal>
    requires { judged image.now ≡ Ok g }
    ensures { result ≡ count_in g image.now slot }
{
    known_file(g, image, slot)?;
    tally(g, image, numbers_of(g, label_at(g, image, slot)), slot)
}

// The number of a file's blocks. "A file call stops at the first refusal of the volume."
pub fn count(image: &[u8], slot: u64) -> Result<u64, Refusal>
    ensures { result ≡ counted image.now slot }
{
    let verdict = judge(image);
    let Ok(g) = verdict else {
        return Err(refusal_of(verdict));
    };
    count_in(g, image, slot)
}

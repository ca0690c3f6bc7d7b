// A list of record lengths, measured before anything is written: refusals 25 and 26, the number of blocks that the list needs, and the bytes that its last block
// leaves unused. Everything here is inner; it looks at the lengths alone.
#![tactic(auto)]

ghost use Rattle.std.specs.Prelude.{◌≡◌, suc, ◌+◌, ◌<◌, ◌≤◌, eqb, length};
ghost use Rattle.standard.specs.Writing.{total, wrong_in};
ghost use Rattle.promises.specs.Writing.NeededLaws.{placed_whole, spread_to, least_for, placed_spanned, placed, level_from, FitsIn, EachFits};
ghost use Rattle.labels.specs.Forms.{format_for};
ghost use Rattle.sizing.specs.Lists.{wrong_from, Stands};

use labels::Form;
use standard::Refusal;

// Where a writer stands: the room left in the current block, and the blocks begun.
#[derive(Clone, Copy)]
pub struct Level {
    pub room: u64,
    pub blocks: u64,
}

// Refusal 25 asks this: whether the lengths sum to a number. What is left of it is counted down, so that no sum is too large.
pub fn sums_to(lengths: &[u32], size: u64) -> bool
    ensures { result ≡ eqb (total lengths.now) size }
{
    let mut left = size;
    for &length in lengths {
        let n = u64::from(length);
        if left < n {
            return false;
        }
        left -= n;
    }
    left == 0
}

// "F length not R; V length+4 over R; S length over R (R not 0000), or not 0 with B = 5"
fn is_wrong(form: Form, B: u64, R: u64, n: u64) -> bool
    requires { n < 4294967296 }
    ensures { result ≡ wrong_in (format_for form) B R n }
{
    match form {
        Form::Fixed => !(n == R),
        Form::Variable => R < n + 4,
        Form::Spanned => ((0 < R) & (R < n)) | ((B == 5) & !(n == 0)),
    }
}

// Refusal 26: the first record whose length is wrong, from 0.
pub fn first_wrong(form: Form, B: u64, R: u64, lengths: &[u32]) -> Result<(), Refusal>
    ensures { result ≡ wrong_from (format_for form) B R 0 lengths.now }
{
    for (i, &n) in lengths.iter().enumerate() {
        if is_wrong(form, B, R, u64::from(n)) {
            return Err(Refusal::at(26, i as u64));
        }
    }
    Ok(())
}

// F and V: "into the current block if it fits, else the next".
fn place_whole(B: u64, l: Level, n: u64) -> Level
    requires { (n ≤ B) × (l.room < 65536) × (B < 65536) × (l.blocks < 18446744073709551615) }
    ensures { (Stands result (placed_whole B l.room l.blocks n)) × (result.room < 65536) × (result.blocks ≤ l.blocks + 1) }
{
    let room = l.room;
    let blocks = l.blocks;
    if n <= room {
        return Level {
            room: room - n,
            blocks,
        };
    }
    Level {
        room: B - n,
        blocks: blocks + 1,
    }
}

// S, n bytes of a body from here on: a segment "takes what fits, and goes on in the next block".
fn spread(B: u64, l: Level, body: u64) -> Level
    requires { (least_for body ≤ l.room) × (least_for body ≤ B) × (l.blocks + body < 18446744073709551616) × (l.room < 65536) × (B < 65536) × (body < 4294967296) }
    ensures { (Stands result (spread_to (suc body) B l.room l.blocks body)) × (result.room < 65536) × (result.blocks ≤ l.blocks + body) }
{
    let mut room = l.room;
    let mut blocks = l.blocks;
    let mut n = body;
    while room < 5 + n {
        n -= room - 5;
        room = B;
        blocks += 1;
    }
    Level {
        room: room - (5 + n),
        blocks,
    }
}

// "a segment starts where 6 bytes are left (5 for an empty record)"
pub fn least_for(n: u64) -> u64
    ensures { (result ≡ least_for n) × (result ≤ 6) }
{
    if 0 < n {
        return 6;
    }
    5
}

fn place_spanned(B: u64, l: Level, n: u64) -> Level
    requires { (least_for n ≤ B) × (l.blocks + 1 + n < 18446744073709551616) × (l.room < 65536) × (B < 65536) × (n < 4294967296) }
    ensures { (Stands result (placed_spanned B l.room l.blocks n)) × (result.room < 65536) × (result.blocks ≤ l.blocks + 1 + n) }
{
    let room = l.room;
    let blocks = l.blocks;
    let least = least_for(n);
    if least <= room {
        return spread(B, l, n);
    }
    let next = Level {
        room: B,
        blocks: blocks + 1,
    };
    spread(B, next, n)
}

// One record with a body of n bytes. "V unblocked: one to a block"
fn place(form: Form, blocked: bool, B: u64, l: Level, n: u64) -> Level
    requires { (FitsIn (format_for form) B n) × (l.blocks + 1 + n < 18446744073709551616) × (l.room < 65536) × (B < 65536) × (n < 4294967296) }
    ensures { (Stands result (placed (format_for form) blocked B l.room l.blocks n)) × (result.room < 65536) × (result.blocks ≤ l.blocks + 1 + n) }
{
    let blocks = l.blocks;
    match form {
        Form::Fixed => place_whole(B, l, n),
        Form::Variable => {
            if blocked {
                return place_whole(B, l, 4 + n);
            }
            Level {
                room: 0,
                blocks: blocks + 1,
            }
        }
        Form::Spanned => place_spanned(B, l, n),
    }
}

// Where a writer stands behind the whole list, from no block and no room on: the blocks that it needs, and what the last one leaves unused.
pub fn level_after(form: Form, blocked: bool, B: u64, lengths: &[u32]) -> Level
    requires { (EachFits (format_for form) B lengths.now) × (B < 65536) × (length lengths.now + total lengths.now < 18446744073709551616) }
    ensures { Stands result (level_from (format_for form) blocked B 0 0 lengths.now) }
{
    let mut l = Level { room: 0, blocks: 0 };
    for &n in lengths {
        l = place(form, blocked, B, l, u64::from(n));
    }
    l
}

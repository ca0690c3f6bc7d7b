// An answer as the one returned 64-bit number of the C boundary. For each case of an answer, the definitions of specs/Packed in crates/standard say its
// number; the functions here compute it, and no sum of theirs wraps. Inner: the exports call them.
#![tactic(auto)]

ghost use Rattle.std.specs.Prelude.{◌≡◌, cond, ◌-◌, ◌*◌, ◌<◌, ◌≤◌, ◌^◌, ltb};
ghost use Rattle.standard.specs.Packed.{packed_refusal, packed_judged, packed_found, packed_counted, packed_place, packed_answer, packed_written, packed_created};
ghost use Rattle.packing.specs.Room.{FoundFits, PlaceFits, AnswerFits, CreatedFits};

use standard::{Answer, Created, Found, Geometry, Place, Refusal};

// What a bit of that number is worth: the parts of an answer begin at these bits.
const BIT_4: u64 = 1 << 4;

const BIT_8: u64 = 1 << 8;

const BIT_16: u64 = 1 << 16;

const BIT_20: u64 = 1 << 20;

const BIT_24: u64 = 1 << 24;

const BIT_28: u64 = 1 << 28;

const BIT_32: u64 = 1 << 32;

const BIT_40: u64 = 1 << 40;

const BIT_56: u64 = 1 << 56;

// The codes that are no refusal's, in the top byte.
const GAP: u64 = 128 << 56;

const END: u64 = 129 << 56;

// A number as it is given where only numbers below a limit have room.
fn most(n: u64, limit: u64) -> u64
    requires { 0 < limit }
    ensures { (result ≡ cond (ltb n limit) n (limit - 1)) × (result < limit) }
{
    if n < limit {
        return n;
    }
    limit - 1
}

// A byte's number from a bit on.
fn at_bit(b: u8, bit: u64) -> u64
    requires { bit ≤ 2 ^ 56 }
    ensures { (result ≡ b * bit) × (result ≤ 255 * bit) }
{
    u64::from(b) * bit
}

// "A refusal has its first place in bits 24-55, its second in bits 4-23, its third in bits 0-3": and its number in the top byte.
fn pack_refusal(r: Refusal) -> u64
    ensures { result ≡ packed_refusal r }
{
    at_bit(r.number, BIT_56)
        + most(r.first, BIT_32) * BIT_24
        + most(r.second, BIT_20) * BIT_4
        + most(r.third, BIT_4)
}

// "L bits 0-7, I 8-15, D 16-23, k 24-27, S 28-31, d1 32-39, d2 40-47 (0: absent)"
pub fn pack_judged(j: Result<Geometry, Refusal>) -> u64
    ensures { result ≡ packed_judged j }
{
    match j {
        Err(r) => pack_refusal(r),
        Ok(g) => {
            u64::from(g.L)
                + at_bit(g.I, BIT_8)
                + at_bit(g.D, BIT_16)
                + at_bit(g.k, BIT_24)
                + at_bit(g.S, BIT_28)
                + at_bit(g.d1, BIT_32)
                + at_bit(g.d2, BIT_40)
        }
    }
}

// "slot in bits 24-55, the label's byte offset in the image in bits 0-23"
pub fn pack_found(f: Result<Found, Refusal>) -> u64
    requires { FoundFits f }
    ensures { result ≡ packed_found f }
{
    match f {
        Err(r) => pack_refusal(r),
        Ok(f) => f.slot * BIT_24 + f.offset,
    }
}

// "the number of blocks"; "the number of free physical records"; "the number of blocks written"
pub fn pack_number(n: Result<u64, Refusal>) -> u64
    ensures counted { result ≡ packed_counted n }
    ensures written { result ≡ packed_written n }
{
    match n {
        Err(r) => pack_refusal(r),
        Ok(n) => n,
    }
}

fn bit(b: bool) -> u64
    ensures { (result ≡ cond b 1 0) × (result < 2) }
{
    if b {
        return 1;
    }
    0
}

// "bit 0 its mark, bits 1-15 its offset, bits 16-31 its block"
fn pack_place(pl: Place) -> u64
    requires { PlaceFits pl }
    ensures { (result ≡ packed_place pl) × (result < 2 ^ 32) }
{
    bit(pl.mark) + pl.offset * 2 + pl.block * BIT_16
}

// "bits 32-55 the record's length (0 for gap and End)"; the code is 128 for a gap, 129 for End.
pub fn pack_answer(a: Result<Answer, Refusal>) -> u64
    requires { AnswerFits a }
    ensures { result ≡ packed_answer a }
{
    match a {
        Err(r) => pack_refusal(r),
        Ok(met) => match met {
            Answer::Record(n, pl) => n * BIT_32 + pack_place(pl),
            Answer::Gap(pl) => GAP + pack_place(pl),
            Answer::End(pl) => END + pack_place(pl),
        },
    }
}

// "slot in bits 24-55; the start as the number of its five digits [..] in bits 0-23"
pub fn pack_created(c: Result<Created, Refusal>) -> u64
    requires { CreatedFits c }
    ensures { result ≡ packed_created c }
{
    match c {
        Err(r) => pack_refusal(r),
        Ok(c) => {
            let start = c.start;
            c.slot * BIT_24 + (start.cylinder * 1000 + start.side * 100 + start.sector)
        }
    }
}

// A reader on its way through the blocks of an opened file, one turn at a time: what stands at its place, and what that does to it. Everything here is inner.
#![tactic(auto)]

ghost use Rattle.std.specs.Prelude.{◌≡◌, ◌+◌, ◌-◌, ◌*◌, ◌<◌, ◌≤◌, length};
ghost use Rattle.standard.specs.Labels.{spanned};
ghost use Rattle.standard.specs.Pieces.{is_fill};
ghost use Rattle.standard.specs.Records.{over_in, refuse21};
ghost use Rattle.labels.specs.Forms.{format_for};
ghost use Rattle.pieces.specs.Looks.{head_of};
ghost use Rattle.walks.specs.Stands.{length_of, limit_in, joined_by, dropped_by, meet_by, ended_by, lost_by};
ghost use Rattle.walks.specs.Walks.{Walking, Entered, rest_at, seen_at, NotLost, PartAt, limit_by, Turned};

use blocks::{Role, all_fill, any_failed, onward};
use extents::Cursor;
use fields::minus;
use labels::Form;
use opening::{FileNumbers, Seat, content_size, seat_at};
use pieces::{Seen, head, look};
use standard::{Place, Refusal};

// How a reader goes: "In plain reading" it is refused at a lost block; in salvage it passes over it with a gap.
#[derive(Clone, Copy, PartialEq, Eq)]
pub enum Mode {
    Plain,
    Salvage,
}

// Where a reader stands: between records; at a block's start after a gap; inside a spanned record, with the length of its body so far and the block where
// it began.
#[derive(Clone, Copy)]
pub enum Stand {
    Fresh,
    Marked,
    Within(u64, u64),
}

// What a segment does to a reader: it completes a record of a length, begun in a block; it is taken in; it breaks a rule.
#[derive(Clone, Copy)]
pub enum Move {
    Deliver(u64, u64),
    Carry(Stand),
    Breach,
}

// What one reading of a place meets where it is not refused, without the bytes: a record by its length, the block where it began and the place behind it; a lost
// block by the place behind it; the end.
#[derive(Clone, Copy)]
pub enum Measured {
    Took(u64, u64, Place),
    Lost(Place),
    Ended,
}

// "A body over R (unless 0000)", where the limit is R in S, and none elsewhere
fn over(limit: u64, n: u64) -> bool
    ensures { result ≡ over_in spanned limit n }
{
    if 0 < limit {
        return limit < n;
    }
    false
}

// A segment joined to what there is of its record, in all n bytes begun in a block: the last one completes it.
#[tactic(auto, unfolding(crate::specs::Stands::joined_by))]
fn joined(limit: u64, n: u64, first: u64, completes: bool) -> Move
    ensures { result ≡ joined_by limit n first completes }
{
    if over(limit, n) {
        return Move::Breach;
    }
    if completes {
        return Move::Deliver(n, first);
    }
    Move::Carry(Stand::Within(n, first))
}

// "a 2 is dropped, unmeasured by R, and the mark stays; a 3 is dropped likewise and reading goes on without it."
fn dropped(role: Role) -> Move
    ensures { result ≡ dropped_by role }
{
    if role == Role::Middle {
        return Move::Carry(Stand::Marked);
    }
    Move::Carry(Stand::Fresh)
}

// "the next segment must be 2 or 3; otherwise it must be 0 or 1."
#[tactic(auto, unfolding(crate::specs::Stands::meet_by))]
fn meet(limit: u64, s: Stand, role: Role, n: u64, block: u64) -> Move
    requires { (length_of s < 9223372036854775808) × (n < 4294967296) }
    ensures { result ≡ meet_by limit s role n block }
{
    match s {
        Stand::Fresh => {
            if role.begins() {
                return joined(limit, n, block, role.completes());
            }
            Move::Breach
        }
        Stand::Marked => {
            if role.begins() {
                return joined(limit, n, block, role.completes());
            }
            dropped(role)
        }
        Stand::Within(length, first) => {
            if role.begins() {
                return Move::Breach;
            }
            joined(limit, length + n, first, role.completes())
        }
    }
}

// A reader on its way: a place of the file, the first record of its block, and where the reader stands.
#[derive(Clone, Copy)]
pub struct Walk {
    pub place: Place,
    pub at: Cursor,
    pub stand: Stand,
}

// One turn of a reader: what the reading met, or the way on.
#[derive(Clone, Copy)]
pub enum Turn {
    Done(Result<Measured, Refusal>),
    On(Walk),
}

// The bytes of a body so far.
pub fn length_of(s: Stand) -> u64
    ensures { result ≡ length_of s }
{
    match s {
        Stand::Fresh => 0,
        Stand::Marked => 0,
        Stand::Within(length, first) => length,
    }
}

// Only S has a limit: "A body over R (unless 0000)".
fn limit(form: Form, r: u64) -> u64
    ensures { result ≡ limit_in (format_for form) r }
{
    match form {
        Form::Fixed => 0,
        Form::Variable => 0,
        Form::Spanned => r,
    }
}

// 21 "content rule broken", block, offset where record, segment or rest begins
fn broken_at(block: u64, offset: u64) -> Result<Measured, Refusal>
    ensures { result ≡ Err (refuse21 block offset) }
{
    Err(Refusal::within(21, block, offset))
}

// "file ends after a 1 or 2 not dropped"; else End
pub fn at_end(s: Stand) -> Result<Measured, Refusal>
    ensures { result ≡ ended_by s }
{
    match s {
        Stand::Fresh => Ok(Measured::Ended),
        Stand::Marked => Ok(Measured::Ended),
        Stand::Within(_, _) => Err(Refusal::at(22, 0)),
    }
}

// "Meeting it, also midway in a spanned record, gives one gap and the next block's start, marked." Plain reading is refused.
fn at_lost(mode: Mode, place: Place, count: u64) -> Result<Measured, Refusal>
    requires { place.block < count }
    ensures { result ≡ lost_by mode place.block }
{
    match mode {
        Mode::Plain => Err(Refusal::at(20, place.block)),
        Mode::Salvage => {
            let next = place.next_block(count);
            Ok(Measured::Lost(next.after_gap()))
        }
    }
}

// What stands at the place of a walk, in a block that is not lost.
fn seen(image: &[u8], f: FileNumbers, w: Walk) -> Seen
    requires { Entered image.now f w }
    ensures { result ≡ seen_at image.now f w }
{
    let offset = w.place.offset;
    let n = minus(content_size(f, w.place.block), offset);
    let s = onward(f.g, image, w.at, 0, offset);
    let form = f.form;
    look(f.g, image, s.c, s.i, n, offset, form, f.R, f.blocked)
}

// "After 1 or 2 the rest of the block is fill": from an offset of the block on. Most often nothing is left, and then nothing is walked to.
fn rest_is_fill(image: &[u8], f: FileNumbers, w: Walk, from: u64) -> bool
    requires { (Entered image.now f w) × (from < 65536) }
    ensures { result ≡ is_fill (rest_at image.now f w from) }
{
    let n = minus(content_size(f, w.place.block), from);
    if n == 0 {
        return true;
    }
    let s = onward(f.g, image, w.at, 0, from);
    all_fill(f.g, image, s.c, s.i, n)
}

// The start of the next block.
fn next(image: &[u8], f: FileNumbers, w: Walk, stand: Stand) -> Walk
    requires { (Entered image.now f w) × (length_of stand ≤ (w.place.block + 1) * 65536) }
    ensures { (Walking image.now f result) × (result.place.block ≡ w.place.block + 1) × (result.place.offset ≡ 0) × (result.stand ≡ stand) }
{
    let place = w.place;
    let at = w.at;
    let here = Seat {
        block: place.block,
        at,
    };
    let there = seat_at(image, f, here, place.block + 1);
    let start = there.at;
    Walk {
        place: place.next_block(f.count),
        at: start,
        stand,
    }
}

// Behind a segment that is taken in: after a 1 or 2 the next block, else what stands there.
fn carried(
    image: &[u8],
    f: FileNumbers,
    mode: Mode,
    w: Walk,
    role: Role,
    size: u64,
    stand: Stand,
) -> Turn
    requires { (Entered image.now f w) × (PartAt image.now f w role size) × (Move.Carry stand ≡ meet_by (limit_by f) w.stand role (size - head_of f.form) w.place.block) }
    ensures { Turned image.now f mode w result }
{
    let place = w.place;
    let end = place.offset + size;
    if role.completes() {
        let at = w.at;
        return Turn::On(Walk {
            place: place.behind(end),
            at,
            stand,
        });
    }
    if rest_is_fill(image, f, w, end) {
        return Turn::On(next(image, f, w, stand));
    }
    Turn::Done(broken_at(place.block, end))
}

// A segment, or a record of F or V, of a size with its control word.
fn part_met(image: &[u8], f: FileNumbers, mode: Mode, w: Walk, role: Role, size: u64) -> Turn
    requires { (Entered image.now f w) × (PartAt image.now f w role size) }
    ensures { Turned image.now f mode w result }
{
    let place = w.place;
    let form = f.form;
    let stand = w.stand;
    let moved = meet(
        limit(form, f.R),
        stand,
        role,
        minus(size, head(form)),
        place.block,
    );
    match moved {
        Move::Deliver(length, first) => Turn::Done(Ok(Measured::Took(
            length,
            first,
            place.behind(place.offset + size),
        ))),
        Move::Carry(next) => carried(image, f, mode, w, role, size, next),
        Move::Breach => Turn::Done(broken_at(place.block, place.offset)),
    }
}

// One turn of a reader that is in a block of the file which is not lost.
pub fn turn_in(image: &[u8], f: FileNumbers, mode: Mode, w: Walk) -> Turn
    requires { (Entered image.now f w) × (NotLost image.now f w) }
    ensures { Turned image.now f mode w result }
{
    let place = w.place;
    let stand = w.stand;
    let met = seen(image, f, w);
    match met {
        Seen::Blank => Turn::On(next(image, f, w, stand)),
        Seen::Broken => Turn::Done(broken_at(place.block, place.offset)),
        Seen::Part(role, size) => part_met(image, f, mode, w, role, size),
    }
}

// One turn of a reader that is in a block of the file.
pub fn take_turn(image: &[u8], f: FileNumbers, mode: Mode, w: Walk) -> Turn
    requires { Entered image.now f w }
    ensures { Turned image.now f mode w result }
{
    if any_failed(f.g, image, w.at, f.m) {
        return Turn::Done(at_lost(mode, w.place, f.count));
    }
    turn_in(image, f, mode, w)
}

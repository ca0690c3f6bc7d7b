// Reading and salvage from a place. What stands there is measured first, and only an answer that is certain is laid into the output: a gap, End and a refusal
// change no byte of it.
#![tactic(auto)]

ghost use Rattle.std.specs.Prelude.{◌≡◌, [], ◌+◌, ◌-◌, ◌<◌, ◌≤◌, length};
ghost use Rattle.std.proofs.Math.Seq.{paste};
ghost use Rattle.standard.specs.Records.{plain, salvage, entering};
ghost use Rattle.standard.specs.Reading.{reply_in, read_answer, laid_over, output_after};
ghost use Rattle.labels.specs.Forms.{format_for};
ghost use Rattle.opening.specs.Opened.{file_of, Opened, Seated};
ghost use Rattle.walks.specs.Stands.{length_of, length_in, state_with, met_with, measured};
ghost use Rattle.walks.specs.Walks.{mode_of, met_from, Walking, body_ahead, Reached, ReachedBy, grown};
ghost use Rattle.reading.specs.Answers.{Measures, Room, body_in, answered_by, fits_in, Answers};

use blocks::{copy, onward};
use labels::Form;
use opening::{FileNumbers, Seat, begin, in_file, seat_at};
use pieces::head;
use standard::{Answer, Place, Refusal};
use walks::{Measured, Mode, Stand, Turn, Walk, at_end, length_of, take_turn, turn_in};

// The length of the record that was met.
fn length_in(x: Result<Measured, Refusal>) -> u64
    ensures { result ≡ length_in x }
{
    match x {
        Ok(Measured::Took(length, _, _)) => length,
        _ => 0,
    }
}

// What a reader meets, measured: no byte is copied.
fn measure(image: &[u8], f: FileNumbers, mode: Mode, from: Walk) -> Result<Measured, Refusal>
    requires { (Opened image.now f) × (Walking image.now f from) }
    ensures { Measures image.now f mode from result }
{
    let mut w = from;
    while w.place.block < f.count {
        let t = take_turn(image, f, mode, w);
        match t {
            Turn::Done(x) => {
                return x;
            }
            Turn::On(v) => {
                w = v;
            }
        }
    }
    let stand = w.stand;
    at_end(stand)
}

// Lays into the output what of a record's body stands at a walk's place, up to a length of the body.
fn put(image: &[u8], f: FileNumbers, w: Walk, to: u64, out: &mut [u8])
    requires { (Opened image.now f) × (Walking image.now f w) × (Reached image.now f w to) × (to ≤ length out.old) }
    ensures { out.new ≡ paste out.old (length_of w.stand) (body_ahead image.now f w) (to - length_of w.stand) }
{
    let stand = w.stand;
    let form = f.form;
    let so_far = length_of(stand);
    let s = onward(f.g, image, w.at, 0, w.place.offset + head(form));
    copy(f.g, image, s.c, s.i, out, so_far, to - so_far)
}

// Lays into the output the record that was measured: the same walk again, but for the question whether a block is lost, which measuring has answered.
fn deliver(image: &[u8], f: FileNumbers, mode: Mode, from: Walk, out: &mut [u8])
    requires { (Opened image.now f) × (Walking image.now f from) × (length_of from.stand ≡ 0) × (Room (length out.old) (met_from image.now f mode from [])) }
    ensures { out.new ≡ laid_over (body_in (met_from image.now f mode from [])) out.old }
{
    let mut w = from;
    while w.place.block < f.count {
        let t = turn_in(image, f, mode, w);
        match t {
            Turn::Done(x) => {
                put(image, f, w, length_in(x), out);
                return;
            }
            Turn::On(v) => {
                let stand = v.stand;
                put(image, f, w, length_of(stand), out);
                w = v;
            }
        }
    }
}

// The answer to what was measured, where the output has so much room: "23 last".
fn answered(count: u64, x: Result<Measured, Refusal>, room: u64) -> Result<Answer, Refusal>
    ensures { result ≡ answered_by count room x }
{
    let met = x?;
    match met {
        Measured::Took(length, _, place) => {
            if room < length {
                return Err(Refusal::at(23, length));
            }
            Ok(Answer::Record(length, place))
        }
        Measured::Lost(place) => Ok(Answer::Gap(place)),
        Measured::Ended => Ok(Answer::End(Place {
            block: count,
            offset: 0,
            mark: false,
        })),
    }
}

// Whether it was a record, and the output has room for it.
fn fits(x: Result<Measured, Refusal>, room: u64) -> bool
    ensures { result ≡ fits_in room x }
{
    match x {
        Ok(Measured::Took(length, _, _)) => length <= room,
        _ => false,
    }
}

// A reading that one turn has measured: the record stands in one block, behind its control word.
fn at_once(
    image: &[u8],
    f: FileNumbers,
    w: Walk,
    x: Result<Measured, Refusal>,
    out: &mut [u8],
) -> Result<Answer, Refusal>
    requires { (Opened image.now f) × (Walking image.now f w) × (length_of w.stand ≡ 0) × (ReachedBy image.now f w x) }
    ensures { Answers image.now f (met_with (grown image.now f w [] (length_in x)) x) out.old out.new result }
{
    let room = out.len() as u64;
    if !fits(x, room) {
        return answered(f.count, x, room);
    }
    put(image, f, w, length_in(x), out);
    answered(f.count, x, room)
}

// A record over several blocks, or behind blocks that hold nothing: it is measured already, and delivered by the same walk again.
fn at_length(
    image: &[u8],
    f: FileNumbers,
    mode: Mode,
    w: Walk,
    x: Result<Measured, Refusal>,
    out: &mut [u8],
) -> Result<Answer, Refusal>
    requires { (Opened image.now f) × (Walking image.now f w) × (length_of w.stand ≡ 0) × (x ≡ measured (met_from image.now f mode w [])) }
    ensures { Answers image.now f (met_from image.now f mode w []) out.old out.new result }
{
    let room = out.len() as u64;
    if !fits(x, room) {
        return answered(f.count, x, room);
    }
    deliver(image, f, mode, w, out);
    answered(f.count, x, room)
}

// The answer to a reader on its way. As long as nothing of a record has come, a turn only leads further.
fn read_from(
    image: &[u8],
    f: FileNumbers,
    mode: Mode,
    from: Walk,
    out: &mut [u8],
) -> Result<Answer, Refusal>
    requires { (Opened image.now f) × (Walking image.now f from) × (length_of from.stand ≡ 0) }
    ensures { Answers image.now f (met_from image.now f mode from []) out.old out.new result }
{
    let mut w = from;
    while w.place.block < f.count {
        let t = take_turn(image, f, mode, w);
        match t {
            Turn::Done(x) => {
                return at_once(image, f, w, x, out);
            }
            Turn::On(v) => {
                let stand = v.stand;
                if 0 < length_of(stand) {
                    return at_length(image, f, mode, w, measure(image, f, mode, v), out);
                }
                w = v;
            }
        }
    }
    let stand = w.stand;
    answered(f.count, at_end(stand), out.len() as u64)
}

// "In plain reading, at offsets above 0, and in F and V, the mark counts as absent."
fn stand_at(form: Form, mode: Mode, place: Place) -> Stand
    ensures { (state_with [] result ≡ entering (mode_of mode) (format_for form) place.offset place.mark) × (length_of result ≡ 0) }
{
    match (mode, form) {
        (Mode::Salvage, Form::Spanned) => {
            if place.mark & (place.offset == 0) {
                return Stand::Marked;
            }
            Stand::Fresh
        }
        _ => Stand::Fresh,
    }
}

// An answer, and the seat of the block where its reading began: the next reading goes on from there.
#[derive(Clone, Copy)]
pub struct Heard {
    pub answer: Result<Answer, Refusal>,
    pub seat: Seat,
}

// A place of an opened file; 19 "place not in the file". (Inner: this is reading without judging the volume again.)
pub fn read_on(
    image: &[u8],
    f: FileNumbers,
    mode: Mode,
    seat: Seat,
    place: Place,
    out: &mut [u8],
) -> Heard
    requires { (Opened image.now f) × (Seated image.now f seat.block seat.at) }
    ensures { (result.answer ≡ (reply_in (mode_of mode) (file_of image.now f) place (length out.old)).answer) × (out.new ≡ laid_over (reply_in (mode_of mode) (file_of image.now f) place (length out.old)).body out.old) × (Seated image.now f result.seat.block result.seat.at) }
{
    if !in_file(f, place) {
        return Heard {
            answer: Err(Refusal::at(19, 0)),
            seat,
        };
    }
    let form = f.form;
    let s = seat_at(image, f, seat, place.block);
    let at = s.at;
    let w = Walk {
        place,
        at,
        stand: stand_at(form, mode, place),
    };
    Heard {
        answer: read_from(image, f, mode, w, out),
        seat: s,
    }
}

// A place of the file in a slot. "A file call stops at the first refusal of the volume."
fn answer_at(
    image: &[u8],
    slot: u64,
    mode: Mode,
    place: Place,
    out: &mut [u8],
) -> Result<Answer, Refusal>
    ensures { (result ≡ read_answer (mode_of mode) image.now slot place out.old) × (out.new ≡ output_after (mode_of mode) image.now slot place out.old) }
{
    let stage = begin(image, slot)?;
    let heard = read_on(image, stage.file, mode, stage.seat, place, out);
    heard.answer
}

// "Reading a place gives the record and the place right behind it."
pub fn read(image: &[u8], slot: u64, place: Place, out: &mut [u8]) -> Result<Answer, Refusal>
    ensures { (result ≡ read_answer plain image.now slot place out.old) × (out.new ≡ output_after plain image.now slot place out.old) }
{
    answer_at(image, slot, Mode::Plain, place, out)
}

// "Salvage answers record, gap, End or refusal."
pub fn salvage(image: &[u8], slot: u64, place: Place, out: &mut [u8]) -> Result<Answer, Refusal>
    ensures { (result ≡ read_answer salvage image.now slot place out.old) × (out.new ≡ output_after salvage image.now slot place out.old) }
{
    answer_at(image, slot, Mode::Salvage, place, out)
}

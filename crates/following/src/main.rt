// The following program: it reads an image of at most 65,536 bytes from standard input, and follows the places of every slot from Start, in plain reading and
// in salvage, so that both can be compared with an independent reader. Each file is opened once. One line is printed for each answer.
#![tactic(auto)]

ghost use Rattle.std.specs.Prelude.{◌≡◌, [], ◌∷◌, ◌++◌, ◌+◌, ◌*◌, ◌<◌, ◌≤◌, length, take, replicate};
ghost use Rattle.standard.specs.Characters.{shown};
ghost use Rattle.standard.specs.Places.{start};
ghost use Rattle.standard.specs.Records.{plain};
ghost use Rattle.standard.specs.Reading.{read_answer};
ghost use Rattle.text.specs.Laid.{Puts, Writes};
ghost use Rattle.walks.specs.Walks.{mode_of};
ghost use Rattle.opened.specs.Carries.{Carries};
ghost use Rattle.following.specs.Lines.{spaced, place_fields, hex_digit, pair_of, hex_of, body_field, refused_fields, record_fields, answer_fields, answer_line, letter_of, reading_line, next_of, of_volume};

use input::read_full;
use opened::{Carried, Told, ask_next, carry};
use standard::{Answer, Place, Refusal};
use std::io;
use text::Text;
use walks::Mode;

// `r` and `s`
fn letter_of(mode: Mode) -> u8
    ensures { result ≡ letter_of mode }
{
    match mode {
        Mode::Plain => 114,
        Mode::Salvage => 115,
    }
}

fn put_place(text: &mut Text, place: Place)
    requires { text.old.at < 8388608 }
    ensures { Writes text.old text.new 63 (place_fields place) }
{
    text.named(b" ", place.block);
    text.named(b" ", place.offset);
    text.named(b" ", u64::from(place.mark));
}

fn hex_digit(n: u8) -> u8
    requires { n < 16 }
    ensures { result ≡ hex_digit n }
{
    if n < 10 {
        return 48 + n;
    }
    87 + n
}

// A byte in two hex digits.
fn put_pair(text: &mut Text, b: u8)
    requires { text.old.at < 16777216 }
    ensures { Writes text.old text.new 2 (pair_of b) }
{
    text.byte(hex_digit(b / 16));
    text.byte(hex_digit(b % 16));
}

fn put_hex(text: &mut Text, body: &[u8])
    requires { (text.old.at < 65536) × (length body.now ≤ 65536) }
    ensures { Writes text.old text.new (2 * length body.now) (hex_of body.now) }
{
    for &b in body {
        put_pair(text, b);
    }
}

// The bytes of a record; of an empty one nothing, not even the space.
fn put_body(text: &mut Text, body: &[u8])
    requires { (text.old.at < 32768) × (length body.now ≤ 65536) }
    ensures { Writes text.old text.new (1 + 2 * length body.now) (body_field body.now) }
{
    if body.is_empty() {
        return;
    }
    text.byte(32);
    put_hex(text, body);
}

// The first n bytes of the output, or all of them if they are fewer.
fn first_of(out: &[u8], n: u64) -> &[u8]
    ensures { result.now ≡ take n out.now }
{
    if n <= out.len() as u64 {
        let end = n as usize;
        return &out[0..end];
    }
    out
}

fn put_refused(text: &mut Text, r: Refusal)
    requires { text.old.at < 8192 }
    ensures { Writes text.old text.new 71 (refused_fields r) }
{
    text.refusal(b" refused ", r);
    text.named(b" ", r.second);
}

fn put_record(text: &mut Text, n: u64, next: Place, body: &[u8])
    requires { (text.old.at < 8192) × (length body.now ≤ 65536) }
    ensures { Writes text.old text.new (92 + 2 * length body.now) (record_fields n next body.now) }
{
    text.named(b" record ", n);
    put_place(text, next);
    put_body(text, body);
}

// What was answered. `lent` is the output of the reading.
fn put_answer(text: &mut Text, a: Result<Answer, Refusal>, lent: &[u8])
    requires { (text.old.at < 4096) × (length lent.now ≤ 65536) }
    ensures { Writes text.old text.new (92 + 2 * length lent.now) (answer_fields a lent.now) }
{
    match a {
        Err(r) => put_refused(text, r),
        Ok(Answer::Record(n, next)) => put_record(text, n, next, first_of(lent, n)),
        Ok(Answer::Gap(next)) => {
            text.bytes(b" gap");
            put_place(text, next);
        }
        Ok(Answer::End(next)) => {
            text.bytes(b" end");
            put_place(text, next);
        }
    }
}

// The line of an answer.
fn put_line(out: &mut [u8], slot: u64, mode: Mode, a: Result<Answer, Refusal>, lent: &[u8]) -> usize
    requires { length lent.now ≤ 4096 }
    ensures { Puts out.old out.new 0 result (answer_line slot mode a lent.now) × (result ≤ 8448) }
{
    let mut text = Text::at(out, 0);
    text.number(slot);
    text.byte(32);
    text.byte(letter_of(mode));
    put_answer(&mut text, a, lent);
    text.byte(10);
    text.end()
}

// The place that a row goes on from behind an answer; none where it ends.
fn next_of(a: Result<Answer, Refusal>) -> Option<Place>
    ensures { result ≡ next_of a }
{
    match a {
        Err(_) => None,
        Ok(Answer::Record(_, next)) => Some(next),
        Ok(Answer::Gap(next)) => Some(next),
        Ok(Answer::End(_)) => None,
    }
}

// "A file call stops at the first refusal of the volume": 1 to 12, which no slot changes.
fn of_volume(a: Result<Answer, Refusal>) -> bool
    ensures { result ≡ of_volume a }
{
    match a {
        Err(r) => r.number < 13,
        Ok(_) => false,
    }
}

// One reading, and its line, which it puts into `line`. The output has 4,096 bytes.
fn turn(image: &[u8], carried: Carried, mode: Mode, place: Place, line: &mut [u8]) -> (Told, usize)
    requires { Carries image.now carried }
    ensures told { (result.0.answer ≡ read_answer (mode_of mode) image.now carried.slot place (replicate 4096 0)) × (Carries image.now result.0.carried) × (result.0.carried.slot ≡ carried.slot) }
    ensures line { Puts line.old line.new 0 result.1 (reading_line image.now carried.slot mode place (replicate 4096 0)) × (result.1 ≤ 8448) }
{
    let mut lent = [0u8; 4096];
    let told = ask_next(image, carried, mode, place, &mut lent);
    let a = told.answer;
    let length = put_line(line, carried.slot, mode, a, &lent);
    (told, length)
}

// The row of a file: Start, then each place that is handed out, up to End or a refusal.
fn follow(rt: &impl Print, image: &[u8], from: Carried, mode: Mode) -> io::Result<()>
    requires { Carries image.now from }
{
    let mut carried = from;
    let mut place = Place::START;
    let mut line = [0u8; 8448];
    for _ in 0..4096 {
        let (told, length) = turn(image, carried, mode, place, &mut line);
        rt.write_all(&line[..length])?;
        let Some(next) = next_of(told.answer) else {
            return Ok(());
        };
        carried = told.carried;
        place = next;
    }
    Ok(())
}

// The first answer of a file, with no line.
fn first_answer(image: &[u8], carried: Carried) -> Result<Answer, Refusal>
    requires { Carries image.now carried }
    ensures { result ≡ read_answer plain image.now carried.slot start (replicate 4096 0) }
{
    let mut lent = [0u8; 4096];
    let told = ask_next(image, carried, Mode::Plain, Place::START, &mut lent);
    told.answer
}

// All rows: for each slot there may be, plain reading (`r`) and salvage (`s`). Where the volume is refused there is one line.
fn rows(rt: &impl Print, image: &[u8]) -> io::Result<()> {
    let first = carry(image, 1);
    if of_volume(first_answer(image, first)) {
        let mut line = [0u8; 8448];
        let (_, length) = turn(image, first, Mode::Plain, Place::START, &mut line);
        return rt.write_all(&line[..length]);
    }
    for slot in 1..=45 {
        let carried = carry(image, slot);
        follow(rt, image, carried, Mode::Plain)?;
        follow(rt, image, carried, Mode::Salvage)?;
    }
    Ok(())
}

fn main(rt: HostRuntime) -> io::Result<()> {
    let mut image = [0u8; 65537];
    let size = read_full(&mut rt.stdin(), &mut image)?;
    if 65536 < size {
        return rt.write_all(b"TOO LONG\n");
    }
    rows(&rt, &image[..size])
}

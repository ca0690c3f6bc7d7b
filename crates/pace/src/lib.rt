// Only for measuring (compare/bench): a whole file read by an opened file, which judges the volume and opens the file once. The library's exports judge anew at
// each call.
#![tactic(auto)]

ghost use Rattle.std.specs.Prelude.{◌≡◌, ◌≤◌, length};
ghost use Rattle.standard.specs.Places.{start};
ghost use Rattle.walks.specs.Walks.{mode_of};
ghost use Rattle.pace.specs.Answers.{led_by, answers_from, mode_by, paced};

use opened::{ask_next, carry};
use standard::{Answer, Place, Refusal};
use walks::Mode;

// Where an answer leads: to the next place, or nowhere. "Reading a place gives the record and the place right behind it." A gap leads on likewise: "one gap and
// the next block's start, marked".
fn leads(a: Result<Answer, Refusal>) -> Option<Place>
    ensures { result ≡ led_by a }
{
    match a {
        Err(_) => None,
        Ok(Answer::Record(_, place)) => Some(place),
        Ok(Answer::Gap(place)) => Some(place),
        Ok(Answer::End(_)) => None,
    }
}

// The answers before End or a refusal, from Start on. The bound is a measure of the loop, nothing of the document.
fn follow(image: &[u8], slot: u64, mode: Mode, out: &mut [u8]) -> u64
    ensures { (result ≡ answers_from (mode_of mode) image.now slot (length out.old) 1048576 start) × (result ≤ 1048576) }
{
    let mut carried = carry(image, slot);
    let mut place = Place::start();
    for n in 0..1048576 {
        let told = ask_next(image, carried, mode, place, out);
        let Some(next) = leads(told.answer) else {
            return n;
        };
        carried = told.carried;
        place = next;
    }
    1048576
}

// Plain reading by 0, else salvage.
fn mode_by(salvage: u64) -> Mode
    ensures { mode_of result ≡ mode_by salvage }
{
    match salvage {
        0 => Mode::Plain,
        _ => Mode::Salvage,
    }
}

// The answers that the file in a slot gives before End or a refusal, by salvage if `salvage` is not 0; none where the volume or the file is refused.
#[unsafe(no_mangle)]
pub extern "C" fn galz_pace(image: &[u8], slot: u64, salvage: u64, out: &mut [u8]) -> u64
    ensures { (result ≡ paced image.now slot salvage (length out.old) 1048576) × (result ≤ 1048576) }
{
    follow(image, slot, mode_by(salvage), out)
}

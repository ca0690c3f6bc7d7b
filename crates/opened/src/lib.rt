// "An opened file carries the lent image with it, so the read path asks it for record after record." The volume is judged and the file opened once; after
// that a reading costs the record, not the volume. The work is in `carry` and `answer_on`, which take plain parameters. The functions over the struct are
// thin: each makes it, takes it apart or passes it on.
// `ask_at` takes any image, slot and place. What requires `Carries` is for callers in these crates who hold what `open`, `carry` or an answer
// gave them: numbers of another image could lead a reader out of this one.
#![tactic(auto)]

ghost use Rattle.std.specs.Prelude.{◌≡◌};
ghost use Rattle.walks.specs.Walks.{mode_of};
ghost use Rattle.opened.specs.Carries.{Carries, Asks};

use opening::{Stage, begin};
use reading::read_on;
use standard::{Answer, Place, Refusal};
use walks::Mode;

// What an opened file carries beside the image: what opening it said, the refusal or the stage, with the seat of the block where the last reading began.
#[derive(Clone, Copy)]
pub struct Carried {
    pub slot: u64,
    pub stage: Result<Stage, Refusal>,
}

// An answer, and what the file carries from then on.
#[derive(Clone, Copy)]
pub struct Told {
    pub answer: Result<Answer, Refusal>,
    pub carried: Carried,
}

// Judges the volume and opens the file in a slot.
pub fn carry(image: &[u8], slot: u64) -> Carried
    ensures { (Carries image.now result) × (result.slot ≡ slot) }
{
    Carried {
        slot,
        stage: begin(image, slot),
    }
}

// A place of the file that is carried: neither the volume nor the file is judged again.
fn answer_on(image: &[u8], carried: Carried, mode: Mode, place: Place, out: &mut [u8]) -> Told
    requires { Carries image.now carried }
    ensures { Asks image.now carried.slot (mode_of mode) place out.old out.new result }
{
    match carried.stage {
        Err(r) => Told {
            answer: Err(r),
            carried,
        },
        Ok(stage) => {
            let file = stage.file;
            let heard = read_on(image, file, mode, stage.seat, place, out);
            Told {
                answer: heard.answer,
                carried: Carried {
                    slot: carried.slot,
                    stage: Ok(Stage {
                        file,
                        seat: heard.seat,
                    }),
                },
            }
        }
    }
}

// An opened file: the lent image, and what is carried beside it.
#[derive(Clone, Copy)]
pub struct OpenedFile<'a> {
    pub image: &'a [u8],
    pub carried: Carried,
}

// Opens the file in a slot: 1 to 18 are decided here, once.
pub fn open<'a>(image: &'a [u8], slot: u64) -> OpenedFile<'a>
    ensures { (result.image ≡ image.entry) × (Carries image.now result.carried) × (result.carried.slot ≡ slot) }
{
    OpenedFile {
        image,
        carried: carry(image, slot),
    }
}

// Asks an opened file for a place: "Reading a place gives the record and the place right behind it."; "Salvage answers record, gap, End or refusal."
pub fn ask<'a, 'b>(o: OpenedFile<'a>, mode: Mode, place: Place, out: &'b mut [u8]) -> Told
    requires { Carries o.image.now o.carried }
    ensures { Asks o.entry.image.now o.entry.carried.slot (mode_of mode) place out.old out.new result }
{
    answer_on(o.image, o.carried, mode, place, out)
}

// The opened file with what an answer left it to carry: from answer to answer the image stays lent.
pub fn going_on<'a>(o: OpenedFile<'a>, carried: Carried) -> OpenedFile<'a>
    ensures { (result.image ≡ o.entry.image) × (result.carried ≡ carried) }
{
    OpenedFile {
        image: o.image,
        carried,
    }
}

// The same with plain parameters, so that whoever calls it needs no walk: the file in a slot is opened, and asked for a place.
pub fn ask_at(image: &[u8], slot: u64, mode: Mode, place: Place, out: &mut [u8]) -> Told
    ensures { Asks image.now slot (mode_of mode) place out.old out.new result }
{
    ask(open(image, slot), mode, place, out)
}

// And from what is carried, for a loop that goes on from answer to answer: the opened file is put together again, and asked for a place.
pub fn ask_next(image: &[u8], carried: Carried, mode: Mode, place: Place, out: &mut [u8]) -> Told
    requires { Carries image.now carried }
    ensures { Asks image.now carried.slot (mode_of mode) place out.old out.new result }
{
    ask(OpenedFile { image, carried }, mode, place, out)
}

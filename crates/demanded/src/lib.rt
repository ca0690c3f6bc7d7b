// The code keeps the contracts of the table in specs/Calls. Each function here has a row of the table as its contract, and no body but the call of the
// library's function: so what specs/ says of any function that meets a row is said of the library's.
#![tactic(auto)]

ghost use Rattle.std.specs.Prelude.{[]};
ghost use Rattle.standard.specs.Records.{plain, salvage as salvaging};
ghost use Rattle.galzeranta.specs.Asked.{place_of};
ghost use Rattle.demanded.specs.Calls.{Allows, contract, exported, moved, named, in_slot, into, ask, give, want, stepping, moving};
ghost use Rattle.demanded.specs.Calls as Calls;

use standard::{Address, Answer, Created, Found, Geometry, Place, Refusal};
use walks::Mode;

// The calls on an image.

pub fn judge(image: &[u8]) -> Result<Geometry, Refusal>
    ensures { Allows (contract Calls.judge) image.now result [] }
{
    volume::judge(image)
}

pub fn find(image: &[u8], name: &[u8]) -> Result<Found, Refusal>
    ensures { Allows (contract Calls.find) (named image.now name.now) result [] }
{
    finding::find(image, name)
}

pub fn find_slot(image: &[u8], slot: u64) -> Result<Found, Refusal>
    ensures { Allows (contract Calls.find_slot) (in_slot image.now slot) result [] }
{
    finding::find_slot(image, slot)
}

pub fn label_named<'a, 'b>(image: &'a [u8], name: &'b [u8]) -> &'a [u8]
    ensures { Allows (contract Calls.label_named_row) (named image.now name.now) result.now [] }
{
    finding::label_named(image, name)
}

pub fn label_in_slot(image: &[u8], slot: u64) -> &[u8]
    ensures { Allows (contract Calls.label_in_slot_row) (in_slot image.now slot) result.now [] }
{
    finding::label_in_slot(image, slot)
}

pub fn free(image: &[u8]) -> Result<u64, Refusal>
    ensures { Allows (contract Calls.free) image.now result [] }
{
    vacancy::free(image)
}

pub fn count(image: &[u8], slot: u64) -> Result<u64, Refusal>
    ensures { Allows (contract Calls.count) (in_slot image.now slot) result [] }
{
    files::count(image, slot)
}

pub fn list(image: &[u8], out: &mut [u8]) -> usize
    ensures { Allows (contract Calls.list) (into image.now out.old) result out.new }
{
    lines::list(image, out)
}

pub fn read(image: &[u8], slot: u64, place: Place, out: &mut [u8]) -> Result<Answer, Refusal>
    ensures { Allows (contract (Calls.read plain)) (ask image.now slot place out.old) result out.new }
{
    reading::read(image, slot, place, out)
}

pub fn salvage(image: &[u8], slot: u64, place: Place, out: &mut [u8]) -> Result<Answer, Refusal>
    ensures { Allows (contract (Calls.read salvaging)) (ask image.now slot place out.old) result out.new }
{
    reading::salvage(image, slot, place, out)
}

// By an opened file: the same rows, however the image is carried.

pub fn opened_read(image: &[u8], slot: u64, place: Place, out: &mut [u8]) -> Result<Answer, Refusal>
    ensures { Allows (contract (Calls.read plain)) (ask image.now slot place out.old) result out.new }
{
    opened::ask_at(image, slot, Mode::Plain, place, out).answer
}

pub fn opened_salvage(
    image: &[u8],
    slot: u64,
    place: Place,
    out: &mut [u8],
) -> Result<Answer, Refusal>
    ensures { Allows (contract (Calls.read salvaging)) (ask image.now slot place out.old) result out.new }
{
    opened::ask_at(image, slot, Mode::Salvage, place, out).answer
}

pub fn write(image: &mut [u8], slot: u64, bodies: &[u8], lengths: &[u32]) -> Result<u64, Refusal>
    ensures { Allows (contract Calls.write) (give image.old slot bodies.now lengths.now) result image.new }
{
    writing::write(image, slot, bodies, lengths)
}

pub fn create(image: &mut [u8], fields: &[u8], n: u64) -> Result<Created, Refusal>
    ensures { Allows (contract Calls.create) (want image.old fields.now n) result image.new }
{
    creating::create(image, fields, n)
}

pub fn delete(image: &mut [u8], slot: u64) -> Result<u64, Refusal>
    ensures { Allows (contract Calls.delete) (in_slot image.old slot) result image.new }
{
    deleting::delete(image, slot)
}

// The same for C.

pub fn judge_number(image: &[u8]) -> u64
    ensures { Allows (exported Calls.galz_judge) image.now result [] }
{
    galzeranta::galz_judge(image)
}

pub fn find_number(image: &[u8], name: &[u8]) -> u64
    ensures { Allows (exported Calls.galz_find) (named image.now name.now) result [] }
{
    galzeranta::galz_find(image, name)
}

pub fn count_number(image: &[u8], slot: u64) -> u64
    ensures { Allows (exported Calls.galz_count) (in_slot image.now slot) result [] }
{
    galzeranta::galz_count(image, slot)
}

pub fn free_number(image: &[u8]) -> u64
    ensures { Allows (exported Calls.galz_free) image.now result [] }
{
    galzeranta::galz_free(image)
}

pub fn read_number(
    image: &[u8],
    slot: u64,
    block: u64,
    offset: u64,
    mark: u64,
    out: &mut [u8],
) -> u64
    ensures { Allows (exported Calls.galz_read) (ask image.now slot (place_of block offset mark) out.old) result out.new }
{
    galzeranta::galz_read(image, slot, block, offset, mark, out)
}

pub fn salvage_number(
    image: &[u8],
    slot: u64,
    block: u64,
    offset: u64,
    mark: u64,
    out: &mut [u8],
) -> u64
    ensures { Allows (exported Calls.galz_salvage) (ask image.now slot (place_of block offset mark) out.old) result out.new }
{
    galzeranta::galz_salvage(image, slot, block, offset, mark, out)
}

pub fn write_number(image: &mut [u8], slot: u64, bodies: &[u8], lengths: &[u32]) -> u64
    ensures { Allows (exported Calls.galz_write) (give image.old slot bodies.now lengths.now) result image.new }
{
    galzeranta::galz_write(image, slot, bodies, lengths)
}

pub fn create_number(image: &mut [u8], fields: &[u8], n: u64) -> u64
    ensures { Allows (exported Calls.galz_create) (want image.old fields.now n) result image.new }
{
    galzeranta::galz_create(image, fields, n)
}

pub fn delete_number(image: &mut [u8], slot: u64) -> u64
    ensures { Allows (exported Calls.galz_delete) (in_slot image.old slot) result image.new }
{
    galzeranta::galz_delete(image, slot)
}

// The moves of an address and a place.

pub fn address_first() -> Address
    ensures { Allows (moved Calls.address_first) tt result [] }
{
    Address::first()
}

pub fn address_step(a: Address, g: Geometry) -> Address
    ensures { Allows (moved Calls.address_step) (stepping g a) result [] }
{
    a.step(g)
}

pub fn address_read(field: &[u8]) -> Option<Address>
    ensures { Allows (moved Calls.address_read) field.now result [] }
{
    Address::read(field)
}

pub fn address_spelled(field: &[u8]) -> Address
    ensures { Allows (moved Calls.address_spelled) field.now result [] }
{
    Address::spelled(field)
}

pub fn place_start() -> Place
    ensures { Allows (moved Calls.place_start) tt result [] }
{
    Place::start()
}

pub fn place_behind(place: Place, offset: u64) -> Place
    ensures { Allows (moved Calls.place_behind) (moving place offset) result [] }
{
    place.behind(offset)
}

pub fn place_next_block(place: Place, count: u64) -> Place
    ensures { Allows (moved Calls.place_next_block) (moving place count) result [] }
{
    place.next_block(count)
}

pub fn place_after_gap(place: Place) -> Place
    ensures { Allows (moved Calls.place_after_gap) place result [] }
{
    place.after_gap()
}

// The C boundary: "The module is C and calls the library with numbers and byte slices". Each call answers with the one number that specs/Packed in
// crates/standard says of the definition's answer, for any bytes and any numbers; promises' PackedLaws shows that the caller reads the whole answer back
// from it. galzeranta_c exports them, each under its name here; include/galzeranta.h is the C side.
#![tactic(auto)]

ghost use Rattle.std.specs.Prelude.{◌≡◌};
ghost use Rattle.standard.specs.Judgement.{judged};
ghost use Rattle.standard.specs.Finding.{found};
ghost use Rattle.standard.specs.Files.{counted};
ghost use Rattle.standard.specs.Free.{free_count};
ghost use Rattle.standard.specs.Records.{plain, salvage};
ghost use Rattle.standard.specs.Reading.{read_answer, output_after};
ghost use Rattle.standard.specs.Packed.{packed_judged, packed_found, packed_counted, packed_answer, packed_written, packed_created};
ghost use Rattle.standard.specs.Writing.{written, image_after};
ghost use Rattle.standard.specs.Creating.{created, image_after_create, deleted, image_after_delete};
ghost use Rattle.galzeranta.specs.Asked.{place_of};

use standard::Place;

// The judgement of a volume.
pub fn galz_judge(image: &[u8]) -> u64
    ensures { result ≡ packed_judged (judged image.now) }
{
    packing::pack_judged(volume::judge(image))
}

// The file of a name: its slot, and where its label begins in the image.
pub fn galz_find(image: &[u8], name: &[u8]) -> u64
    ensures { result ≡ packed_found (found image.now name.now) }
{
    packing::pack_found(finding::find(image, name))
}

// The number of blocks of the file in a slot.
pub fn galz_count(image: &[u8], slot: u64) -> u64
    ensures { result ≡ packed_counted (counted image.now slot) }
{
    packing::pack_number(files::count(image, slot))
}

// The free records.
pub fn galz_free(image: &[u8]) -> u64
    ensures { result ≡ packed_counted (free_count image.now) }
{
    packing::pack_number(vacancy::free(image))
}

// The place that a caller asks for: a mark is set if it is not 0.
fn place_of(block: u64, offset: u64, mark: u64) -> Place
    ensures { result ≡ place_of block offset mark }
{
    Place {
        block,
        offset,
        mark: !(mark == 0),
    }
}

// Plain reading of a place of the file in a slot.
pub fn galz_read(image: &[u8], slot: u64, block: u64, offset: u64, mark: u64, out: &mut [u8]) -> u64
    ensures { (result ≡ packed_answer (read_answer plain image.now slot (place_of block offset mark) out.old)) × (out.new ≡ output_after plain image.now slot (place_of block offset mark) out.old) }
{
    packing::pack_answer(reading::read(image, slot, place_of(block, offset, mark), out))
}

// Salvage from a place of the file in a slot.
pub fn galz_salvage(
    image: &[u8],
    slot: u64,
    block: u64,
    offset: u64,
    mark: u64,
    out: &mut [u8],
) -> u64
    ensures { (result ≡ packed_answer (read_answer salvage image.now slot (place_of block offset mark) out.old)) × (out.new ≡ output_after salvage image.now slot (place_of block offset mark) out.old) }
{
    packing::pack_answer(reading::salvage(image, slot, place_of(block, offset, mark), out))
}

// Writing the file in a slot: all record bodies joined, and their lengths.
pub fn galz_write(image: &mut [u8], slot: u64, bodies: &[u8], lengths: &[u32]) -> u64
    ensures { (result ≡ packed_written (written image.old slot bodies.now lengths.now)) × (image.new ≡ image_after image.old slot bodies.now lengths.now) }
{
    packing::pack_number(writing::write(image, slot, bodies, lengths))
}

// Creating a file: the 29 bytes of label fields, and the number of its physical records.
pub fn galz_create(image: &mut [u8], fields: &[u8], n: u64) -> u64
    ensures { (result ≡ packed_created (created image.old fields.now n)) × (image.new ≡ image_after_create image.old fields.now n) }
{
    packing::pack_created(creating::create(image, fields, n))
}

// Deleting the file in a slot.
pub fn galz_delete(image: &mut [u8], slot: u64) -> u64
    ensures { (result ≡ packed_counted (deleted image.old slot)) × (image.new ≡ image_after_delete image.old slot) }
{
    packing::pack_number(deleting::delete(image, slot))
}

// What C links: each call of galzeranta, exported under its name, with its clauses. (A library that other crates use exports nothing, so this crate does.)
#![tactic(auto)]

ghost use Rattle.std.specs.Prelude.{◌≡◌};
ghost use Rattle.standard.specs.Judgement.{judged};
ghost use Rattle.standard.specs.Finding.{found};
ghost use Rattle.standard.specs.Files.{counted};
ghost use Rattle.standard.specs.Free.{free_count};
ghost use Rattle.standard.specs.Records.{plain, salvage};
ghost use Rattle.standard.specs.Reading.{read_answer, output_after};
ghost use Rattle.standard.specs.Packed.{packed_judged, packed_found, packed_counted, packed_answer, packed_written, packed_created};
ghost use Rattle.standard.specs.Writing.{written, image_after};
ghost use Rattle.standard.specs.Creating.{created, image_after_create, deleted, image_after_delete};
ghost use Rattle.galzeranta.specs.Asked.{place_of};

// The judgement of a volume.
#[unsafe(no_mangle)]
pub extern "C" fn galz_judge(image: &[u8]) -> u64
    ensures { result ≡ packed_judged (judged image.now) }
{
    galzeranta::galz_judge(image)
}

// The file of a name: its slot, and where its label begins in the image.
#[unsafe(no_mangle)]
pub extern "C" fn galz_find(image: &[u8], name: &[u8]) -> u64
    ensures { result ≡ packed_found (found image.now name.now) }
{
    galzeranta::galz_find(image, name)
}

// The number of blocks of the file in a slot.
#[unsafe(no_mangle)]
pub extern "C" fn galz_count(image: &[u8], slot: u64) -> u64
    ensures { result ≡ packed_counted (counted image.now slot) }
{
    galzeranta::galz_count(image, slot)
}

// The free records.
#[unsafe(no_mangle)]
pub extern "C" fn galz_free(image: &[u8]) -> u64
    ensures { result ≡ packed_counted (free_count image.now) }
{
    galzeranta::galz_free(image)
}

// Plain reading of a place of the file in a slot.
#[unsafe(no_mangle)]
pub extern "C" fn galz_read(
    image: &[u8],
    slot: u64,
    block: u64,
    offset: u64,
    mark: u64,
    out: &mut [u8],
) -> u64
    ensures { (result ≡ packed_answer (read_answer plain image.now slot (place_of block offset mark) out.old)) × (out.new ≡ output_after plain image.now slot (place_of block offset mark) out.old) }
{
    galzeranta::galz_read(image, slot, block, offset, mark, out)
}

// Salvage from a place of the file in a slot.
#[unsafe(no_mangle)]
pub extern "C" fn galz_salvage(
    image: &[u8],
    slot: u64,
    block: u64,
    offset: u64,
    mark: u64,
    out: &mut [u8],
) -> u64
    ensures { (result ≡ packed_answer (read_answer salvage image.now slot (place_of block offset mark) out.old)) × (out.new ≡ output_after salvage image.now slot (place_of block offset mark) out.old) }
{
    galzeranta::galz_salvage(image, slot, block, offset, mark, out)
}

// Writing the file in a slot: all record bodies joined, and their lengths.
#[unsafe(no_mangle)]
pub extern "C" fn galz_write(image: &mut [u8], slot: u64, bodies: &[u8], lengths: &[u32]) -> u64
    ensures { (result ≡ packed_written (written image.old slot bodies.now lengths.now)) × (image.new ≡ image_after image.old slot bodies.now lengths.now) }
{
    galzeranta::galz_write(image, slot, bodies, lengths)
}

// Creating a file: the 29 bytes of label fields, and the number of its physical records.
#[unsafe(no_mangle)]
pub extern "C" fn galz_create(image: &mut [u8], fields: &[u8], n: u64) -> u64
    ensures { (result ≡ packed_created (created image.old fields.now n)) × (image.new ≡ image_after_create image.old fields.now n) }
{
    galzeranta::galz_create(image, fields, n)
}

// Deleting the file in a slot.
#[unsafe(no_mangle)]
pub extern "C" fn galz_delete(image: &mut [u8], slot: u64) -> u64
    ensures { (result ≡ packed_counted (deleted image.old slot)) × (image.new ≡ image_after_delete image.old slot) }
{
    galzeranta::galz_delete(image, slot)
}

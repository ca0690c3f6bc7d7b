// What is stored to a slot's sector, in the image itself: "Then U (spaces for 0) and the data end are set", two fields of a label; and (request 2026-01) a mark
// with bytes from the label's first on. Everything here is inner.
#![tactic(auto)]

ghost use Rattle.std.specs.Prelude.{◌≡◌, ◌+◌, ◌<◌, ◌≤◌, length};
ghost use Rattle.standard.specs.Addresses.{five_bytes};
ghost use Rattle.standard.specs.Writing.{splice, unused_field, set_label};
ghost use Rattle.standard.specs.Creating.{store_slot};
ghost use Rattle.layout.specs.Room.{Room};

use layout::{label_offset, slot_mark, slot_offset};
use standard::{Address, Geometry};
use text::Text;

// "U (spaces for 0)", in the five positions of its field
fn put_unused(image: &mut [u8], at: usize, U: u64)
    requires { (at < 4294967296) × (at + 5 ≤ length image.old) }
    ensures { image.new ≡ splice at (unused_field U) image.old }
{
    let mut field = Text::at(image, at);
    if U == 0 {
        return field.bytes(b"     ");
    }
    field.padded(5, U);
}

// "Addresses have five digits"
pub fn put_address(image: &mut [u8], at: usize, a: Address)
    requires { (at < 4294967296) × (at + 5 ≤ length image.old) × (a.cylinder < 3000) × (a.side < 256) × (a.sector < 3000) }
    ensures { image.new ≡ splice at (five_bytes a) image.old }
{
    Text::at(image, at).address(a);
}

// Both: U stands in positions 58-62 of the label, the data end in positions 75-79.
pub fn set_label(g: Geometry, image: &mut [u8], slot: u64, U: u64, end: Address)
    requires { (Room g image.old slot) × (end.cylinder < 3000) × (end.side < 256) × (end.sector < 3000) }
    ensures { image.new ≡ set_label g slot U end image.old }
{
    let at = label_offset(g, slot) as usize;
    put_unused(image, at + 57, U);
    put_address(image, at + 74, end);
}

// Bytes over as many others. (Byte by byte, as `fields::copy_run`.)
fn lay_over(part: &mut [u8], bytes: &[u8])
    requires { length part.old ≡ length bytes.now }
    ensures { part.new ≡ bytes.now }
{
    for i in 0..bytes.len() {
        part[i] = bytes[i];
    }
}

// Bytes over those from an index on: the part that they cover is lent.
pub fn lay_at(image: &mut [u8], at: usize, bytes: &[u8])
    requires { at + length bytes.now ≤ length image.old }
    ensures { image.new ≡ splice at bytes.now image.old }
{
    let end = at + bytes.len();
    lay_over(&mut image[at..end], bytes);
}

// "A slot is a label (valid mark, `HDR1`) or deleted (incorrect mark, first byte `D`)": the slot gets a mark, and bytes over those from its label's first on.
pub fn store_slot(g: Geometry, image: &mut [u8], slot: u64, mark: u8, bytes: &[u8])
    requires { (Room g image.old slot) × (length bytes.now ≤ 128) × (mark < 224) }
    ensures { image.new ≡ store_slot g slot mark bytes.now image.old }
{
    let at = slot_offset(g, slot) as usize;
    let first = label_offset(g, slot) as usize;
    image[at] = slot_mark(g, slot, mark);
    lay_at(image, first, bytes);
}

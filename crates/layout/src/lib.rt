// All access to the image: where a sector, a label or an address lies, and the bytes there. Everything here is inner: the layers above call it, and
// meet what it requires.
#![tactic(auto)]

ghost use Rattle.std.specs.Prelude.{◌≡◌, true, ◌+◌, ◌-◌, ◌*◌, ◌<◌, ◌≤◌, length, get_or, take, drop, eqb};
ghost use Rattle.standard.specs.Layout.{index_sectors, k_at, kind_offset, body_offset, image_length, kind_at, first_byte, incorrect_mark, check_failed, index_kind, index_body, slot_count, slot_ordinal, label_offset, label_at};
ghost use Rattle.standard.specs.Defects.{skip_one, physical};
ghost use Rattle.standard.specs.Addresses.{legal, ordinal, stepped};
ghost use Rattle.standard.specs.Judgement.{refusal6};
ghost use Rattle.layout.specs.Parts.{stands_at};
ghost use Rattle.layout.specs.Room.{Room};
ghost use Rattle.layout.specs.Runs.{kind_of, legal_run, below};

use fields::{minus, times};
use standard::{Address, Geometry, Refusal, byte_at};

// The sectors of the index cylinder; those of the cylinders behind it.
fn index_sectors(g: Geometry) -> u64
    ensures { (result ≡ index_sectors g) × (result < 65536) }
{
    times::<255>(u64::from(g.S), u64::from(g.I))
}

fn later_sectors(g: Geometry) -> u64
    ensures { (result ≡ (g.L + 3) * g.S * g.D) × (result < 33554432) }
{
    times::<255>(
        times::<255>(u64::from(g.L) + 3, u64::from(g.S)),
        u64::from(g.D),
    )
}

// "Length: S·I·129 + (L+3)·S·D·(P+1) bytes"
pub fn image_length(g: Geometry) -> u64
    ensures { (result ≡ image_length g) × (result < 4398046511104) }
{
    index_sectors(g) * 129 + times::<65536>(later_sectors(g), u64::from(g.P) + 1)
}

// "08 to I are label slots 1 to I-7. On two-sided volumes, side 1 sectors 01 to I continue the slots."
pub fn slot_count(g: Geometry) -> u64
    ensures { (result ≡ slot_count g) × (result < 65536) }
{
    let sides = u64::from(g.S);
    let n = u64::from(g.I);
    let first = minus(n, 7);
    if sides == 2 {
        return first + n;
    }
    first
}

// Where the kind of a sector stands, by its ordinal.
fn kind_offset(g: Geometry, n: u64) -> u64
    requires { n < 4294967296 }
    ensures { (result ≡ kind_offset g n) × (result < 562949953421312) }
{
    let first = index_sectors(g);
    if n < first {
        return n * 129;
    }
    first * 129 + times::<65536>(n - first, u64::from(g.P) + 1)
}

// The byte at an offset, and the 128 from one on, in the image itself.
fn byte_of(image: &[u8], at: u64) -> u64
    requires { at < length image.now }
    ensures { (result ≡ get_or image.now at 0) × (result < 256) }
{
    u64::from(image[at as usize])
}

fn body_of(image: &[u8], at: u64) -> &[u8]
    requires { at + 128 ≤ length image.now }
    ensures { (result.now ≡ take 128 (drop at image.now)) × (length result.now ≡ 128) × (result.ref_ptr ≡ stands_at image.entry at) }
{
    let a = at as usize;
    let e = a + 128;
    &image[a..e]
}

// Where the kind of a sector of index side 0 stands.
fn index_offset(sector: u64) -> u64
    requires { (1 ≤ sector) × (sector ≤ 7) }
    ensures { result ≡ (sector - 1) * 129 }
{
    (sector - 1) * 129
}

// ERMAP and VOL1, which are read before the volume's numbers are known: the kind and the body of a sector of index side 0.
pub fn index_kind(image: &[u8], sector: u64) -> u64
    requires { (903 ≤ length image.now) × (1 ≤ sector) × (sector ≤ 7) }
    ensures { (result ≡ index_kind image.now sector) × (result < 256) }
{
    byte_of(image, index_offset(sector))
}

pub fn index_body(image: &[u8], sector: u64) -> &[u8]
    requires { (903 ≤ length image.now) × (1 ≤ sector) × (sector ≤ 7) }
    ensures { (result.now ≡ index_body image.now sector) × (length result.now ≡ 128) }
{
    body_of(image, index_offset(sector) + 1)
}

// A slot's sector, which is in the index cylinder: where its kind stands and where its label begins, the label itself, and the byte of kind and the first byte.
pub fn slot_offset(g: Geometry, slot: u64) -> u64
    requires { (slot < 65536) × (slot + 6 < index_sectors g) }
    ensures { (result ≡ kind_offset g (slot_ordinal slot)) × (result ≡ (slot + 6) * 129) }
{
    (slot + 6) * 129
}

pub fn label_offset(g: Geometry, slot: u64) -> u64
    requires { (slot < 65536) × (slot + 6 < index_sectors g) }
    ensures { (result ≡ label_offset g slot) × (result ≡ (slot + 6) * 129 + 1) }
{
    (slot + 6) * 129 + 1
}

pub fn label_at(g: Geometry, image: &[u8], slot: u64) -> &[u8]
    requires { Room g image.now slot }
    ensures { (result.now ≡ label_at g image.now slot) × (length result.now ≡ 128) × (result.ref_ptr ≡ stands_at image.entry (label_offset g slot)) }
{
    body_of(image, label_offset(g, slot))
}

pub fn slot_kind(g: Geometry, image: &[u8], slot: u64) -> u64
    requires { Room g image.now slot }
    ensures { (result ≡ kind_at g image.now (slot_ordinal slot)) × (result < 256) }
{
    byte_of(image, slot_offset(g, slot))
}

// "Cylinder 0 uses k = 0": the kind that a mark is there, 0 for the valid one and 16 for the incorrect one.
pub fn slot_mark(g: Geometry, slot: u64, mark: u8) -> u8
    requires { (slot + 6 < index_sectors g) × (mark < 224) }
    ensures { result ≡ mark + k_at g (slot_ordinal slot) }
{
    mark
}

pub fn slot_first(g: Geometry, image: &[u8], slot: u64) -> u64
    requires { Room g image.now slot }
    ensures { (result ≡ first_byte g image.now (slot_ordinal slot)) × (result < 256) }
{
    byte_of(image, label_offset(g, slot))
}

// One comparison, of a defective cylinder d, 0 where it is absent, with a number n: n, "or [n]+1 if [d] is present and [d] ≤ [n]".
fn skip_one(d: u64, n: u64) -> u64
    requires { n < 65536 }
    ensures { (result ≡ skip_one d n) × (n ≤ result) × (result ≤ n + 1) }
{
    let present = 0 < d;
    if present & (d <= n) {
        return n + 1;
    }
    n
}

// "For data cylinder c from 1 to L:"
fn physical_of(g: Geometry, c: u64) -> u64
    requires { c < 3000 }
    ensures { (result ≡ physical g c) × (c ≤ result) × (result ≤ c + 2) }
{
    // "q is c, or c+1 if d1 is present and d1 ≤ c;"
    let q = skip_one(u64::from(g.d1), c);
    // "the physical cylinder is q, or q+1 if d2 is present and d2 ≤ q."
    skip_one(u64::from(g.d2), q)
}

// The ordinal of the sector that has a data address.
pub fn ordinal_of(g: Geometry, a: Address) -> u64
    requires { (1 ≤ a.cylinder) × (a.cylinder < 3000) × (a.side < 256) × (1 ≤ a.sector) × (a.sector < 3000) }
    ensures { (result ≡ ordinal g a) × (result < 4294967296) }
{
    let c = a.cylinder;
    let s = a.side;
    let n = a.sector;
    let q = physical_of(g, c);
    let track = times::<255>(q - 1, u64::from(g.S)) + s;
    index_sectors(g) + times::<255>(track, u64::from(g.D)) + (n - 1)
}

// Where the kind of the record that has a data address stands.
pub fn kind_of(g: Geometry, a: Address) -> u64
    requires { legal g a ≡ true }
    ensures { (result ≡ kind_offset g (ordinal g a)) × (result < 4398046511104) }
{
    kind_offset(g, ordinal_of(g, a))
}

// Whether a record's kind, which stands at `at`, is a mark with the k of VOL1.
fn has_mark(g: Geometry, image: &[u8], at: u64, mark: u64) -> bool
    requires { mark < 256 }
    ensures { result ≡ eqb (get_or image.now at 0) (mark + g.k) }
{
    let k = mark + u64::from(g.k);
    byte_at(image, at as usize) == k
}

// A record whose kind is known to stand at `at`, for walks that come from one to the next: its mark, and its first byte. (`a` says which record it is.)
// "Kind k: valid data mark. Kind 16+k: incorrect-data mark. Kind 32+k: check failed, body not trusted."
pub fn incorrect_mark(g: Geometry, image: &[u8], a: Address, at: u64) -> bool
    requires { (legal g a ≡ true) × (at ≡ kind_offset g (ordinal g a)) }
    ensures { result ≡ incorrect_mark g image.now (ordinal g a) }
{
    has_mark(g, image, at, 16)
}

pub fn check_failed(g: Geometry, image: &[u8], a: Address, at: u64) -> bool
    requires { (legal g a ≡ true) × (at ≡ kind_offset g (ordinal g a)) }
    ensures { result ≡ check_failed g image.now (ordinal g a) }
{
    has_mark(g, image, at, 32)
}

pub fn first_byte(g: Geometry, image: &[u8], a: Address, at: u64) -> u64
    requires { (legal g a ≡ true) × (at ≡ kind_offset g (ordinal g a)) }
    ensures { (result ≡ first_byte g image.now (ordinal g a)) × (result < 256) }
{
    byte_at(image, (at + 1) as usize)
}

// Where the kind of the record behind one stands: behind its body, which ends at `end`, if the track goes on; else its ordinal tells it.
pub fn kind_behind(g: Geometry, a: Address, next: Address, end: u64) -> u64
    requires { (legal g a ≡ true) × (next ≡ stepped g a) × (end ≡ body_offset g (ordinal g a) + g.P) }
    ensures { result ≡ kind_offset g (ordinal g next) }
{
    let n = a.sector;
    if n < u64::from(g.D) {
        return end;
    }
    kind_offset(g, ordinal_of(g, next))
}

// The same from where this one's kind stands.
pub fn kind_after(g: Geometry, a: Address, next: Address, at: u64) -> u64
    requires { (legal g a ≡ true) × (next ≡ stepped g a) × (at ≡ kind_offset g (ordinal g a)) }
    ensures { result ≡ kind_offset g (ordinal g next) }
{
    kind_behind(g, a, next, at + 1 + u64::from(g.P))
}

// Refusal 6. Most sectors have the valid mark, so that is asked first.
fn is_kind(k: u64, c: u64) -> bool
    requires { k < 256 }
    ensures { result ≡ kind_of k c }
{
    c == k || c == 16 + k || c == 32 + k
}

// The first of n sectors of one size whose kind is none of the three. The first of all stands at `first`.
fn first_illegal(image: &[u8], first: usize, size: usize, k: u64, n: u64) -> Option<u64>
    requires { (1 ≤ size) × (k < 256) × (first + n * size ≤ length image.now) }
    ensures { result ≡ below n (legal_run image.now size k n first) }
{
    for i in 0..n {
        if !is_kind(k, u64::from(image[first + i as usize * size])) {
            return Some(i);
        }
    }
    None
}

// "a sector's kind not one of its three", "ordinal from 0": the index cylinder with k = 0, then all others with the k of VOL1.
pub fn kinds(g: Geometry, image: &[u8]) -> Result<(), Refusal>
    requires { length image.now ≡ image_length g }
    ensures { result ≡ refusal6 g image.now }
{
    let n = index_sectors(g);
    if let Some(i) = first_illegal(image, 0, 129, 0, n) {
        return Err(Refusal::at(6, i));
    }
    let start = (n * 129) as usize;
    let size = usize::from(g.P) + 1;
    if let Some(i) = first_illegal(image, start, size, u64::from(g.k), later_sectors(g)) {
        return Err(Refusal::at(6, n + i));
    }
    Ok(())
}

// The bytes of a file's good records in turn, read where they stand in the image. A spot is a cursor and a byte of the record under it; what stands from there
// on is a list of bytes, and the functions here read it, pass over it, copy it, and ask whether it is fill. Everything here is inner: the layers above call it on
// extents of an accepted volume.
#![tactic(auto)]

ghost use Rattle.std.specs.Prelude.{◌≡◌, true, ◌+◌, ◌<◌, ◌≤◌, length, get_or, take, drop};
ghost use Rattle.std.proofs.Math.Seq.{paste};
ghost use Rattle.standard.specs.Layout.{body_offset};
ghost use Rattle.standard.specs.Addresses.{ordinal};
ghost use Rattle.standard.specs.Packing.{role_byte};
ghost use Rattle.standard.specs.Pieces.{is_fill, role_of};
ghost use Rattle.standard.specs.Files.{any_failed};
ghost use Rattle.extents.specs.Cursors.{legal_at, good_from, standing, Walks};
ghost use Rattle.layout.specs.Room.{Sized};
ghost use Rattle.blocks.specs.Streams.{stream, five_of};
ghost use Rattle.blocks.specs.Roles.{role_for, perhaps_role, begins_by, completes_by};

use extents::{Cursor, Walk, is_defective, next_good, skip_good};
use fields::copy_run;
use layout::{check_failed, kind_of};
use standard::{Geometry, byte_at};

// What a segment is to its record: `0` the whole, `1` the first part, `2` one between, `3` the last. A record of F or V is a whole.
#[derive(Clone, Copy, PartialEq, Eq)]
pub enum Role {
    Whole,
    First,
    Middle,
    Last,
}

impl Role {
    // "`0`-`3`"
    #[tactic(auto, unfolding(standard::specs::Pieces::role_of))]
    pub fn read(c: u8) -> Option<Role>
        ensures { result ≡ perhaps_role (role_of c) }
    {
        match c {
            b'0' => Some(Role::Whole),
            b'1' => Some(Role::First),
            b'2' => Some(Role::Middle),
            b'3' => Some(Role::Last),
            _ => None,
        }
    }

    // The same as a number, 0 to 3.
    pub fn digit(self) -> u64
        ensures { (48 + result ≡ role_byte (role_for self)) × (result < 4) }
    {
        match self {
            Role::Whole => 0,
            Role::First => 1,
            Role::Middle => 2,
            Role::Last => 3,
        }
    }

    // Whether a record begins with it: "0 or 1".
    pub fn begins(self) -> bool
        ensures { result ≡ begins_by self }
    {
        match self {
            Role::Whole | Role::First => true,
            Role::Middle | Role::Last => false,
        }
    }

    // Whether it is the last of its record: "After 1 or 2" the record goes on in the next block.
    pub fn completes(self) -> bool
        ensures { result ≡ completes_by self }
    {
        match self {
            Role::Whole | Role::Last => true,
            Role::First | Role::Middle => false,
        }
    }
}

// A cursor in an extent, and a byte of the record under it.
#[derive(Clone, Copy)]
pub struct Spot {
    pub c: Cursor,
    pub i: u64,
}

// Where byte i of the record under a cursor is in the image. "Each is one byte of kind, then a body."
fn byte_offset(g: Geometry, c: Cursor, i: u64) -> u64
    requires { (legal_at g c ≡ true) × (1 ≤ c.left) × (i < 65536) }
    ensures { (result ≡ body_offset g (ordinal g c.at) + i) × (result < 1125899906842624) }
{
    kind_of(g, c.at) + 1 + i
}

// The byte at a spot, 00 behind the last record.
fn here(g: Geometry, image: &[u8], c: Cursor, i: u64) -> u64
    requires { (Sized g image.now) × (legal_at g c ≡ true) × (i < g.P) }
    ensures { (result ≡ get_or (stream g image.now c i) 0 0) × (result < 256) }
{
    if c.left == 0 {
        return 0;
    }
    byte_at(image, byte_offset(g, c, i) as usize)
}

// Onward k bytes: most often inside the record, where nothing is walked or divided.
pub fn onward(g: Geometry, image: &[u8], c: Cursor, i: u64, k: u64) -> Spot
    requires { (Sized g image.now) × (legal_at g c ≡ true) × (i < 4294967296) × (k < 4294967296) }
    ensures { (stream g image.now result.c result.i ≡ drop k (stream g image.now c i)) × (legal_at g result.c ≡ true) × (result.i < g.P) × (result.c.left ≤ c.left) }
{
    let p = u64::from(g.P);
    let to = i + k;
    if to < p {
        return Spot { c, i: to };
    }
    let n = to / p;
    let d = skip_good(g, image, c, n);
    Spot { c: d, i: to % p }
}

// The byte k bytes on from a spot.
fn peek(g: Geometry, image: &[u8], c: Cursor, i: u64, k: u64) -> u64
    requires { (Sized g image.now) × (legal_at g c ≡ true) × (i < 4294967296) × (k < 4294967296) }
    ensures { (result ≡ get_or (stream g image.now c i) k 0) × (result < 256) }
{
    let s = onward(g, image, c, i, k);
    here(g, image, s.c, s.i)
}

// Five bytes of the image: as many as a control word has at most.
fn five_at(image: &[u8], o: usize) -> [u8; 5]
    requires { o + 5 ≤ length image.now }
    ensures { result ≡ five_of (drop o image.now) }
{
    [
        image[o],
        image[o + 1],
        image[o + 2],
        image[o + 3],
        image[o + 4],
    ]
}

// The first five bytes from a spot on: in one run where they stand in one record, else byte by byte.
pub fn first_five(g: Geometry, image: &[u8], c: Cursor, i: u64) -> [u8; 5]
    requires { (Sized g image.now) × (legal_at g c ≡ true) × (i < g.P) }
    ensures { result ≡ five_of (stream g image.now c i) }
{
    let p = u64::from(g.P);
    if 0 < c.left {
        if i + 5 <= p {
            return five_at(image, byte_offset(g, c, i) as usize);
        }
    }
    [
        peek(g, image, c, i, 0) as u8,
        peek(g, image, c, i, 1) as u8,
        peek(g, image, c, i, 2) as u8,
        peek(g, image, c, i, 3) as u8,
        peek(g, image, c, i, 4) as u8,
    ]
}

// Whether n bytes of the image are fill.
fn fill_run(image: &[u8], from: u64, n: u64) -> bool
    requires { from + n ≤ length image.now }
    ensures { result ≡ is_fill (take n (drop from image.now)) }
{
    let to = (from + n) as usize;
    image[from as usize..to].iter().all(|&b| b == 0)
}

// "Fill is byte 00." Whether the bytes from a spot on are fill, so many as are asked or as there are: record by record, and none is walked to behind the last
// one that is asked.
pub fn all_fill(g: Geometry, image: &[u8], from: Cursor, first: u64, count: u64) -> bool
    requires { (Sized g image.now) × (legal_at g from ≡ true) × (first < g.P) × (count < 65536) }
    ensures { result ≡ is_fill (take count (stream g image.now from first)) }
{
    let p = u64::from(g.P);
    let mut c = from;
    let mut i = first;
    let mut n = count;
    while p - i < n {
        if c.left == 0 {
            return true;
        }
        let k = p - i;
        if !fill_run(image, byte_offset(g, c, i), k) {
            return false;
        }
        c = next_good(g, image, c);
        i = 0;
        n -= k;
    }
    if c.left == 0 {
        return true;
    }
    fill_run(image, byte_offset(g, c, i), n)
}

// The bytes from a spot on, laid into the output: record by record, as in `all_fill`.
pub fn copy(
    g: Geometry,
    image: &[u8],
    from: Cursor,
    first: u64,
    out: &mut [u8],
    to: u64,
    count: u64,
)
    requires { (Sized g image.now) × (legal_at g from ≡ true) × (first < g.P) × (count < 65536) × (count ≤ length (stream g image.now from first)) × (to + count ≤ length out.old) × (to < 4294967296) }
    ensures { out.new ≡ paste out.old to (stream g image.now from first) count }
{
    if count == 0 {
        return;
    }
    let p = u64::from(g.P);
    let mut c = from;
    let mut i = first;
    let mut at = to;
    let mut n = count;
    while p - i < n {
        let k = p - i;
        copy_run(image, byte_offset(g, c, i), out, at, k);
        c = next_good(g, image, c);
        i = 0;
        at += k;
        n -= k;
    }
    copy_run(image, byte_offset(g, c, i), out, at, n);
}

// Whether one of the next m good records is check-failed, from where a walk stands. One look at each record, and none behind the m-th.
fn failed_among(g: Geometry, image: &[u8], from: Walk, m: u64) -> bool
    requires { Walks g from }
    ensures { result ≡ any_failed g image.now (take m (good_from g image.now from.left from.at)) }
{
    let mut w = from;
    let mut n = m;
    while (0 < n) & (0 < w.left) {
        if check_failed(g, image, w.at, w.kind) {
            return true;
        }
        n -= u64::from(!is_defective(g, image, w.at, w.kind));
        w = w.step(g);
    }
    false
}

// "A lost block contains a check-failed record." The record under a cursor, which is good, and the m - 1 good ones behind it.
pub fn any_failed(g: Geometry, image: &[u8], from: Cursor, m: u64) -> bool
    requires { legal_at g from ≡ true }
    ensures { result ≡ any_failed g image.now (take m (standing g image.now from)) }
{
    if (m == 0) | (from.left == 0) {
        return false;
    }
    let w = Walk::begin(g, from);
    if check_failed(g, image, w.at, w.kind) {
        return true;
    }
    failed_among(g, image, w.step(g), m - 1)
}

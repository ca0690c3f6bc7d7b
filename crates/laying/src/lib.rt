// The records of a list laid into blocks: "F: B/R to a block. V unblocked: one to a block; blocked: into the current block if it fits, else the next. S: a segment
// starts where 6 bytes are left (5 for an empty record), takes what fits, and goes on in the next block. Content left, and physical records' ends, are filled with
// 00." Everything here is inner: the writer calls it when nothing can be refused any more.
#![tactic(auto)]

ghost use Rattle.std.specs.Prelude.{◌≡◌, true, false, cond, ◌++◌, ℕ, suc, ◌+◌, ◌*◌, ◌<◌, ◌≤◌, length, take, drop};
ghost use Rattle.standard.specs.Packing.{fill, segment, segment_role, spread, pack_in};
ghost use Rattle.standard.specs.Writing.{total, parted};
ghost use Rattle.promises.specs.Ground.Lists.{Every};
ghost use Rattle.promises.specs.Writing.NeededLaws.{least_for, EachFits, Tiled};
ghost use Rattle.labels.specs.Forms.{format_for};
ghost use Rattle.extents.specs.Cursors.{legal_at, standing};
ghost use Rattle.layout.specs.Room.{Sized};
ghost use Rattle.blocks.specs.Roles.{role_for};
ghost use Rattle.filling.specs.Poured.{poured, flat, Placed, Lays};
ghost use Rattle.laying.specs.Ahead.{lay_from, lay_record, fits_as, chunks, flat_laid, Shaped, Ready, HasRoom, Steps};

use blocks::Role;
use extents::Cursor;
use filling::{Pen, begin, put, put_length, put_segment};
use labels::Form;
use sizing::least_for;
use standard::Geometry;

// How records are laid one by one: as V, or as S; whether one may stand behind another in its block; B, and the bytes of a block's m physical records.
#[derive(Clone, Copy)]
pub struct Shape {
    pub spanned: bool,
    pub joined: bool,
    pub B: u64,
    pub size: u64,
}

// Where the writer stands: its pen, the room left in the current block, and the bytes that are left of its physical records.
#[derive(Clone, Copy)]
pub struct Desk {
    pub p: Pen,
    pub room: u64,
    pub rest: u64,
}

// The current block if it has so much room; else it is filled up, and the next one begins.
fn room_for(g: Geometry, image: &mut [u8], s: Shape, d: Desk, need: u64) -> Desk
    requires { (Shaped s) × (Ready g image.old s d) }
    ensures { HasRoom g s image.old d need image.new result }
{
    if need <= d.room {
        return d;
    }
    let p = d.p;
    let q = put(g, image, p, b"", 0, 0, d.rest);
    Desk {
        p: q,
        room: s.B,
        rest: s.size,
    }
}

// What is left of the room for the next record.
fn kept(joined: bool, room: u64) -> u64
    ensures { result ≡ cond joined room 0 }
{
    if joined {
        return room;
    }
    0
}

// A record of V, with its control word.
fn lay_variable(
    g: Geometry,
    image: &mut [u8],
    s: Shape,
    d: Desk,
    bodies: &[u8],
    from: u64,
    n: u64,
) -> Desk
    requires { (Shaped s) × (Ready g image.old s d) × (4 + n ≤ s.B) × (from + n ≤ length bodies.now) }
    ensures { Steps g s image.old d (λ more. lay_record false s.joined s.B d.room (take n (drop from bodies.now)) more) image.new result }
{
    let joined = s.joined;
    let size = 4 + n;
    let b = room_for(g, image, s, d, size);
    let p = b.p;
    let room = b.room;
    let rest = b.rest;
    let q = put_length(g, image, p, size);
    let t = put(g, image, q, bodies, from, n, 0);
    Desk {
        p: t,
        room: kept(joined, room - size),
        rest: rest - size,
    }
}

// What a segment is to its record: `0` alone, `1` the first, `2` between, `3` the last.
fn role_of(begun: bool, ends: bool) -> Role
    ensures { role_for result ≡ segment_role begun ends }
{
    match (begun, ends) {
        (false, true) => Role::Whole,
        (false, false) => Role::First,
        (true, false) => Role::Middle,
        (true, true) => Role::Last,
    }
}

// A segment with n bytes of a body, and fill behind it.
fn lay_segment(
    g: Geometry,
    image: &mut [u8],
    p: Pen,
    begun: bool,
    ends: bool,
    bodies: &[u8],
    from: u64,
    n: u64,
    zeros: u64,
) -> Pen
    requires { (Placed g image.old p) × (from + n ≤ length bodies.now) × (n < 4294967296) × (zeros < 4294967296) }
    ensures { Lays g image.old p (segment (segment_role begun ends) (take n (drop from bodies.now)) ++ fill zeros) image.new result }
{
    let role = role_of(begun, ends);
    let q = put_segment(g, image, p, role.digit(), 5 + n);
    put(g, image, q, bodies, from, n, zeros)
}

// The segments of a record of S, from a desk with room for the first: each "takes what fits, and goes on in the next block".
fn spread(
    g: Geometry,
    image: &mut [u8],
    s: Shape,
    start: Desk,
    bodies: &[u8],
    first: u64,
    body: u64,
) -> Desk
    requires { (Shaped s) × (Ready g image.old s start) × (least_for body ≤ start.room) × (least_for body ≤ s.B) × (first + body ≤ length bodies.now) × (body < 4294967296) }
    ensures { Steps g s image.old start (λ more. spread (suc body) s.B false start.room (take body (drop first bodies.now)) more) image.new result }
{
    let B = s.B;
    let size = s.size;
    let mut p = start.p;
    let mut room = start.room;
    let mut rest = start.rest;
    let mut from = first;
    let mut n = body;
    let mut begun = false;
    while room < 5 + n {
        let k = room - 5;
        p = lay_segment(g, image, p, begun, false, bodies, from, k, rest - room);
        room = B;
        rest = size;
        from += k;
        n -= k;
        begun = true;
    }
    let q = lay_segment(g, image, p, begun, true, bodies, from, n, 0);
    Desk {
        p: q,
        room: room - (5 + n),
        rest: rest - (5 + n),
    }
}

// A record of S.
fn lay_spanned(
    g: Geometry,
    image: &mut [u8],
    s: Shape,
    d: Desk,
    bodies: &[u8],
    from: u64,
    n: u64,
) -> Desk
    requires { (Shaped s) × (Ready g image.old s d) × (least_for n ≤ s.B) × (from + n ≤ length bodies.now) × (n < 4294967296) }
    ensures { Steps g s image.old d (λ more. lay_record true s.joined s.B d.room (take n (drop from bodies.now)) more) image.new result }
{
    let b = room_for(g, image, s, d, least_for(n));
    spread(g, image, s, b, bodies, from, n)
}

// A record of V or of S.
fn lay_record(
    g: Geometry,
    image: &mut [u8],
    s: Shape,
    d: Desk,
    bodies: &[u8],
    from: u64,
    n: u64,
) -> Desk
    requires { (Shaped s) × (Ready g image.old s d) × (fits_as s.spanned s.B n) × (from + n ≤ length bodies.now) × (n < 4294967296) }
    ensures { Steps g s image.old d (λ more. lay_record s.spanned s.joined s.B d.room (take n (drop from bodies.now)) more) image.new result }
{
    if s.spanned {
        return lay_spanned(g, image, s, d, bodies, from, n);
    }
    lay_variable(g, image, s, d, bodies, from, n)
}

// All records of a list, from no block and no room on, and the fill behind the last.
fn lay_records(
    g: Geometry,
    image: &mut [u8],
    s: Shape,
    start: Pen,
    bodies: &[u8],
    lengths: &[u32],
) -> Pen
    requires { (Shaped s) × (Placed g image.old start) × (Every (fits_as s.spanned s.B) lengths.now) × (total lengths.now ≡ length bodies.now) }
    ensures { Lays g image.old start (flat_laid s.size 0 (lay_from s.spanned s.joined s.B 0 (parted bodies.now lengths.now))) image.new result }
{
    let mut d = Desk {
        p: start,
        room: 0,
        rest: 0,
    };
    let mut from = 0;
    for &length in lengths {
        let n = u64::from(length);
        d = lay_record(g, image, s, d, bodies, from, n);
        from += n;
    }
    let p = d.p;
    put(g, image, p, b"", 0, 0, d.rest)
}

// F: "B/R to a block", so a block is B bytes of the bodies joined, and its fill.
fn lay_blocks(g: Geometry, image: &mut [u8], start: Pen, B: u64, size: u64, bodies: &[u8]) -> Pen
    requires { (Placed g image.old start) × (1 ≤ B) × (B ≤ size) × (size < 4294967296) }
    ensures { Lays g image.old start (flat size (chunks B bodies.now)) image.new result }
{
    let mut p = start;
    for block in bodies.chunks(B as usize) {
        let n = block.len() as u64;
        p = put(g, image, p, block, 0, n, size - n);
    }
    p
}

// The list as it is packed into blocks, by its format. (R is asked in F only, and there it is the length of every record.)
fn lay_list(
    g: Geometry,
    image: &mut [u8],
    p: Pen,
    form: Form,
    blocked: bool,
    B: u64,
    size: u64,
    bodies: &[u8],
    lengths: &[u32],
) -> Pen
    requires { (Placed g image.old p) × (B ≤ size) × (size < 4294967296) × (EachFits (format_for form) B lengths.now) × (form ≡ Form.Fixed → (R : ℕ) × Tiled R B lengths.now) × (total lengths.now ≡ length bodies.now) }
    ensures { (R : ℕ) → (form ≡ Form.Fixed → Tiled R B lengths.now) → Lays g image.old p (flat size (pack_in (format_for form) R blocked B (parted bodies.now lengths.now)).contents) image.new result }
{
    match form {
        Form::Fixed => lay_blocks(g, image, p, B, size, bodies),
        Form::Variable => lay_records(
            g,
            image,
            Shape {
                spanned: false,
                joined: blocked,
                B,
                size,
            },
            p,
            bodies,
            lengths,
        ),
        Form::Spanned => lay_records(
            g,
            image,
            Shape {
                spanned: true,
                joined: true,
                B,
                size,
            },
            p,
            bodies,
            lengths,
        ),
    }
}

// The list, as it is packed into blocks, over the good records from a cursor on: "blocks take m good records in turn".
pub fn store(
    g: Geometry,
    image: &mut [u8],
    c: Cursor,
    form: Form,
    blocked: bool,
    B: u64,
    m: u64,
    bodies: &[u8],
    lengths: &[u32],
)
    requires { (Sized g image.old) × (legal_at g c ≡ true) × (1 ≤ m) × (B ≤ m * g.P) × (m * g.P < 4294967296) × (EachFits (format_for form) B lengths.now) × (form ≡ Form.Fixed → (R : ℕ) × Tiled R B lengths.now) × (total lengths.now ≡ length bodies.now) }
    ensures { (R : ℕ) → (form ≡ Form.Fixed → Tiled R B lengths.now) → image.new ≡ poured g (standing g image.old c) (flat (m * g.P) (pack_in (format_for form) R blocked B (parted bodies.now lengths.now)).contents) image.old }
{
    if lengths.len() == 0 {
        return;
    }
    if c.left == 0 {
        return;
    }
    let size = m * u64::from(g.P);
    let p = begin(g, image, c);
    lay_list(g, image, p, form, blocked, B, size, bodies, lengths);
}

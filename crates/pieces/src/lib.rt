// What stands at an offset of a block: fill alone, a record or segment, or a rule is broken. The bytes are read where they stand in the image. Everything here is
// inner: the layers above call it on files of an accepted volume.
#![tactic(auto)]

ghost use Rattle.std.specs.Prelude.{◌≡◌, true, ◌<◌, ◌≤◌, length, take};
ghost use Rattle.standard.specs.Pieces.{must_fill, look_v, look_s, look_in};
ghost use Rattle.labels.specs.Forms.{format_for};
ghost use Rattle.extents.specs.Cursors.{legal_at};
ghost use Rattle.layout.specs.Room.{Sized};
ghost use Rattle.blocks.specs.Streams.{stream};
ghost use Rattle.pieces.specs.Looks.{head_of, seen_of, four_read, part_f, part_of};

use blocks::{Role, all_fill, first_five};
use extents::Cursor;
use labels::Form;
use standard::{Geometry, digit, is_digit};

// What stands there: fill alone, or nothing; a rule is broken; a record or segment, by what it is to its record (a record of F or V is a whole) and its size,
// control word counted.
#[derive(Clone, Copy)]
pub enum Seen {
    Blank,
    Broken,
    Part(Role, u64),
}

// The bytes of a control word: "V: four digits", "S: `0`-`3`, four digits".
pub fn head(form: Form) -> u64
    ensures { result ≡ head_of form }
{
    match form {
        Form::Fixed => 0,
        Form::Variable => 4,
        Form::Spanned => 5,
    }
}

// "four digits", and their number
fn four_digits(a: u64, b: u64, c: u64, d: u64) -> Option<u64>
    requires { (a < 256) × (b < 256) × (c < 256) × (d < 256) }
    ensures { result ≡ four_read a b c d }
{
    let ok = is_digit(a) & is_digit(b) & is_digit(c) & is_digit(d);
    if !ok {
        return None;
    }
    Some(digit(a) * 1000 + digit(b) * 100 + digit(c) * 10 + digit(d))
}

// "the rest must be fill"
fn fill_only(g: Geometry, image: &[u8], c: Cursor, i: u64, n: u64) -> Seen
    requires { (Sized g image.now) × (legal_at g c ≡ true) × (i < g.P) × (n < 65536) }
    ensures { result ≡ seen_of (must_fill (take n (stream g image.now c i))) }
{
    if all_fill(g, image, c, i, n) {
        return Seen::Blank;
    }
    Seen::Broken
}

// F: one record of R bytes after the other.
fn look_f(n: u64, r: u64) -> Seen
    ensures { result ≡ part_f r n }
{
    if n == 0 {
        return Seen::Blank;
    }
    if r < 1 {
        return Seen::Broken;
    }
    if n < r {
        return Seen::Broken;
    }
    Seen::Part(Role::Whole, r)
}

// A record or segment by its role and the number of its control word: "from" a least "to" a most, "inside the content" of n bytes.
fn sized(low: u64, high: u64, n: u64, role: Role, size: Option<u64>) -> Seen
    ensures { result ≡ part_of low high n role size }
{
    let Some(z) = size else {
        return Seen::Broken;
    };
    if z < low {
        return Seen::Broken;
    }
    if high < z {
        return Seen::Broken;
    }
    if n < z {
        return Seen::Broken;
    }
    Seen::Part(role, z)
}

// "V: four digits, from 4 to R, then the body, inside the content". "In V, with fewer than 4 bytes left (S: 5), or at a byte 00, the rest must be fill."
// "if unblocked, at offsets above 0 only fill"
fn look_v(
    g: Geometry,
    image: &[u8],
    c: Cursor,
    i: u64,
    n: u64,
    o: u64,
    r: u64,
    blocked: bool,
) -> Seen
    requires { (Sized g image.now) × (legal_at g c ≡ true) × (i < g.P) × (n < 65536) × (n ≤ length (stream g image.now c i)) }
    ensures { result ≡ seen_of (look_v r blocked o (take n (stream g image.now c i))) }
{
    if n < 4 {
        return fill_only(g, image, c, i, n);
    }
    let behind = !blocked & (0 < o);
    if behind {
        return fill_only(g, image, c, i, n);
    }
    let w = first_five(g, image, c, i);
    if w[0] == 0 {
        return fill_only(g, image, c, i, n);
    }
    sized(
        4,
        r,
        n,
        Role::Whole,
        four_digits(
            u64::from(w[0]),
            u64::from(w[1]),
            u64::from(w[2]),
            u64::from(w[3]),
        ),
    )
}

// "S: `0`-`3`, four digits from 5, inside the content". Fill is as in V, with 5.
fn look_s(g: Geometry, image: &[u8], c: Cursor, i: u64, n: u64) -> Seen
    requires { (Sized g image.now) × (legal_at g c ≡ true) × (i < g.P) × (n < 65536) × (n ≤ length (stream g image.now c i)) }
    ensures { result ≡ seen_of (look_s (take n (stream g image.now c i))) }
{
    if n < 5 {
        return fill_only(g, image, c, i, n);
    }
    let w = first_five(g, image, c, i);
    if w[0] == 0 {
        return fill_only(g, image, c, i, n);
    }
    let Some(role) = Role::read(w[0]) else {
        return Seen::Broken;
    };
    sized(
        5,
        n,
        n,
        role,
        four_digits(
            u64::from(w[1]),
            u64::from(w[2]),
            u64::from(w[3]),
            u64::from(w[4]),
        ),
    )
}

// What stands at offset o of a block: at byte i of the record under the cursor, from which its content goes on for n bytes.
pub fn look(
    g: Geometry,
    image: &[u8],
    c: Cursor,
    i: u64,
    n: u64,
    o: u64,
    form: Form,
    r: u64,
    blocked: bool,
) -> Seen
    requires { (Sized g image.now) × (legal_at g c ≡ true) × (i < g.P) × (n < 65536) × (n ≤ length (stream g image.now c i)) }
    ensures { result ≡ seen_of (look_in (format_for form) r blocked o (take n (stream g image.now c i))) }
{
    match form {
        Form::Fixed => look_f(n, r),
        Form::Variable => look_v(g, image, c, i, n, o, r, blocked),
        Form::Spanned => look_s(g, image, c, i, n),
    }
}

// The lines of the listing, put one after another into a lent buffer.
#![tactic(auto)]

ghost use Rattle.std.specs.Prelude.{◌≡◌, true, [], ◌∷◌, ◌++◌, ◌+◌, ◌<◌, ◌≤◌, length};
ghost use Rattle.standard.specs.Characters.{shown};
ghost use Rattle.standard.specs.Labels.{level, format_of};
ghost use Rattle.standard.specs.Layout.{slot_count, label_at};
ghost use Rattle.standard.specs.Slots.{has_label};
ghost use Rattle.standard.specs.Judgement.{judged};
ghost use Rattle.standard.specs.Free.{free_records};
ghost use Rattle.standard.specs.Listing.{volume_line, level_shown, format_shown, blocked_shown, count_shown, refused_line, other_line, label_line, lines_from, listing};
ghost use Rattle.text.specs.Laid.{Puts, Writes};
ghost use Rattle.lines.specs.Parts.{bar, numbers_shown, first_fields, extent_fields, last_fields, fields_in_a_row, line_in};

use files::count_in;
use index::is_label;
use labels::{
    block_length, end_of, is_blocked, known_level, level_of, record_length, start_of, unused_count,
};
use layout::{index_body, label_at, slot_count};
use standard::{Geometry, Refusal};
use text::Text;
use vacancy::free_in;
use volume::{judge, refusal_of};

// The numbers of the volume line.
fn put_numbers(text: &mut Text, g: Geometry)
    requires { text.old.at < 8388608 }
    ensures { Writes text.old text.new 140 (numbers_shown g) }
{
    text.named(b" L=", u64::from(g.L));
    text.named(b" I=", u64::from(g.I));
    text.named(b" D=", u64::from(g.D));
    text.named(b" P=", u64::from(g.P));
    text.named(b" S=", u64::from(g.S));
}

// "level (`.` for space), format (`F` for space), `B` or `-`"
fn level_shown(h: &[u8]) -> u8
    requires { length h.now ≡ 128 }
    ensures { result ≡ level_shown h.now }
{
    let c = h[43];
    if c == 32 {
        return 46;
    }
    c
}

fn format_shown(h: &[u8]) -> u8
    requires { length h.now ≡ 128 }
    ensures { result ≡ format_shown (format_of h.now) }
{
    let c = h[39];
    if c == 86 {
        return 86;
    }
    if c == 83 {
        return 83;
    }
    70
}

fn blocked_shown(h: &[u8]) -> u8
    requires { length h.now ≡ 128 }
    ensures { result ≡ blocked_shown h.now }
{
    if is_blocked(h) {
        return 66;
    }
    45
}

// "Refused counts print `!17` or `!18` in place of blocks."
fn put_count(text: &mut Text, count: Result<u64, Refusal>)
    requires { text.old.at < 16777216 }
    ensures { Writes text.old text.new 22 (bar (count_shown count)) }
{
    match count {
        Ok(n) => text.named(b"|", n),
        Err(r) => text.named(b"|!", u64::from(r.number)),
    }
}

// Slot, name, level, format, blocked.
fn put_first(text: &mut Text, slot: u64, h: &[u8])
    requires { (text.old.at < 8388608) × (length h.now ≡ 128) }
    ensures { Writes text.old text.new 50 (first_fields slot h.now) }
{
    text.number(slot);
    text.byte(124);
    text.bytes(&h[5..22]);
    let marks = [
        124,
        level_shown(h),
        124,
        format_shown(h),
        124,
        blocked_shown(h),
    ];
    text.bytes(&marks);
}

// Start and end.
fn put_extent(text: &mut Text, h: &[u8])
    requires { (text.old.at < 8388608) × (length h.now ≡ 128) }
    ensures { Writes text.old text.new 12 (extent_fields h.now) }
{
    text.byte(124);
    text.address(start_of(h));
    text.byte(124);
    text.address(end_of(h));
}

// Blocks and U, and the end of the line.
fn put_last(text: &mut Text, count: Result<u64, Refusal>, h: &[u8])
    requires { (text.old.at < 8388608) × (length h.now ≡ 128) }
    ensures { Writes text.old text.new 44 (last_fields count h.now) }
{
    put_count(text, count);
    text.named(b"|", unused_count(h));
    text.byte(10);
}

// "Another level shows `?` but for slot, level, start, end."
fn other_line(text: &mut Text, slot: u64, h: &[u8])
    requires { (text.old.at < 4194304) × (length h.now ≡ 128) }
    ensures { Writes text.old text.new 60 (other_line slot h.now) }
{
    text.number(slot);
    text.bytes(b"|?|");
    text.byte(h[43]);
    text.bytes(b"|?|?|?|?");
    put_extent(text, h);
    text.bytes(b"|?|?\n");
}

// "A refused volume prints one line: `REFUSED`, number and each place, one space between."
fn refused_line(text: &mut Text, r: Refusal)
    requires { text.old.at < 4194304 }
    ensures { Writes text.old text.new 90 (refused_line r) }
{
    text.refusal(b"REFUSED ", r);
    if r.number == 10 {
        text.named(b" ", r.second);
    }
    text.byte(10);
}

// "the volume line (name, numbers, free records)"
fn volume_line(text: &mut Text, g: Geometry, image: &[u8], free: u64)
    requires { (text.old.at < 4194304) × (903 ≤ length image.now) × (free ≡ free_records g image.now) }
    ensures { Writes text.old text.new 190 (volume_line g image.now) }
{
    let v = index_body(image, 7);
    text.bytes(b"VOLUME ");
    text.bytes(&v[4..10]);
    put_numbers(text, g);
    text.named(b" FREE=", free);
    text.byte(10);
}

// "one line per label: slot, name, level .., format .., `B` or `-`, B, R, start, end, blocks, U."
fn known_line(text: &mut Text, slot: u64, h: &[u8], count: Result<u64, Refusal>)
    requires { (text.old.at < 4194304) × (length h.now ≡ 128) }
    ensures { Writes text.old text.new 148 (fields_in_a_row slot h.now count) }
{
    put_first(text, slot, h);
    text.named(b"|", block_length(h));
    text.named(b"|", record_length(h));
    put_extent(text, h);
    put_last(text, count, h);
}

fn label_line(text: &mut Text, g: Geometry, image: &[u8], slot: u64)
    requires { (text.old.at < 4194304) × (judged image.now ≡ Ok g) × (has_label g image.now slot ≡ true) }
    ensures { Writes text.old text.new 148 (label_line g image.now slot (label_at g image.now slot)) }
{
    let h = label_at(g, image, slot);
    if !known_level(h) {
        return other_line(text, slot, h);
    }
    known_line(text, slot, h, count_in(g, image, slot));
}

// A slot that has no label has no line.
fn slot_line(text: &mut Text, g: Geometry, image: &[u8], slot: u64)
    requires { (text.old.at < 4194304) × (judged image.now ≡ Ok g) × (1 ≤ slot) × (slot ≤ slot_count g) }
    ensures { Writes text.old text.new 148 (line_in g image.now slot) }
{
    if !is_label(g, image, slot) {
        return;
    }
    label_line(text, g, image, slot);
}

fn label_lines(text: &mut Text, g: Geometry, image: &[u8])
    requires { (text.old.at < 1048576) × (judged image.now ≡ Ok g) }
    ensures { Writes text.old text.new 6660 (lines_from g image.now (slot_count g) 1) }
{
    for slot in 1..=slot_count(g) {
        slot_line(text, g, image, slot);
    }
}

// An accepted volume: its line, and a line for each label.
fn volume_lines(text: &mut Text, g: Geometry, image: &[u8])
    requires { (text.old.at < 524288) × (judged image.now ≡ Ok g) }
    ensures { Writes text.old text.new 8192 (volume_line g image.now ++ lines_from g image.now (slot_count g) 1) }
{
    volume_line(text, g, image, free_in(g, image));
    label_lines(text, g, image);
}

// The whole listing: a line, or those of a volume.
fn put_listing(text: &mut Text, image: &[u8])
    requires { text.old.at < 524288 }
    ensures { Writes text.old text.new 8192 (listing image.now) }
{
    if 65536 < image.len() {
        return text.bytes(b"TOO LONG\n");
    }
    let verdict = judge(image);
    let Ok(g) = verdict else {
        return refused_line(text, refusal_of(verdict));
    };
    volume_lines(text, g, image);
}

// The listing of an image, into a lent buffer: as much of the text as there is room for; every byte behind it stays. The answer is the text's length, so a buffer of
// 8,192 bytes has room for all of it.
pub fn list(image: &[u8], out: &mut [u8]) -> usize
    ensures { Puts out.old out.new 0 result (listing image.now) × (result ≤ 8192) }
{
    let mut text = Text::at(out, 0);
    put_listing(&mut text, image);
    text.end()
}

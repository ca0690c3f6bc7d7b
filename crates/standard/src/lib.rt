// The values that document 01 speaks of, as the code and the contracts know them. Every type is plain data, passed by value. A call that can be refused gives a
// `Result` whose error is the refusal.
// What the values mean is said in specs/, a file for each section of the document.
#![tactic(auto)]

ghost use Rattle.std.specs.Prelude.{◌≡◌, ◌+◌, ◌<◌, get_or, ltb};
ghost use Rattle.standard.specs.Refusals.{refuse, refuse_at};
ghost use Rattle.standard.specs.Characters.{is_digit, digit_value};
ghost use Rattle.standard.specs.Addresses.{first_address, stepped, five_digits, two_digits, address_in, five_read};
ghost use Rattle.standard.specs.Places.{start, behind_at, next_block, after_gap};

// A refusal: its number in the document's table, and its places, 0 where it has none. (Document 01 has two places at most; the third is kept for a later
// request.)
#[derive(Clone, Copy)]
pub struct Refusal {
    pub number: u8,
    pub first: u64,
    pub second: u64,
    pub third: u64,
}

// "A refusal returns number and place": every layer makes its refusals here.
impl Refusal {
    // With one place, 0 where the table names none.
    pub fn at(number: u8, place: u64) -> Refusal
        ensures { result ≡ refuse number place }
    {
        Refusal::within(number, place, 0)
    }

    // With two: "slot, position" and "block, offset".
    pub fn within(number: u8, first: u64, second: u64) -> Refusal
        ensures { result ≡ refuse_at number first second }
    {
        Refusal {
            number,
            first,
            second,
            third: 0,
        }
    }
}

// The numbers of a volume, by the document's letters. P is 128·2^k. A defective cylinder that is absent is 0.
#[derive(Clone, Copy)]
pub struct Geometry {
    pub L: u8,
    pub I: u8,
    pub D: u8,
    pub k: u8,
    pub P: u16,
    pub S: u8,
    pub d1: u8,
    pub d2: u8,
}

// What finding a file gives: the slot of its label, and the label's offset in the image.
#[derive(Clone, Copy)]
pub struct Found {
    pub slot: u64,
    pub offset: u64,
}

// Reading or salvaging a place: a record's length and the place behind it, a gap and the place behind it, or End and its place.
#[derive(Clone, Copy)]
pub enum Answer {
    Record(u64, Place),
    Gap(Place),
    End(Place),
}

// What creating a file gives (request 2026-01): the slot of its label, and the start of its extent.
#[derive(Clone, Copy)]
pub struct Created {
    pub slot: u64,
    pub start: Address,
}

// An address of a physical record.
#[derive(Clone, Copy)]
pub struct Address {
    pub cylinder: u64,
    pub side: u64,
    pub sector: u64,
}

impl Address {
    pub const FIRST: Address = Address {
        cylinder: 1,
        side: 0,
        sector: 1,
    };

    // The constant by a function, which can say that it is the definition's value.
    pub fn first() -> Address
        ensures { result ≡ first_address }
    {
        Address::FIRST
    }

    // The step onward. Behind cylinder L+1 there is no cylinder: an address at its very end stays.
    pub fn step(self, g: Geometry) -> Address
        ensures { result ≡ stepped g self }
    {
        let c = self.cylinder;
        let s = self.side;
        let n = self.sector;
        let cylinders = u64::from(g.L);
        let sides = u64::from(g.S);
        let sectors = u64::from(g.D);
        if n < sectors {
            return Address {
                cylinder: c,
                side: s,
                sector: n + 1,
            };
        }
        if has_next(s, sides) {
            return Address {
                cylinder: c,
                side: s + 1,
                sector: 1,
            };
        }
        if c <= cylinders {
            return Address {
                cylinder: c + 1,
                side: 0,
                sector: 1,
            };
        }
        self
    }

    // Reading five digits, the first five bytes of a field: the address that they are, legal on the volume or not. (The length is asked once, so that no later
    // byte need ask it.)
    pub fn read(field: &[u8]) -> Option<Address>
        ensures { result ≡ five_read field.now }
    {
        if field.len() < 5 {
            return None;
        }
        if !five_digits(field) {
            return None;
        }
        Some(Address::spelled(field))
    }

    // The address that five bytes spell, digits or not. Of any bytes its numbers stay small, so that layers above can reckon with them.
    pub fn spelled(field: &[u8]) -> Address
        ensures { (result ≡ address_in field.now) × (result.cylinder < 3000) × (result.side < 256) × (result.sector < 3000) }
    {
        Address {
            cylinder: two_digits(field, 0),
            side: digit(byte_at(field, 2)),
            sector: two_digits(field, 3),
        }
    }
}

// A place in a file: a block number and an offset, with a mark "after a gap".
#[derive(Clone, Copy)]
pub struct Place {
    pub block: u64,
    pub offset: u64,
    pub mark: bool,
}

impl Place {
    pub const START: Place = Place {
        block: 0,
        offset: 0,
        mark: false,
    };

    // The constant by a function, as for the address.
    pub fn start() -> Place
        ensures { result ≡ start }
    {
        Place::START
    }

    // Step over a record, or a segment, whose end is at this offset of the block.
    pub fn behind(self, offset: u64) -> Place
        ensures { result ≡ behind_at offset self }
    {
        Place {
            block: self.block,
            offset,
            mark: false,
        }
    }

    // Enter the next block of a file of `count` blocks. The mark stays, but "at offsets above 0 .. the mark counts as absent". Behind the last block there is no
    // next one: the number stays.
    pub fn next_block(self, count: u64) -> Place
        ensures { result ≡ next_block count self }
    {
        let b = self.block;
        let mark = self.mark & (self.offset == 0);
        if b < count {
            return Place {
                block: b + 1,
                offset: 0,
                mark,
            };
        }
        Place {
            block: b,
            offset: 0,
            mark,
        }
    }

    // Set the mark.
    pub fn after_gap(self) -> Place
        ensures { result ≡ after_gap self }
    {
        Place {
            block: self.block,
            offset: self.offset,
            mark: true,
        }
    }
}

// What every layer above needs in small. The byte at i, or 0 where there is none.
pub fn byte_at(s: &[u8], i: usize) -> u64
    ensures { (result ≡ get_or s.now i 0) × (result < 256) }
{
    s.get(i).copied().map_or(0, u64::from)
}

pub fn is_digit(c: u64) -> bool
    ensures { result ≡ is_digit c }
{
    if c < 48 {
        return false;
    }
    c <= 57
}

// The value of a digit. (Only layers above call it, with a byte.)
pub fn digit(c: u64) -> u64
    requires { c < 256 }
    ensures { (result ≡ digit_value c) × (result < 256) }
{
    if c < 48 {
        return 0;
    }
    c - 48
}

// The two digits of a field from i on, as a number.
fn two_digits(field: &[u8], i: usize) -> u64
    requires { i < 4 }
    ensures { (result ≡ two_digits field.now i) × (result < 3000) }
{
    digit(byte_at(field, i)) * 10 + digit(byte_at(field, i + 1))
}

fn five_digits(field: &[u8]) -> bool
    ensures { result ≡ five_digits field.now }
{
    is_digit(byte_at(field, 0))
        & is_digit(byte_at(field, 1))
        & is_digit(byte_at(field, 2))
        & is_digit(byte_at(field, 3))
        & is_digit(byte_at(field, 4))
}

// Whether there is a number behind s and below sides.
fn has_next(s: u64, sides: u64) -> bool
    ensures { result ≡ ltb (s + 1) sides }
{
    if s < sides {
        return s + 1 < sides;
    }
    false
}

// The label to be made (request 2026-01), and which rule it would break. Everything here is inner.
#![tactic(auto)]

ghost use Rattle.std.specs.Prelude.{◌≡◌, ◌+◌, ◌-◌, ◌<◌, ◌≤◌, length, take, drop};
ghost use Rattle.standard.specs.Writing.{splice};
ghost use Rattle.standard.specs.Creating.{proposed, proposal_fault};
ghost use Rattle.fields.specs.Numbers.{fault_in};
ghost use Rattle.promises.specs.Making.Drafts.{given_laid, extent_laid};
ghost use Rattle.drafting.specs.Added.{added_to};

use labels::known_level;
use relabel::{lay_at, put_address};
use rules::label_fault;
use standard::{Address, Geometry};

// Bytes of those wanted, from a on and before e, over the label's from an index on.
fn lay_field(label: &mut [u8], at: usize, wanted: &[u8], a: usize, e: usize)
    requires { (a ≤ e) × (e ≤ length wanted.now) × (at + (e - a) ≤ length label.old) }
    ensures { label.new ≡ splice at (take (e - a) (drop a wanted.now)) label.old }
{
    lay_at(label, at, &wanted[a..e]);
}

// "Creating takes the 29 bytes of label fields 6-22, 23-27, 40, 44, 54-57, 63"
fn lay_given(label: &mut [u8], wanted: &[u8])
    requires { (length label.old ≡ 128) × (length wanted.now ≡ 29) }
    ensures { label.new ≡ given_laid wanted.now label.old }
{
    lay_at(label, 0, b"HDR1");
    lay_field(label, 5, wanted, 0, 22);
    lay_field(label, 39, wanted, 22, 23);
    lay_field(label, 43, wanted, 23, 24);
    lay_field(label, 53, wanted, 24, 28);
    lay_field(label, 62, wanted, 28, 29);
}

// "the data end is the start"
fn lay_extent(label: &mut [u8], start: Address, end: Address)
    requires { (length label.old ≡ 128) × (start.cylinder < 3000) × (start.side < 256) × (start.sector < 3000) × (end.cylinder < 3000) × (end.side < 256) × (end.sector < 3000) }
    ensures { label.new ≡ extent_laid start end label.old }
{
    put_address(label, 28, start);
    put_address(label, 34, end);
    put_address(label, 74, start);
}

// "Other fields are spaces": the label of the 29 bytes with an extent from a start to an end.
pub fn draft(wanted: &[u8], start: Address, end: Address) -> [u8; 128]
    requires { (length wanted.now ≡ 29) × (start.cylinder < 3000) × (start.side < 256) × (start.sector < 3000) × (end.cylinder < 3000) × (end.side < 256) × (end.sector < 3000) }
    ensures { result ≡ proposed wanted.now start end }
{
    let mut label = [32u8; 128];
    lay_given(&mut label, wanted);
    lay_extent(&mut label, start, end);
    label
}

// A condition more at a position: where it does not hold, the lower of the two faults. "the lowest first"
fn lowered(position: u64, holds: bool, fault: Option<u64>) -> Option<u64>
    ensures { result ≡ added_to position holds fault }
{
    if holds {
        return fault;
    }
    Some(fault.unwrap_or(position).min(position))
}

// "10 for the proposed label, with slot 0 (a level other than space, 1, 2 counts at 44, n = 0 at 35, other than 29 bytes at 6)": the position at fault.
// Where the extent will lie is not known yet: 01001 stands for it.
pub fn proposal_fault(g: Geometry, wanted: &[u8], n: u64) -> Option<u64>
    ensures { result ≡ fault_in (proposal_fault g wanted.now n) }
{
    if wanted.len() != 29 {
        return Some(6);
    }
    let first = Address::first();
    let label = draft(wanted, first, first);
    let fault = label_fault(g, &label);
    let level = lowered(44, known_level(&label), fault);
    lowered(35, 0 < n, level)
}

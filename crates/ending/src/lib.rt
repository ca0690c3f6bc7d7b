// The data end behind the blocks written: "start for 0 blocks; the first good record of the next block if a whole one is left; else the step past the extent's
// end". Everything here is inner.
#![tactic(auto)]

ghost use Rattle.std.specs.Prelude.{◌≡◌, true, ◌/◌, ◌<◌, length};
ghost use Rattle.standard.specs.Files.{addresses_from};
ghost use Rattle.standard.specs.Writing.{next_data_end};
ghost use Rattle.extents.specs.Cursors.{legal_at, good_from};

use extents::{Cursor, nth_good};
use standard::{Address, Geometry};

// `first` is a cursor on the extent's first record, `whole` says that every record is good, and `held` is the number of whole blocks that the good ones make.
pub fn data_end(
    g: Geometry,
    image: &[u8],
    start: Address,
    end: Address,
    first: Cursor,
    whole: bool,
    m: u64,
    held: u64,
    blocks: u64,
) -> Address
    requires { (legal_at g first ≡ true) × (first.left < 4294967296) × (whole ≡ true → good_from g image.now first.left first.at ≡ addresses_from g first.left first.at) × (0 < m) × (held ≡ length (good_from g image.now first.left first.at) / m) }
    ensures { result ≡ next_data_end g start end m (good_from g image.now first.left first.at) blocks }
{
    if blocks == 0 {
        return start;
    }
    if blocks < held {
        let next = nth_good(g, image, first, whole, blocks * m);
        return next.at;
    }
    end.step(g)
}

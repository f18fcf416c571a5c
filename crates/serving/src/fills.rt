// What shares come to: fills in a block, and records with fewer contracts.
ghost use Rattle.std.specs.Prelude.{◌≡◌, ◌-◌, ◌≤◌, map, length};
ghost use Rattle.terms.specs.Numbers.{sum};
ghost use Rattle.sharing.specs.Rule.{EachWithin};
ghost use Rattle.model.specs.Fills.{fills};
ghost use Rattle.model.specs.Tables.{sizes_of};
ghost use Rattle.serving.specs.Filling.{Roomy, all_filled_in};
ghost use Rattle.serving.specs.Stretch.{lowered_each};

use blocks::{Fill, add_unchecked};
use kept::Standing;

// Enters each share above 0 as a fill, and says how many of the contracts are left.
pub(crate) fn enter_fills<R: Standing + Copy>(
    records: &[R],
    shares: &[u32],
    number: u32,
    block: &mut [u32],
    places: usize,
) -> u32
    requires shares { (length shares.now ≡ length records.now) × (sum shares.now ≤ number) }
    requires room { Roomy places (length records.now) number block.old }
    ensures left { result ≡ number - sum shares.now }
    ensures block { block.new ≡ all_filled_in places (fills (map R.Standing.shown records.now) shares.now) block.old }
{
    let mut left = number;
    for (record, &contracts) in records.iter().zip(shares) {
        if contracts > 0 {
            let holder = record.holder();
            add_unchecked(block, places, Fill { holder, contracts });
            left -= contracts;
        }
    }
    left
}

// Lowers each record by its share.
pub(crate) fn lower_each<R: Standing + Copy>(records: &mut [R], shares: &[u32])
    requires same { length shares.now ≡ length records.old }
    requires inside { EachWithin shares.now (sizes_of (map R.Standing.shown records.old)) }
    ensures { records.new ≡ lowered_each R.Standing.lower records.old shares.now }
{
    // the shares by index: when a `zip` over `iter_mut` is done, a proof knows nothing of what it wrote
    for (i, record) in records.iter_mut().enumerate() {
        let standing = *record;
        *record = standing.lowered(shares[i]);
    }
}

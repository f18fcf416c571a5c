// A stretch, the records of a class at one price, served by the rule of the class.
ghost use Rattle.std.specs.Prelude.{◌≡◌, ◌≤◌, map, length};
ghost use Rattle.sharing.specs.Rule.{Valid};
ghost use Rattle.model.specs.Trading.{rule as meaning};
ghost use Rattle.serving.specs.Filling.{Roomy};
ghost use Rattle.serving.specs.Serving.{SharesOut, asked_of};

use crate::fills::{enter_fills, lower_each};
use crate::gather::gather;
use kept::Standing;
use sharing::{Asked, SharingRule};
use terms::MOST_ENTRIES;

// What a class is to share at a price.
#[derive(Clone, Copy)]
pub struct Portion {
    // the contracts that arrived at the price, and how many of them are to be shared here
    pub arriving: u32,
    pub number: u32,
    // the party that the order is directed to, 0 for none
    pub directed: u32,
}

// Shares the portion among the records, and says how many contracts of it are left. The room for holders, sizes and shares is lent.
fn serve_over<R: Standing + Copy, S: SharingRule>(
    records: &mut [R],
    portion: Portion,
    rule: &mut S,
    block: &mut [u32],
    places: usize,
    holders: &mut [u32],
    sizes: &mut [u32],
    shares: &mut [u32],
) -> u32
    requires valid { Valid (asked_of (map R.Standing.shown records.old) portion) }
    requires room { Roomy places (length records.old) portion.number block.old }
    requires lent { (length holders.old ≡ length records.old) × ((length sizes.old ≡ length records.old) × (length shares.old ≡ length records.old)) }
    ensures { SharesOut R.Standing.shown R.Standing.lower (meaning S.SharingRule.shares S.SharingRule.next) portion places
        records.old rule.old block.old
        result records.new rule.new block.new }
{
    gather(records, holders, sizes);
    let asked = Asked {
        holders,
        sizes,
        arriving: portion.arriving,
        number: portion.number,
        directed: portion.directed,
    };
    rule.share(asked, shares);
    let left = enter_fills(records, shares, portion.number, block, places);
    lower_each(records, shares);
    left
}

// The same with room of its own.
pub(crate) fn serve_stretch<R: Standing + Copy, S: SharingRule>(
    records: &mut [R],
    portion: Portion,
    rule: &mut S,
    block: &mut [u32],
    places: usize,
) -> u32
    requires valid { (Valid (asked_of (map R.Standing.shown records.old) portion)) × (length records.old ≤ 64) }
    requires room { Roomy places (length records.old) portion.number block.old }
    ensures { SharesOut R.Standing.shown R.Standing.lower (meaning S.SharingRule.shares S.SharingRule.next) portion places
        records.old rule.old block.old
        result records.new rule.new block.new }
{
    let mut holders = [0; MOST_ENTRIES];
    let mut sizes = [0; MOST_ENTRIES];
    let mut shares = [0; MOST_ENTRIES];
    let n = records.len();
    serve_over(
        records,
        portion,
        rule,
        block,
        places,
        &mut holders[0..n],
        &mut sizes[0..n],
        &mut shares[0..n],
    )
}

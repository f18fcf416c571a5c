// One class of a table that is best first, served at one price.
ghost use Rattle.std.specs.Prelude.{◌≡◌, ◌+◌, ◌≤◌, ◌==◌, length};
ghost use Rattle.std.specs.List.{prefix_len};
ghost use Rattle.model.specs.Trading.{rule as meaning};
ghost use Rattle.serving.specs.Serving.{Servable, Serves};
ghost use Rattle.serving.specs.Stretch.{here};

use crate::stretch::{Portion, serve_stretch};
use kept::Standing;
use sharing::SharingRule;

// How a class was served: where the records behind the price begin, and the contracts that are left.
#[derive(Clone, Copy)]
pub struct Served {
    pub to: usize,
    pub left: u32,
}

// How many of the first records are at a price.
fn leading<R: Standing + Copy>(records: &[R], price: u32) -> usize
    ensures { result ≡ prefix_len (λ standing. (R.Standing.shown standing).price == price) records.now }
{
    records
        .iter()
        .take_while(|record| record.price() == price)
        .count()
}

// Where the stretch at a price ends that begins at a place.
fn stretch_end<R: Standing + Copy>(records: &[R], from: usize, price: u32) -> usize
    requires { from ≤ length records.now }
    ensures end { result ≡ from + length (here R.Standing.shown from price records.now) }
    ensures inside { result ≤ length records.now }
{
    from + leading(&records[from..], price)
}

// Shares a portion among the records at a price, which begin at a place: shares above 0 become fills in a block of so many places,
// and each record has its share less.
pub fn serve<R: Standing + Copy, S: SharingRule>(
    records: &mut [R],
    from: usize,
    price: u32,
    portion: Portion,
    rule: &mut S,
    block: &mut [u32],
    places: usize,
) -> Served
    requires table { Servable R.Standing.shown records.old from places portion.number block.old }
    requires portion { (portion.number ≤ portion.arriving) × (portion.arriving ≤ 999999) }
    ensures { Serves R.Standing.shown R.Standing.lower (meaning S.SharingRule.shares S.SharingRule.next)
        from price portion places
        records.old rule.old block.old
        result records.new rule.new block.new }
{
    let to = stretch_end(records, from, price);
    let left = serve_stretch(&mut records[from..to], portion, rule, block, places);
    Served { to, left }
}

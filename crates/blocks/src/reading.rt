// Reading a block: which rows of numbers are written blocks, and the fills that they show.
ghost use Rattle.std.specs.Prelude.{◌≡◌, ◌+◌, ◌≤◌, ◌&&◌, length, drop, ◌==◌};
ghost use Rattle.std.specs.List.{slice_get};
ghost use Rattle.terms.specs.Numbers.{sum as added_up};
ghost use Rattle.blocks.specs.Layouts.{places_of};
ghost use Rattle.blocks.specs.Blocks.{contracts_fit, fit, holders_fit};
ghost use Rattle.blocks.specs.Laws.{ReadsBack, ReadsOnlyBlocks};
ghost use Rattle.blocks.specs.Reading.{answered, beside, reads, shown, written, zeros};

use crate::fill::Fill;
use crate::layout::Layout;
use terms::{MOST_CONTRACTS, MOST_TRADED, Refusal, all_within, distinct, sum};

// The fills of a written block, handed out one by one.
#[derive(Clone, Copy)]
pub struct Written<'a> {
    holders: &'a [u32],
    contracts: &'a [u32],
    total: u32,
}

impl Written<'_> {
    // How many fills the block shows.
    pub fn count(&self) -> usize
        ensures { result ≡ (shown self.now).count }
    {
        self.holders.len()
    }

    // Their contracts, added up.
    pub fn total(&self) -> u32
        ensures { result ≡ (shown self.now).total }
    {
        self.total
    }

    // The fill at place `i`, counted from 0.
    pub fn fill(&self, i: usize) -> Option<Fill>
        ensures { result ≡ slice_get (shown self.now).fills i }
    {
        let holder = *self.holders.get(i)?;
        let contracts = *self.contracts.get(i)?;
        Some(Fill { holder, contracts })
    }
}

// Reads a row of numbers, refused with 16 for its length and with 17 where it is not a written block.
pub fn read(block: &[u32]) -> Result<Written<'_>, Refusal>
    ensures answer { answered result ≡ reads block.now }
    ensures back { ReadsBack block.now (answered result) }
    ensures only { ReadsOnlyBlocks block.now (answered result) }
{
    let layout = Layout::try_from(block.len())?;
    if !is_written(layout, block) {
        return Err(Refusal::NotWritten);
    }
    let places = layout.places();
    let count = block[0] as usize;
    let holders = &block[2..2 + count];
    let contracts = &block[2 + places..2 + places + count];
    Ok(Written {
        holders,
        contracts,
        total: block[1],
    })
}

// Whether a row as long as a block of the layout is a written one.
pub(crate) fn is_written(layout: Layout, block: &[u32]) -> bool
    requires { length block.now ≡ 2 + places_of layout + places_of layout }
    ensures { result ≡ written layout block.now }
{
    let places = layout.places();
    let count = block[0] as usize;
    if count > places {
        return false;
    }
    let holders = &block[2..2 + places];
    let contracts = &block[2 + places..];
    are_fit(layout, &holders[0..count], &contracts[0..count], block[1])
        && are_zero_from(count, holders, contracts)
}

// Whether holders beside contracts are fills that fit the layout, with this total.
fn are_fit(layout: Layout, holders: &[u32], contracts: &[u32], total: u32) -> bool
    requires { (length holders.now ≡ length contracts.now) × (length holders.now ≤ places_of layout) }
    ensures { result ≡ (fit layout (beside holders.now contracts.now) && total == added_up contracts.now) }
{
    are_holders(layout, holders) && are_contracts(contracts, total)
}

// Whether each holder is in range, and none stands twice.
fn are_holders(layout: Layout, holders: &[u32]) -> bool
    ensures { result ≡ holders_fit layout holders.now }
{
    all_within(layout.most_holder(), holders) && distinct(holders)
}

// Whether each number of contracts is in range, and so is the total, which is theirs.
fn are_contracts(contracts: &[u32], total: u32) -> bool
    requires { length contracts.now ≤ 64 }
    ensures { result ≡ (contracts_fit contracts.now && total == added_up contracts.now) }
{
    if !all_within(MOST_CONTRACTS, contracts) {
        return false;
    }
    total <= MOST_TRADED && sum(contracts) == total
}

// Whether the entries of both arrays from a place on are 0.
fn are_zero_from(count: usize, holders: &[u32], contracts: &[u32]) -> bool
    requires { (count ≤ length holders.now) × (count ≤ length contracts.now) }
    ensures { result ≡ (zeros (drop count holders.now) && zeros (drop count contracts.now)) }
{
    all_zero(&holders[count..]) && all_zero(&contracts[count..])
}

// Whether every number is 0.
fn all_zero(numbers: &[u32]) -> bool
    ensures { result ≡ zeros numbers.now }
{
    numbers.iter().all(|n| *n == 0)
}

// Writing a block: cleared first, then one fill behind another.
ghost use Rattle.std.specs.Prelude.{◌≡◌, ℕ, ◌+◌, ◌≤◌, not, ◌&&◌, List, [], ◌∷◌, ◌++◌, length, replicate, OnErr, nat_le, nat_lt};
ghost use Rattle.terms.specs.Numbers.{listed as stands_in, within as in_range};
ghost use Rattle.blocks.specs.declared.fill.Fill.{Fill as One};
ghost use Rattle.blocks.specs.Layouts.{most_holder, places_of};
ghost use Rattle.blocks.specs.Blocks.{block as block_of, fit};
ghost use Rattle.blocks.specs.Reading.{written};
ghost use Rattle.blocks.specs.Writing.{Room, added, cleared, filled_in, left_by, with_fill};

use crate::fill::Fill;
use crate::layout::Layout;
use crate::reading::is_written;
use terms::{MOST_CONTRACTS, MOST_TRADED, Refusal, listed, within};

// Makes a row of numbers the block of no fills, whatever it held; refused with 16 for its length.
pub fn clear(block: &mut [u32]) -> Result<(), Refusal>
    ensures left { left_by result block.new ≡ cleared block.old }
    ensures kept { OnErr result (block.new ≡ block.old) }
{
    Layout::try_from(block.len())?;
    blank(block);
    Ok(())
}

// Sets every number to 0: in a row as long as a block, this is the block of no fills.
pub fn blank(block: &mut [u32])
    ensures zero { block.new ≡ replicate (length block.old) 0 }
    ensures block { (places : ℕ) → length block.old ≡ 2 + places + places → block.new ≡ block_of places [] }
{
    block.fill(0);
}

// Adds a fill behind those of a written block. Refused with 16 for the block's length,
// and with 17 where it is not a written block, or would be none with the fill.
pub fn add(block: &mut [u32], fill: Fill) -> Result<(), Refusal>
    ensures left { left_by result block.new ≡ added fill block.old }
    ensures kept { OnErr result (block.new ≡ block.old) }
{
    let layout = Layout::try_from(block.len())?;
    if !takes(layout, block, fill) {
        return Err(Refusal::NotWritten);
    }
    add_unchecked(block, layout.places(), fill);
    Ok(())
}

// Whether a row as long as a block of the layout is a written block, and still one with the fill.
fn takes(layout: Layout, block: &[u32], fill: Fill) -> bool
    requires { length block.now ≡ 2 + places_of layout + places_of layout }
    ensures { result ≡ (written layout block.now && fit layout (with_fill layout fill block.now)) }
{
    if !is_written(layout, block) {
        return false;
    }
    let count = block[0] as usize;
    takes_holder(layout, &block[2..2 + count], fill.holder)
        && takes_contracts(block[1], fill.contracts)
}

// Whether one more holder fits behind those of a block.
fn takes_holder(layout: Layout, holders: &[u32], holder: u32) -> bool
    ensures { result ≡ (nat_lt (length holders.now) (places_of layout) && (in_range (most_holder layout) holder && not (stands_in holder holders.now))) }
{
    holders.len() < layout.places()
        && within(layout.most_holder(), holder)
        && !listed(holder, holders)
}

// Whether more contracts fit to those of a block.
fn takes_contracts(total: u32, contracts: u32) -> bool
    requires { total ≤ 999999 }
    ensures { result ≡ (in_range 99999 contracts && nat_le (total + contracts) 999999) }
{
    within(MOST_CONTRACTS, contracts) && total + contracts <= MOST_TRADED
}

// Adds a fill behind those of a block that has room for it, and checks nothing.
pub fn add_unchecked(block: &mut [u32], places: usize, fill: Fill)
    requires { Room places fill.contracts block.old }
    ensures writes { block.new ≡ filled_in places fill block.old }
    ensures block { (fs : List One) → block.old ≡ block_of places fs → block.new ≡ block_of places (fs ++ fill ∷ []) }
{
    let count = block[0];
    let total = block[1];
    let at = count as usize;
    block[2 + at] = fill.holder;
    block[2 + places + at] = fill.contracts;
    block[0] = count + 1;
    block[1] = total + fill.contracts;
}

// A Trade over three rows of records: first all levels, then one compaction of each row.
ghost use Rattle.std.specs.Prelude.{◌≤◌, length};
ghost use Rattle.terms.specs.Sides.{side_number};
ghost use Rattle.model.specs.Trading.{rule as meaning};
ghost use Rattle.kept.specs.Orders.{order_shown};
ghost use Rattle.kept.specs.Quotes.{quote_shown};
ghost use Rattle.trade.specs.Rows.{TradableRows, TradesPlaces, TradesRows, cut_to, held};
ghost use Rattle.trade.specs.State.{SameRoom, blocks_from, state, state_of};
ghost use Rattle.trade.specs.Trades.{FullLength, Tradable, Trades};

use crate::compaction::compact;
use crate::incoming::Incoming;
use crate::market::Market;
use crate::reached::Reached;
use blocks::blank;
use kept::{KeptList, Order, Quote};
use sharing::SharingRule;
use terms::Side;

// How many records stand in each row.
#[derive(Clone, Copy)]
struct Counts {
    customers: usize,
    makers: usize,
    firms: usize,
}

impl<M: SharingRule, F: SharingRule> Market<'_, M, F> {
    // A Trade over whole rows: fills in the blocks, records lowered, those without contracts gone, and their places blank. Returns where
    // the records that stand end in each row.
    fn trade(&mut self, side: Side, incoming: Incoming) -> Reached
        requires rows { TradableRows (side_number side) (state_of self.old) }
        requires blocks { FullLength (state_of self.old).blocks }
        ensures trades { TradesRows (meaning M.SharingRule.shares M.SharingRule.next) (meaning F.SharingRule.shares F.SharingRule.next) (side_number side) incoming (state_of self.old) result (state_of self.new) }
        ensures same { SameRoom self.old self.new }
    {
        blank(self.customer_block);
        blank(self.maker_block);
        blank(self.firm_block);
        let left = self.trade_levels(side, incoming);
        Reached {
            customers: compact(self.customers),
            makers: compact(self.makers),
            firms: compact(self.firms),
            left,
        }
    }
}

// The same over rows, rules and blocks that are lent one by one: of rows cut in a struct's literal only the length would be known later.
fn trade_rows<M: SharingRule, F: SharingRule>(
    side: Side,
    incoming: Incoming,
    customers: &mut [Order],
    makers: &mut [Quote],
    firms: &mut [Order],
    makers_rule: &mut M,
    firms_rule: &mut F,
    customer_block: &mut [u32],
    maker_block: &mut [u32],
    firm_block: &mut [u32],
) -> Reached
    requires rows { TradableRows (side_number side) (state customers.old makers.old firms.old makers_rule.old firms_rule.old customer_block.old maker_block.old firm_block.old) }
    requires blocks { FullLength (blocks_from customer_block.old maker_block.old firm_block.old) }
    ensures { TradesRows (meaning M.SharingRule.shares M.SharingRule.next) (meaning F.SharingRule.shares F.SharingRule.next) (side_number side) incoming
        (state customers.old makers.old firms.old makers_rule.old firms_rule.old customer_block.old maker_block.old firm_block.old)
        result (state customers.new makers.new firms.new makers_rule.new firms_rule.new customer_block.new maker_block.new firm_block.new) }
{
    let mut market = Market {
        customers: &mut *customers,
        makers: &mut *makers,
        firms: &mut *firms,
        makers_rule: &mut *makers_rule,
        firms_rule: &mut *firms_rule,
        customer_block: &mut *customer_block,
        maker_block: &mut *maker_block,
        firm_block: &mut *firm_block,
    };
    market.trade(side, incoming)
}

// The same over the first records of each row.
fn trade_places<M: SharingRule, F: SharingRule>(
    side: Side,
    incoming: Incoming,
    counts: Counts,
    customers: &mut [Order],
    makers: &mut [Quote],
    firms: &mut [Order],
    makers_rule: &mut M,
    firms_rule: &mut F,
    customer_block: &mut [u32],
    maker_block: &mut [u32],
    firm_block: &mut [u32],
) -> Reached
    requires inside { (counts.customers ≤ length customers.old) × ((counts.makers ≤ length makers.old) × (counts.firms ≤ length firms.old)) }
    requires rows { TradableRows (side_number side) (cut_to counts (state customers.old makers.old firms.old makers_rule.old firms_rule.old customer_block.old maker_block.old firm_block.old)) }
    requires blocks { FullLength (blocks_from customer_block.old maker_block.old firm_block.old) }
    ensures { TradesPlaces (meaning M.SharingRule.shares M.SharingRule.next) (meaning F.SharingRule.shares F.SharingRule.next) (side_number side) incoming counts
        (state customers.old makers.old firms.old makers_rule.old firms_rule.old customer_block.old maker_block.old firm_block.old)
        result (state customers.new makers.new firms.new makers_rule.new firms_rule.new customer_block.new maker_block.new firm_block.new) }
{
    trade_rows(
        side,
        incoming,
        &mut customers[..counts.customers],
        &mut makers[..counts.makers],
        &mut firms[..counts.firms],
        makers_rule,
        firms_rule,
        customer_block,
        maker_block,
        firm_block,
    )
}

// A Trade over three lists, which are lent one by one. Returns the contracts that are left.
pub(crate) fn trade_lists<M: SharingRule, F: SharingRule>(
    side: Side,
    incoming: Incoming,
    customers: &mut KeptList<'_, Order>,
    makers: &mut KeptList<'_, Quote>,
    firms: &mut KeptList<'_, Order>,
    makers_rule: &mut M,
    firms_rule: &mut F,
    customer_block: &mut [u32],
    maker_block: &mut [u32],
    firm_block: &mut [u32],
) -> u32
    requires customers { Tradable order_shown (side_number side) 64 customers.old }
    requires makers { Tradable quote_shown (side_number side) 16 makers.old }
    requires firms { Tradable order_shown (side_number side) 64 firms.old }
    requires blocks { FullLength (blocks_from customer_block.old maker_block.old firm_block.old) }
    ensures { Trades (meaning M.SharingRule.shares M.SharingRule.next) (meaning F.SharingRule.shares F.SharingRule.next) (side_number side) incoming
        (held customers.old makers.old firms.old) makers_rule.old firms_rule.old
        result (held customers.new makers.new firms.new) makers_rule.new firms_rule.new
        (blocks_from customer_block.new maker_block.new firm_block.new) }
{
    let counts = Counts {
        customers: customers.count,
        makers: makers.count,
        firms: firms.count,
    };
    let ended = trade_places(
        side,
        incoming,
        counts,
        customers.slots,
        makers.slots,
        firms.slots,
        makers_rule,
        firms_rule,
        customer_block,
        maker_block,
        firm_block,
    );
    customers.count = ended.customers;
    makers.count = ended.makers;
    firms.count = ended.firms;
    ended.left
}

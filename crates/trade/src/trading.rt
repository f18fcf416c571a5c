// A Trade against the three tables of a book.
ghost use Rattle.model.specs.Trading.{rule as meaning};
ghost use Rattle.kept.specs.Orders.{order_shown};
ghost use Rattle.kept.specs.Quotes.{quote_shown};
ghost use Rattle.trade.specs.State.{blocks_from};
ghost use Rattle.trade.specs.Trades.{FullLength, Tradable, Trades};

use crate::incoming::Incoming;
use crate::tables::trade_lists;
use kept::Tables;
use sharing::SharingRule;
use terms::Side;

// Trades an incoming order against the tables of a side: at each price customers share first, then makers by their rule, then firms by
// theirs. Returns the contracts that are left. The blocks show who was filled, whatever they held before.
pub fn trade<M: SharingRule, F: SharingRule>(
    side: u32,
    incoming: Incoming,
    tables: &mut Tables<'_>,
    makers_rule: &mut M,
    firms_rule: &mut F,
    customer_block: &mut [u32],
    maker_block: &mut [u32],
    firm_block: &mut [u32],
) -> u32
    requires customers { Tradable order_shown side 64 tables.old.customers }
    requires makers { Tradable quote_shown side 16 tables.old.makers }
    requires firms { Tradable order_shown side 64 tables.old.firms }
    requires blocks { FullLength (blocks_from customer_block.old maker_block.old firm_block.old) }
    ensures { Trades (meaning M.SharingRule.shares M.SharingRule.next) (meaning F.SharingRule.shares F.SharingRule.next) side incoming
        tables.old makers_rule.old firms_rule.old
        result tables.new makers_rule.new firms_rule.new
        (blocks_from customer_block.new maker_block.new firm_block.new) }
{
    trade_lists(
        Side::from(side),
        incoming,
        &mut tables.customers,
        &mut tables.makers,
        &mut tables.firms,
        makers_rule,
        firms_rule,
        customer_block,
        maker_block,
        firm_block,
    )
}

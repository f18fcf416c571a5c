// One order at one price: customers first, then makers, then firms.
ghost use Rattle.std.specs.Prelude.{◌≡◌, ◌≤◌, take};
ghost use Rattle.shares.specs.Level.{after, asks};
ghost use Rattle.shares.specs.Listed.{count};
ghost use Rattle.shares.specs.Ordered.{Shared};

use crate::case::{Case, Shares};
use crate::entries::Entries;
use crate::order::Order;
use sharing::{Asked, DrawRule, ProRata, SharingRule, TimeOrder};
use terms::{MOST_ENTRIES, sum};

// One class shares a number of the order's contracts by its rule, at the front of the room. Returns what is left of them.
fn share_class<R: SharingRule>(
    rule: &mut R,
    entries: &Entries,
    order: Order,
    number: u32,
    room: &mut [u32; MOST_ENTRIES],
) -> u32
    requires { number ≤ order.size }
    ensures shares { take (count entries.now) room.new ≡ R.SharingRule.shares rule.old (asks entries.now order number) }
    ensures left { result ≡ after number (R.SharingRule.shares rule.old (asks entries.now order number)) }
    ensures rule { rule.new ≡ R.SharingRule.next rule.old (asks entries.now order number) }
{
    let sizes = entries.sizes();
    let shares = &mut room[..sizes.len()];
    let asked = Asked {
        holders: entries.holders(),
        sizes,
        arriving: order.size,
        number,
        directed: order.directed.unwrap_or(0),
    };
    rule.share(asked, shares);
    number - sum(shares)
}

// Shares an order among the three classes and moves the turn on. Returns what is left of it.
pub fn share_order(order: Order, case: &Case, rule: &mut DrawRule, out: &mut Shares) -> u32
    ensures { Shared order case.now rule.old rule.new out.new result }
{
    let left = share_class(
        &mut TimeOrder,
        &case.customers,
        order,
        order.size,
        &mut out.customers,
    );
    let left = share_class(rule, &case.makers, order, left, &mut out.makers);
    share_class(&mut ProRata, &case.firms, order, left, &mut out.firms)
}

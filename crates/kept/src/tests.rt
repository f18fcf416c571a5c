// Short examples: which record stands where.
use crate::list::KeptList;
use crate::orders::Order;
use crate::quotes::Quote;
use std::test::Fail;
use terms::Side;

fn order(number: u32, price: u32) -> Order {
    Order {
        number,
        price,
        left: 1,
    }
}

// The number of the order at a place, or 0.
fn number_at(list: &KeptList<'_, Order>, place: usize) -> u32 {
    list.get(place).map_or(0, |order| order.number)
}

// Orders 1, 2 and 3 arrive at these prices: their numbers, best first.
fn best_first(side: Side, prices: [u32; 3]) -> [u32; 3] {
    let mut table = [Order::default(); 3];
    let mut list = KeptList::empty(&mut table, 3);
    let _ = list.insert(side.number(), order(1, prices[0]));
    let _ = list.insert(side.number(), order(2, prices[1]));
    let _ = list.insert(side.number(), order(3, prices[2]));
    [
        number_at(&list, 0),
        number_at(&list, 1),
        number_at(&list, 2),
    ]
}

#[test]
fn higher_bids_come_first_and_equals_by_arrival(rt: HostRuntime) {
    assert_eq!(rt; best_first(Side::Bids, [110, 120, 110]), [2, 1, 3]);
}

#[test]
fn lower_offers_come_first_and_equals_by_arrival(rt: HostRuntime) {
    assert_eq!(rt; best_first(Side::Offers, [110, 120, 110]), [1, 3, 2]);
}

#[test]
fn quotes_at_one_price_stand_as_drawn(rt: HostRuntime) {
    let mut table = [Quote::default(); 2];
    let mut list = KeptList::empty(&mut table, 2);
    let _ = list.insert(
        Side::Offers.number(),
        Quote {
            party: 20,
            price: 110,
            left: 5,
            place: 1,
        },
    );
    assert_eq!(rt;
        list.insert(
            Side::Offers.number(),
            Quote {
                party: 10,
                price: 110,
                left: 5,
                place: 0,
            },
        ),
        Some(0)
    );
}

#[test]
fn a_removed_order_leaves_a_cleared_place(rt: HostRuntime) {
    let mut table = [order(7, 110); 2];
    let mut list = KeptList::empty(&mut table, 2);
    let _ = list.insert(Side::Offers.number(), order(1, 110));
    assert!(rt; list.remove(0).is_some());
    assert!(rt; list.find(1).is_none());
    assert_eq!(rt; table[0].number, 0);
}

#[test]
fn a_full_list_refuses(rt: HostRuntime) {
    let mut table = [Order::default(); 2];
    let mut list = KeptList::empty(&mut table, 1);
    let _ = list.insert(Side::Bids.number(), order(1, 110));
    assert_eq!(rt; list.insert(Side::Bids.number(), order(2, 120)), None);
}

#[test]
fn too_few_places_are_handed_back(rt: HostRuntime) -> Result<(), Fail> {
    let mut table = [order(7, 110); 1];
    match KeptList::make(&mut table, 2) {
        Ok(_) => Err(Fail::new("one place is not enough for two")),
        Err(back) => {
            assert_eq!(rt; back.len(), 1);
            Ok(())
        },
    }
}

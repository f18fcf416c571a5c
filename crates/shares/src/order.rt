// An order.
ghost use Rattle.std.specs.Prelude.{◌≤◌};

// Its contracts, 999,999 at the most, and the party that it is directed to, if there is one.
#[derive(Clone, Copy)]
pub struct Order {
    pub size: u32,
    pub directed: Option<u32>,
    ghost sized: { size ≤ 999999 },
}

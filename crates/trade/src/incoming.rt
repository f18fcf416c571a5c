// What arrives in a Trade.
ghost use Rattle.std.specs.Prelude.{◌≤◌};

// An incoming order, of a size that it may have. No contract asks anything of its limit.
#[derive(Clone, Copy)]
pub struct Incoming {
    // the worst price that the order takes
    pub limit: u32,
    // its contracts
    pub size: u32,
    // the party that it is directed to, 0 for none
    pub directed: u32,
    ghost range: { size ≤ 999999 },
}

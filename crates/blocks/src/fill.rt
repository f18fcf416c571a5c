// A fill: what one holder gets of a trade.

#[derive(Clone, Copy, PartialEq, Eq, Debug)]
pub struct Fill {
    // the number of an order, or of a maker
    pub holder: u32,
    pub contracts: u32,
}

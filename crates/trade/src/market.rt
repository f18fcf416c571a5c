// What a Trade works on.
use kept::{Order, Quote};

// A row of records for each class, best first, the rules of makers and firms, and a block for each class.
#[derive(Drop)]
pub(crate) struct Market<'m, M, F> {
    pub customers: &'m mut [Order],
    pub makers: &'m mut [Quote],
    pub firms: &'m mut [Order],
    pub makers_rule: &'m mut M,
    pub firms_rule: &'m mut F,
    pub customer_block: &'m mut [u32],
    pub maker_block: &'m mut [u32],
    pub firm_block: &'m mut [u32],
}

// The three tables of a book, each a kept list: a plain holder, so that it can be lent as a whole.
use crate::list::KeptList;
use crate::orders::Order;
use crate::quotes::Quote;

#[derive(Drop)]
pub struct Tables<'t> {
    pub customers: KeptList<'t, Order>,
    pub makers: KeptList<'t, Quote>,
    pub firms: KeptList<'t, Order>,
}

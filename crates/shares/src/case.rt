// A case: what stands there, and what is shared of an order.
use crate::entries::Entries;
use terms::MOST_ENTRIES;

// One for each class.
#[derive(Clone, Copy, Default)]
pub struct ByClass<T> {
    pub customers: T,
    pub makers: T,
    pub firms: T,
}

// The entries that an order meets.
pub type Case = ByClass<Entries>;

// Room for the shares of each class, one behind the other as the entries are.
pub type Shares = ByClass<[u32; MOST_ENTRIES]>;

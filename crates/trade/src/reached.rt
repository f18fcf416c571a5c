// How far a Trade has come.

// A place in the row of each class, and the contracts that are left. Under way the classes go on from there; at the end the records
// that stand lie before it.
#[derive(Clone, Copy)]
pub(crate) struct Reached {
    pub customers: usize,
    pub makers: usize,
    pub firms: usize,
    pub left: u32,
}

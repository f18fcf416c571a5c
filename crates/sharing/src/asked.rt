// What a sharing rule is asked: to share a number of contracts among the entries of one class at one price.
ghost use Rattle.sharing.specs.Rule.{Valid, inputs};

// Holders beside sizes, and 0 for nobody, are how every rule is asked: these are the numbers that the markets send.
#[derive(Clone, Copy)]
pub struct Asked<'a> {
    // who stands at the price, in list order, and with how many contracts
    pub holders: &'a [u32],
    pub sizes: &'a [u32],
    // the contracts that arrived at the price, and how many of them are to be shared here
    pub arriving: u32,
    pub number: u32,
    // the party that the order is directed to, 0 for none
    pub directed: u32,
    ghost valid: { Valid (inputs holders.now sizes.now arriving number directed) },
}

// Taking entries in.
ghost use Rattle.std.specs.Prelude.{◌≡◌, [], ◌∷◌, ◌++◌, length, is_ok, if◌then◌else◌};
ghost use Rattle.shares.specs.Listed.{accepts, count, holders_of, sizes_of};

use crate::entries::Entries;
use crate::fault::Fault;
use terms::{MOST_CONTRACTS, MOST_ENTRIES, listed, within};

// No entries.
impl Default for Entries {
    ghost is_default = { λ entries. (holders_of entries ≡ []) × (sizes_of entries ≡ []) };

    fn default() -> Entries {
        Entries {
            holders: [0; MOST_ENTRIES],
            sizes: [0; MOST_ENTRIES],
            count: 0,
        }
    }
}

impl Entries {
    // The holders, in list order.
    pub fn holders(&self) -> &[u32]
        ensures value { result.now ≡ holders_of self.now }
        ensures len { length result.now ≡ count self.now }
    {
        &self.holders[..self.count]
    }

    // Their sizes.
    pub fn sizes(&self) -> &[u32]
        ensures value { result.now ≡ sizes_of self.now }
        ensures len { length result.now ≡ count self.now }
    {
        &self.sizes[..self.count]
    }

    // One more entry behind the others, whose holder's number is at most so high.
    #[tactic(auto, using(std::proofs::lemmas::List::take_more_set, terms::proofs::Rows::distinct_push, terms::proofs::Rows::ranged_push))]
    pub fn add(&mut self, most: u32, holder: u32, size: u32) -> Result<(), Fault>
        ensures taken { is_ok result ≡ accepts most holder size self.old }
        ensures holders { holders_of self.new ≡ (if is_ok result then holders_of self.old ++ holder ∷ [] else holders_of self.old) }
        ensures sizes { sizes_of self.new ≡ (if is_ok result then sizes_of self.old ++ size ∷ [] else sizes_of self.old) }
    {
        if !within(most, holder) {
            return Err(Fault::Holder);
        }
        if !within(MOST_CONTRACTS, size) {
            return Err(Fault::Size);
        }
        if listed(holder, self.holders()) {
            return Err(Fault::Twice);
        }
        if self.count >= MOST_ENTRIES {
            return Err(Fault::Full);
        }
        self.holders[self.count] = holder;
        self.sizes[self.count] = size;
        self.count += 1;
        Ok(())
    }
}

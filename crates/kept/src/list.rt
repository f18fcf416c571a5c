// The kept list: ranked records, best first, in places that the caller lends.
ghost use Rattle.std.specs.Prelude.{◌≡◌, ℕ, ◌≤◌, length, take, position, IfSome};
ghost use Rattle.std.specs.List.{slice_get};
ghost use Rattle.kept.specs.Inserting.{place_of};
ghost use Rattle.kept.specs.Kept.{places, standing, StaysSound, SameExtent, Made, Makes, Inserts, Replaces, Alike, Removes};

use crate::ranked::{Keyed, Ranked, clear};
use std::mem;

// The first `count` places hold the records that stand, of which there may be at most `bound`.
// A list that is made and changed by its own calls keeps `count` at most `bound`, and `bound` at most the places there are.
#[derive(Drop)]
pub struct KeptList<'a, R: Ranked + Copy> {
    pub slots: &'a mut [R],
    pub count: usize,
    pub bound: usize,
}

// Only `empty` has a premise. What else cannot be done is refused, and changes nothing.
impl<'a, R: Ranked + Copy> KeptList<'a, R> {
    // An empty list over the first `bound` places, which are cleared. A slice with fewer is handed back.
    pub fn make(slots: &'a mut [R], bound: usize) -> Result<KeptList<'a, R>, &'a mut [R]>
        ensures { Makes R.Ranked.cleared bound slots.old result }
    {
        if slots.len() < bound {
            Err(slots)
        } else {
            Ok(KeptList::empty(slots, bound))
        }
    }

    // The same for a caller that has seen that there are places enough.
    pub fn empty(slots: &'a mut [R], bound: usize) -> KeptList<'a, R>
        requires { bound ≤ length slots.old }
        ensures { Made R.Ranked.cleared bound slots.old result }
    {
        clear(&mut slots[..bound]);
        KeptList {
            slots,
            count: 0,
            bound,
        }
    }

    // How many records stand.
    pub fn len(&self) -> usize
        ensures count { result ≡ length (standing self.now) }
        ensures within { result ≤ length (places self.now) }
        ensures same { standing self.now ≡ take result (places self.now) }
    {
        self.count.min(self.slots.len())
    }

    // The record at a place, if one stands there.
    pub fn get(&self, place: usize) -> Option<R>
        ensures { result ≡ slice_get (standing self.now) place }
    {
        self.standing().get(place).copied()
    }

    // Puts a record behind all that are no worse on the side, and says at which place it then stands. A full list refuses.
    pub fn insert(&mut self, side: u32, item: R) -> Option<usize>
        ensures inserts { Inserts (R.Ranked.ranks side) item self.old self.new result }
        ensures same { SameExtent self.old self.new }
        ensures keeps { StaysSound (R.Ranked.ranks side) R.Ranked.cleared self.old self.new }
    {
        if self.count >= self.bound || self.count >= self.slots.len() {
            return None;
        }
        let place = self.place_for(side, &item);
        self.slots[place..=self.count].rotate_right(1);
        self.slots[place] = item;
        self.count += 1;
        Some(place)
    }

    // Writes a record over the one at a place, which it returns. The list stays in rank if the two rank alike.
    pub fn replace(&mut self, place: usize, item: R) -> Option<R>
        ensures replaces { Replaces place item self.old self.new result }
        ensures same { SameExtent self.old self.new }
        ensures keeps { (side : ℕ) → IfSome result (Alike (R.Ranked.ranks side) item) → StaysSound (R.Ranked.ranks side) R.Ranked.cleared self.old self.new }
    {
        if place >= self.len() {
            return None;
        }
        Some(mem::replace(&mut self.slots[place], item))
    }

    // Takes out the record at a place and returns it. Those behind it move up, and the freed place is cleared.
    pub fn remove(&mut self, place: usize) -> Option<R>
        ensures removes { Removes R.Ranked.cleared place self.old self.new result }
        ensures same { SameExtent self.old self.new }
        ensures keeps { (side : ℕ) → StaysSound (R.Ranked.ranks side) R.Ranked.cleared self.old self.new }
    {
        let count = self.len();
        if place >= count {
            return None;
        }
        let gone = self.slots[place];
        self.slots[place..count].rotate_left(1);
        self.slots[count - 1] = R::blank();
        self.count = count - 1;
        Some(gone)
    }

    // The records that stand.
    fn standing(&self) -> &[R]
        ensures { result.now ≡ standing self.now }
    {
        &self.slots[..self.len()]
    }

    // Where a record goes: behind all that are no worse.
    fn place_for(&self, side: u32, item: &R) -> usize
        ensures place { result ≡ place_of (R.Ranked.ranks side) item.now (standing self.now) }
        ensures within { result ≤ self.now.count }
    {
        self.standing()
            .iter()
            .take_while(|record| record.no_worse(side, item))
            .count()
    }
}

impl<R: Keyed + Copy> KeptList<'_, R> {
    // The place of the first record that goes by a number.
    pub fn find(&self, key: u32) -> Option<usize>
        ensures { result ≡ position (λ x. R.Keyed.answers x key) (standing self.now) }
    {
        self.standing()
            .iter()
            .position(|record| record.answers_to(key))
    }
}

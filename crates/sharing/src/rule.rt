// The sharing rule: its meaning, what it owes, and its call.
ghost use Rattle.std.specs.Prelude.{◌≡◌, ℕ, List, length};
ghost use Rattle.sharing.specs.Rule.{Inputs, Lawful};
ghost use Rattle.sharing.specs.Asking.{inputs_of};

use crate::asked::Asked;

// A sharing rule divides contracts among the entries of one class at one price. Its meaning is a fixed table: from its state and
// the inputs, one share for each entry and the next state.
pub trait SharingRule: Sized {
    ghost shares: { Self → Inputs → List ℕ };

    ghost next: { Self → Inputs → Self };

    // Writes one share for each entry and goes on to the next state.
    fn share(&mut self, asked: Asked<'_>, out: &mut [u32])
        requires { length out.old ≡ length asked.sizes.now }
        ensures shares { out.new ≡ shares self.old (inputs_of asked.entry) }
        ensures next { self.new ≡ next self.old (inputs_of asked.entry) };

    // no share exceeds its size, all is shared unless the sizes run out, and with nothing to share the state stays
    ghost keeps: { Lawful shares next };
}

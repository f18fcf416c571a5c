// Time order, the customers' rule.
ghost use Rattle.sharing.specs.TimeOrder.{in_time};
ghost use Rattle.std.specs.Prelude.{refl};
ghost use Rattle.sharing.specs.InTime.{time_fair};

use crate::asked::Asked;
use crate::rule::SharingRule;

// Each entry in list order takes the lesser of its size and what remains. It has no state.
#[derive(Clone, Copy, Default, PartialEq, Eq, Debug)]
pub struct TimeOrder;

impl SharingRule for TimeOrder {
    ghost shares = { λ s i. in_time i.number i.sizes };

    ghost next = { λ s i. s };

    ghost keeps = { record { fair = λ s i v. time_fair i.number i.sizes; still = λ s i v e. refl } };

    fn share(&mut self, asked: Asked<'_>, out: &mut [u32]) {
        let mut left = asked.number;
        // by index: when a `zip` over `iter_mut` is done, a proof knows nothing of what it wrote
        for (i, &size) in asked.sizes.iter().enumerate() {
            let takes = size.min(left);
            out[i] = takes;
            left -= takes;
        }
    }
}

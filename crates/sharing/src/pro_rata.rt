// Pro rata by arrival, the firms' rule.
ghost use Rattle.sharing.specs.ProRata.{pro_rata};
ghost use Rattle.std.specs.Prelude.{refl};
ghost use Rattle.sharing.specs.BySize.{pro_rata_fair};

use crate::asked::Asked;
use crate::by_size::{give_one_each, plain_shares};
use crate::rule::SharingRule;
use terms::sum;

// Each entry takes its part by size, rounded down, and leftovers go one each in list order. It has no state.
#[derive(Clone, Copy, Default, PartialEq, Eq, Debug)]
pub struct ProRata;

impl SharingRule for ProRata {
    ghost shares = { λ s i. pro_rata i.number i.sizes };

    ghost next = { λ s i. s };

    ghost keeps = { record { fair = λ s i v. pro_rata_fair i.number i.sizes v.sized; still = λ s i v e. refl } };

    fn share(&mut self, asked: Asked<'_>, out: &mut [u32]) {
        let total = sum(asked.sizes);
        if asked.number >= total {
            out.copy_from_slice(asked.sizes);
            return;
        }
        plain_shares(asked.number, total, asked.sizes, out);
        let left = asked.number - sum(out);
        give_one_each(left, asked.sizes, out);
    }
}

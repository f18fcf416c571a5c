// Ten shares worked by hand.
ghost use Rattle.std.specs.Prelude.{◌≡◌, length};
ghost use Rattle.sharing.specs.Worked.{WorkedShares, by_hand};

// The rules give what was worked out by hand, in every one of so many cases.
pub fn worked_shares() -> usize
    ensures count { result ≡ length by_hand }
    ensures agree { WorkedShares }
{
    10
}

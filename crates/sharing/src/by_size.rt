// Shares by size, and leftovers in list order: what pro rata and the draw rule have in common.
ghost use Rattle.std.specs.Prelude.{◌≡◌, ◌*◌, ◌/◌, ◌<◌, ◌≤◌, length};
ghost use Rattle.sharing.specs.ProRata.{plain, one_each};

// The part of `number` that a size has of the total, rounded down.
pub(crate) fn part(size: u32, number: u32, total: u32) -> u32
    requires { (number ≤ total) × (0 < total) }
    ensures { result ≡ size * number / total }
{
    (size as u64 * number as u64 / total as u64) as u32
}

// Writes the plain share of each size.
pub(crate) fn plain_shares(number: u32, total: u32, sizes: &[u32], out: &mut [u32])
    requires { (number ≤ total) × ((0 < total) × (length out.old ≡ length sizes.now)) }
    ensures { out.new ≡ plain number total sizes.now }
{
    // by index: when a `zip` over `iter_mut` is done, a proof knows nothing of what it wrote
    for (i, &size) in sizes.iter().enumerate() {
        out[i] = part(size, number, total);
    }
}

// Gives one contract more to each share below its size, in list order, while leftovers last.
pub(crate) fn give_one_each(left: u32, sizes: &[u32], shares: &mut [u32])
    requires { length shares.old ≡ length sizes.now }
    ensures { shares.new ≡ one_each left sizes.now shares.old }
{
    let mut left = left;
    // by index, as above
    for (i, &size) in sizes.iter().enumerate() {
        if left > 0 && shares[i] < size {
            shares[i] += 1;
            left -= 1;
        }
    }
}

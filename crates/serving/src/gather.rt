// What a rule is told of the records at a price.
ghost use Rattle.std.specs.Prelude.{◌≡◌, map, length};
ghost use Rattle.model.specs.Tables.{holders_of, sizes_of};

use kept::Standing;

// The holders and sizes of the records, each at its record's place.
pub(crate) fn gather<R: Standing + Copy>(records: &[R], holders: &mut [u32], sizes: &mut [u32])
    requires { (length holders.old ≡ length records.now) × (length sizes.old ≡ length records.now) }
    ensures holders { holders.new ≡ holders_of (map R.Standing.shown records.now) }
    ensures sizes { sizes.new ≡ sizes_of (map R.Standing.shown records.now) }
{
    // the rows that are written by index, for the same reason as in `lower_each`
    for (i, record) in records.iter().enumerate() {
        holders[i] = record.holder();
        sizes[i] = record.left();
    }
}

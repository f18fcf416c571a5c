// Compaction: records without contracts leave a row, and the others move together.
ghost use Rattle.std.specs.Prelude.{◌≡◌, ◌≤◌, length, take, filter};
ghost use Rattle.trade.specs.Compaction.{Compacts, has_left};

use kept::{Standing, clear};

// Moves the records that have contracts left to the front, in their order, and says how many they are.
fn gather_standing<R: Standing + Copy>(records: &mut [R]) -> usize
    ensures few { result ≤ length records.old }
    ensures stand { take result records.new ≡ filter (has_left R.Standing.shown) records.old }
{
    let mut count = 0;
    // the row is read at one place and written at another, so no record can be borrowed while the loop goes on
    for i in 0..records.len() {
        let standing = records[i];
        if standing.left() > 0 {
            records[count] = standing;
            count += 1;
        }
    }
    count
}

// Records without contracts leave, and the places that they free are blank. Returns how many records then stand.
pub(crate) fn compact<R: Standing + Copy>(records: &mut [R]) -> usize
    ensures { Compacts R.Standing.shown R.Ranked.cleared records.old result records.new }
{
    let count = gather_standing(records);
    clear(&mut records[count..]);
    count
}

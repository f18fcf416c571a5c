// Examples: what is written is read back, and rows that are no written block are refused.
use crate::{Fill, MAKER_BLOCK, add, clear, read};
use std::test::Fail;

const FIRST: Fill = Fill {
    holder: 10,
    contracts: 15,
};

const SECOND: Fill = Fill {
    holder: 20,
    contracts: 18,
};

// Clears a row and adds both fills.
fn write_both(row: &mut [u32]) {
    let _ = clear(row);
    let _ = add(row, FIRST);
    let _ = add(row, SECOND);
}

// The number by which a row is refused, 0 where it is read.
fn refusal_of(row: &[u32]) -> u32 {
    match read(row) {
        Ok(_) => 0,
        Err(refusal) => refusal.number(),
    }
}

#[test]
fn two_fills_read_back(rt: HostRuntime) -> Result<(), Fail> {
    let mut block = [7; MAKER_BLOCK];
    write_both(&mut block);
    let Ok(written) = read(&block) else {
        return Err(Fail::new("refused"));
    };
    assert_eq!(rt; (written.count(), written.total()), (2, 33));
    assert_eq!(rt; written.fill(1), Some(SECOND));
    Ok(())
}

#[test]
fn a_block_has_its_length(rt: HostRuntime) {
    assert_eq!(rt; refusal_of(&[0; 35]), 16);
}

#[test]
fn the_total_is_that_of_the_fills(rt: HostRuntime) {
    let mut block = [0; MAKER_BLOCK];
    write_both(&mut block);
    block[1] = 34;
    assert_eq!(rt; refusal_of(&block), 17);
}

#[test]
fn no_holder_stands_twice(rt: HostRuntime) {
    let mut block = [0; MAKER_BLOCK];
    write_both(&mut block);
    block[3] = 10;
    assert_eq!(rt; refusal_of(&block), 17);
}

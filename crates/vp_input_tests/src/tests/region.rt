//! Slices of one block, side by side and one carving after another.

use std::test::Fail;
use vp_region::Region;

#[test]
fn ten_words_are_handed_out_once(rt: HostRuntime) -> Result<(), Fail> {
    let mut region = Region::open(rt.alloc(), 10)?;
    let mut carver = region.carve();
    let four = carver.take(4).ok_or("four of ten words")?;
    assert_eq!(rt; four.len(), 4);
    assert_eq!(rt; carver.rest(), 6);
    assert!(rt; carver.take(7).is_none());
    assert_eq!(rt; carver.rest(), 6);
    let six = carver.take(6).ok_or("the other six")?;
    six[5] = 9;
    assert_eq!(rt; six.len(), 6);
    let none = carver.take(0).ok_or("no words")?;
    assert_eq!(rt; none.len(), 0);
    assert_eq!(rt; four[3] + six[5], 9);
    Ok(())
}

#[test]
fn a_second_carving_is_zeros_again(rt: HostRuntime) -> Result<(), Fail> {
    let mut region = Region::open(rt.alloc(), 3)?;
    let first = region.carve().take(3).ok_or("three words")?;
    first[2] = 7;
    let second = region.carve().take(3).ok_or("three words again")?;
    assert_eq!(rt; second[2], 0);
    Ok(())
}

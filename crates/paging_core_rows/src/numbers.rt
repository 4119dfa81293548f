//! The calls with memory at hand, over one level and over three.

use crate::checks::same;
use number_set::NumberSet;
use std::test::Fail;

#[test]
fn finds_the_lowest_over_three_levels(rt: HostRuntime) -> Result<(), Fail> {
    let mut set = NumberSet::new(rt.alloc(), 5000)?;
    same(&rt, set.bound(), 5000);
    same(&rt, set.lowest(), None);
    // A number goes in, and then the lowest and the count are these.
    for (number, lowest, len) in [
        (4999, 4999, 1),
        (4096, 4096, 2),
        (64, 64, 3),
        (64, 64, 3),
        (63, 63, 4),
        (4097, 63, 5),
    ] {
        if number < set.bound() {
            set.insert(number);
        }
        same(&rt, set.lowest(), Some(lowest));
        same(&rt, set.len(), len);
    }
    // A number goes out, and then the lowest and the count are these.
    for (number, lowest, len) in [
        (63, Some(64), 4),
        (64, Some(4096), 3),
        (64, Some(4096), 3),
        (4999, Some(4096), 2),
        (4096, Some(4097), 1),
        (4097, None, 0),
    ] {
        if number < set.bound() {
            set.remove(number);
        }
        same(&rt, set.lowest(), lowest);
        same(&rt, set.len(), len);
    }
    assert!(rt; set.is_empty());
    Ok(())
}

#[test]
fn gives_a_full_set_in_order(rt: HostRuntime) -> Result<(), Fail> {
    for bound in [0, 1, 63, 64, 65, 4096, 4097] {
        let mut set = NumberSet::full(rt.alloc(), bound)?;
        same(&rt, set.len(), bound);
        for number in 0..bound {
            same(&rt, set.lowest(), Some(number));
            if number < set.bound() {
                assert!(rt; set.contains(number));
                set.remove(number);
            }
        }
        assert!(rt; set.is_empty());
    }
    Ok(())
}

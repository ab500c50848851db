//! What windows admit, and their reach.
//!
//! A reach may admit a box that its window doesn't: then the window admits some box within it.

use rt_box::{Operator, Rect, Window};
use std::test::Fail;

/// Comparisons, of a box's `hi` or else its `lo`; and whether the window of just that one admits the box from 0 to 5, and
/// its reach does.
const ANSWERS: [(bool, Operator, i64, (bool, bool)); 14] = [
    (true, Operator::Ge, 5, (true, true)),
    (true, Operator::Gt, 5, (false, false)),
    (false, Operator::Le, 0, (true, true)),
    (false, Operator::Lt, 0, (false, false)),
    (false, Operator::Eq, 3, (false, true)),
    (false, Operator::Ne, 0, (true, true)),
    (true, Operator::Le, 4, (false, true)),
    (true, Operator::Lt, 0, (false, false)),
    // The ends of 64 bits, and of 32.
    (false, Operator::Gt, i64::MIN, (true, true)),
    (false, Operator::Lt, i64::MIN, (false, false)),
    (true, Operator::Lt, i64::MAX, (true, true)),
    (true, Operator::Gt, i64::MAX, (false, false)),
    (false, Operator::Eq, i64::MAX, (false, false)),
    (false, Operator::Ge, -2_147_483_648, (true, true)),
];

#[test]
fn a_window_and_its_reach_compare_each_way(rt: HostRuntime) -> Result<(), Fail> {
    let rect = Rect::new([0], [5]).ok_or("no box")?;
    for (is_hi, op, value, wanted) in ANSWERS {
        let mut window = Window::<1>::all();
        window.narrow(if is_hi { 1 } else { 0 }, op, value);
        assert!(rt;
            (window.admits(&rect), window.reach().admits(&rect)) == wanted,
            "{value}"
        );
    }
    Ok(())
}

#[test]
fn a_window_needs_every_axis(rt: HostRuntime) -> Result<(), Fail> {
    let rect = Rect::new([0, 10, i32::MIN], [9, 12, i32::MAX]).ok_or("no box")?;
    let mut window = Window::<3>::all();
    assert!(rt; window.admits(&rect));
    window.narrow(5, Operator::Ge, i64::from(i32::MAX));
    assert!(rt; window.admits(&rect));
    window.narrow(2, Operator::Gt, 10);
    assert!(rt; !window.admits(&rect) && window.reach().admits(&rect));
    window.narrow(3, Operator::Lt, 11);
    assert!(rt; !window.reach().admits(&rect));
    Ok(())
}

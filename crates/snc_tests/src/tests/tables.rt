//! Marks at both ends of words and in the last one, rows of keys, and what is not there.

use snl_vm::{Marks, Rows};
use std::alloc::AllocError;

/// Places that are marked one after another among 130, and the first marked place from one on after that.
const MARKED: [(usize, usize, Option<usize>); 8] = [
    (129, 0, Some(129)),
    (64, 0, Some(64)),
    (63, 0, Some(63)),
    (3, 0, Some(3)),
    (130, 130, None),
    (3, 4, Some(63)),
    (3, 64, Some(64)),
    (3, 65, Some(129)),
];

#[test]
fn first_marks(rt: HostRuntime) -> Result<(), AllocError> {
    let mut marks = Marks::new(rt.alloc(), 130)?;
    assert!(rt; marks.first_from(0).is_none(), "none at first");
    for (place, from, first) in MARKED {
        marks.mark(place);
        assert!(rt; marks.first_from(from) == first, "{place}, from {from}");
    }
    assert!(rt; marks.is_marked(64) && !marks.is_marked(65), "64 alone");
    marks.unmark(64);
    assert!(rt; !marks.is_marked(64) && marks.is_marked(63), "63 alone");
    assert!(rt; marks.first_from(64) == Some(129), "from 64");
    assert!(rt;
        !marks.is_marked(130) && marks.first_from(130).is_none(),
        "beyond"
    );
    Ok(())
}

#[test]
fn rows_of_keys(rt: HostRuntime) -> Result<(), AllocError> {
    let rows = Rows::new(rt.alloc(), &[Some(1), None, Some(3), Some(1), Some(0)])?;
    assert!(rt; rows.row(0) == [4usize].as_slice(), "0");
    assert!(rt; rows.row(1) == [0usize, 3].as_slice(), "1");
    assert!(rt; rows.row(2).is_empty(), "2");
    assert!(rt; rows.row(3) == [2usize].as_slice(), "3");
    assert!(rt; rows.row(4).is_empty(), "4");
    Ok(())
}

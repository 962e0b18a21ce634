//! Worked rows of finders: which boxes meet a box, and which stand in a bucket.

use samr_box::{IBox, IVec};
use samr_find::Finder;
use std::alloc::{AllocError, Global};
use std::test::Fail;

/// A box of the plane k = 0.
fn flat(i: i64, j: i64, last_i: i64, last_j: i64) -> Option<IBox> {
    IBox::new(IVec::new(i, j, 0), IVec::new(last_i, last_j, 0))
}

fn finder(alloc: Global, corners: &[(i64, i64, i64, i64)]) -> Result<Finder, AllocError> {
    let mut boxes = Vec::new(alloc);
    for (i, j, last_i, last_j) in corners {
        if let Some(b) = flat(*i, *j, *last_i, *last_j) {
            boxes.push(b)?;
        }
    }
    if boxes.len() > 8 {
        return Err(AllocError);
    }
    Finder::new(alloc, boxes)
}

#[test]
fn finds_the_boxes_that_meet(rt: HostRuntime) -> Result<(), Fail> {
    let alloc = rt.alloc();
    let two = finder(alloc, &[(0, 0, 3, 3), (4, 0, 7, 3)])?;
    let rows: [((i64, i64, i64, i64), &[u32]); 5] = [
        ((3, 0, 4, 0), &[0, 1]),
        ((0, 0, 3, 3), &[0]),
        ((4, 3, 9, 9), &[1]),
        ((-5, -5, -1, 9), &[]),
        ((-1000, -1000, 1000, 1000), &[0, 1]),
    ];
    for ((i, j, last_i, last_j), places) in rows {
        let Some(query) = flat(i, j, last_i, last_j) else {
            continue;
        };
        assert_eq!(rt; two.meeting(alloc, query)?.as_slice(), places);
    }
    Ok(())
}

#[test]
fn buckets_have_the_greatest_lengths(rt: HostRuntime) -> Result<(), Fail> {
    let alloc = rt.alloc();
    let two = finder(alloc, &[(0, 0, 3, 3), (4, 0, 7, 3)])?;
    assert_eq!(rt; two.edge(), IVec::new(4, 4, 1));
    let one = finder(alloc, &[(-1, 0, 2, 0)])?;
    let none = finder(alloc, &[])?;
    assert_eq!(rt; none.edge(), IVec::new(1, 1, 1));
    let rows: [(&Finder, i64, &[u32]); 7] = [
        (&two, 4, &[1]),
        (&two, 0, &[0]),
        (&two, 8, &[]),
        (&one, -4, &[0]),
        (&one, 3, &[0]),
        (&one, 4, &[]),
        (&none, 0, &[]),
    ];
    for (finder, i, places) in rows {
        assert_eq!(rt; finder.bucket(IVec::new(i, 0, 0)), places, "{i}");
    }
    Ok(())
}

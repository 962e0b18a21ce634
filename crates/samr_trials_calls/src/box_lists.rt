//! Worked rows of lists of boxes: cuts, covers, pieces and order.

use crate::planes::{Corners, flat, flats};
use samr_box::{IBox, IVec};
use samr_boxlist::{
    chopped, covers, disjoint, grown, in_corner_order, intersect, subtract, subtract_each,
};
use std::test::Fail;

const LEAST: i64 = -1_073_741_824;

const GREATEST: i64 = 1_073_741_824;

#[test]
fn subtracted(rt: HostRuntime) -> Result<(), Fail> {
    let square = ((0, 0), (3, 3));
    let rows: [(Corners, Corners, &[Corners]); 4] = [
        (
            square,
            ((1, 1), (2, 2)),
            &[
                ((0, 0), (0, 3)),
                ((3, 0), (3, 3)),
                ((1, 0), (2, 0)),
                ((1, 3), (2, 3)),
            ],
        ),
        (((0, 0), (1, 1)), ((5, 5), (6, 6)), &[((0, 0), (1, 1))]),
        (square, square, &[]),
        (
            ((LEAST, 0), (GREATEST, 0)),
            ((LEAST, 0), (LEAST, 0)),
            &[((LEAST + 1, 0), (GREATEST, 0))],
        ),
    ];
    for (from, away, left) in rows {
        let list = flats(rt.alloc(), [from].as_slice())?;
        let result = subtract(rt.alloc(), list.as_slice(), flat(away)?)?;
        assert_eq!(rt; result.as_slice(), flats(rt.alloc(), left)?.as_slice());
    }
    Ok(())
}

#[test]
fn worked_rows(rt: HostRuntime) -> Result<(), Fail> {
    let halves = flats(rt.alloc(), [((0, 0), (3, 3)), ((4, 0), (7, 3))].as_slice())?;
    let middle = flat(((3, 1), (4, 1)))?;
    let common = intersect(rt.alloc(), halves.as_slice(), middle)?;
    let expected = flats(rt.alloc(), [((3, 1), (3, 1)), ((4, 1), (4, 1))].as_slice())?;
    assert_eq!(rt; common.as_slice(), expected.as_slice());

    let squares = flats(rt.alloc(), [((0, 0), (1, 1)), ((2, 0), (3, 1))].as_slice())?;
    assert!(rt; covers(rt.alloc(), squares.as_slice(), flat(((1, 0), (2, 1)))?)?);
    assert!(rt; !covers(rt.alloc(), squares.as_slice(), flat(((1, 0), (2, 2)))?)?);
    let none: Vec<IBox> = Vec::new(rt.alloc());
    assert!(rt; !covers(rt.alloc(), none.as_slice(), middle)?);
    assert!(rt; disjoint(squares.as_slice()));
    let touching = flats(rt.alloc(), [((0, 0), (1, 1)), ((1, 1), (2, 2))].as_slice())?;
    assert!(rt; !disjoint(touching.as_slice()));
    let left = subtract_each(rt.alloc(), touching, squares.as_slice())?;
    let rest = flats(rt.alloc(), [((2, 2), (2, 2)), ((1, 2), (1, 2))].as_slice())?;
    assert_eq!(rt; left.as_slice(), rest.as_slice());

    let pair = flats(rt.alloc(), [((0, 4), (3, 7)), ((4, 0), (7, 3))].as_slice())?;
    let ordered = flats(rt.alloc(), [((4, 0), (7, 3)), ((0, 4), (3, 7))].as_slice())?;
    assert_eq!(rt;
        in_corner_order(rt.alloc(), pair)?.as_slice(),
        ordered.as_slice()
    );
    Ok(())
}

#[test]
fn pieces(rt: HostRuntime) -> Result<(), Fail> {
    let row = flats(rt.alloc(), [((0, 0), (4, 0))].as_slice())?;
    let parts = flats(
        rt.alloc(),
        [((0, 0), (1, 0)), ((2, 0), (3, 0)), ((4, 0), (4, 0))].as_slice(),
    )?;
    assert_eq!(rt;
        chopped(rt.alloc(), row.as_slice(), 2)?.as_slice(),
        parts.as_slice()
    );
    let long = flats(rt.alloc(), [((LEAST, 0), (GREATEST, 0))].as_slice())?;
    assert_eq!(rt;
        chopped(rt.alloc(), long.as_slice(), i64::MAX)?.as_slice(),
        long.as_slice()
    );

    let corner = IVec { k: 0, j: 0, i: 0 };
    let cell = IBox {
        lo: corner,
        hi: corner,
    };
    let wider = grown(rt.alloc(), [cell].as_slice(), IVec { k: 0, j: 2, i: 1 })?;
    assert_eq!(rt;
        wider.as_slice(),
        flats(rt.alloc(), [((-1, -2), (1, 2))].as_slice())?.as_slice()
    );
    Ok(())
}

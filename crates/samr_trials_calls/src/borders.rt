//! Worked rows of turns: cells near a frame, and the cells to which they wrap.

use samr_border::turns;
use samr_box::{Domain, Flags, IVec, Shift, wrap};
use std::test::Fail;

/// The domain of 8 x 4 x 2 cells, periodic on the axes i and k.
fn domain() -> Option<Domain> {
    Domain::new(
        IVec::new(8, 4, 2),
        Flags {
            k: true,
            j: false,
            i: true,
        },
    )
}

/// Cells, given as (i, j, k), the shifts of the images that have them, and the cells to which they wrap.
#[test]
fn cells_near_the_frame_lead_home(rt: HostRuntime) -> Result<(), Fail> {
    let rows = [
        ((0, 0, 0), (0, 0, 0), (0, 0, 0)),
        ((7, 3, 1), (0, 0, 0), (7, 3, 1)),
        ((-1, 0, 0), (-1, 0, 0), (7, 0, 0)),
        ((-8, 0, 0), (-1, 0, 0), (0, 0, 0)),
        ((8, 0, 0), (1, 0, 0), (0, 0, 0)),
        ((15, 0, 0), (1, 0, 0), (7, 0, 0)),
        ((3, -1, 0), (0, 0, 0), (3, -1, 0)),
        ((3, 4, 0), (0, 0, 0), (3, 4, 0)),
        ((-2, 1, 3), (-1, 0, 1), (6, 1, 1)),
        ((9, -3, -2), (1, 0, -1), (1, -3, 0)),
    ];
    let Some(d) = domain() else {
        return Ok(());
    };
    for (cell, shift, home) in rows {
        let x = IVec::new(cell.0, cell.1, cell.2);
        let s = turns(&d, x);
        assert_eq!(rt; Shift::new(shift.0, shift.1, shift.2), Some(s), "{x:?}");
        assert_eq!(rt; wrap(&d, x), IVec::new(home.0, home.1, home.2), "{x:?}");
    }
    Ok(())
}

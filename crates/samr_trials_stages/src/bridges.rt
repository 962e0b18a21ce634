//! Bridges on all ranks: pairs that no centre box meets both of, round a border, and drawn levels of all ratios.

use crate::levels::{
    ALONG_I, ALONG_I_AND_J, NO_AXIS, NOTHING, ONES, Side, all_fit, are_comparable, blocks, domain,
    drawn, level_of, owned, pairs_between, ratio, same_as_compared,
};
use samr_box::{Domain, Flags, IVec, Ratio, Shift};
use samr_bridge::bridge_all;
use samr_level::{Edge, Pair};
use samr_trials_levels::is_width;
use std::alloc::{AllocError as NoMemory, Global};
use std::process::Abort;
use std::test::Fail;

/// The bridge on all ranks by way of their letters: `None` where a width, a frame or an owner is not
/// fit for it. The widths are the wanted one, that of east and centre, and that of centre and west.
fn bridged(
    alloc: Global,
    ranks: u16,
    d: &Domain,
    east: &Side,
    centre: &Side,
    west: &Side,
    width: IVec,
    east_width: IVec,
    west_width: IVec,
) -> Result<Option<Vec<Pair>>, NoMemory> {
    if !is_width(width) {
        return Ok(None);
    }
    if !is_width(east_width) {
        return Ok(None);
    }
    if !is_width(west_width) {
        return Ok(None);
    }
    if !are_comparable(d, east, centre) {
        return Ok(None);
    }
    if !are_comparable(d, centre, west) {
        return Ok(None);
    }
    if !are_comparable(d, east, west) {
        return Ok(None);
    }
    if !all_fit(ranks, east.boxes.as_slice()) {
        return Ok(None);
    }
    if !all_fit(ranks, centre.boxes.as_slice()) {
        return Ok(None);
    }
    if !all_fit(ranks, west.boxes.as_slice()) {
        return Ok(None);
    }
    let east_pairs = pairs_between(alloc, ranks, d, east_width, east, centre)?;
    let west_pairs = pairs_between(alloc, ranks, d, west_width, centre, west)?;
    let pairs = bridge_all(
        alloc,
        d,
        east_pairs.as_slice(),
        west_pairs.as_slice(),
        width,
    )?;
    Ok(Some(pairs))
}

#[test]
fn found_though_no_centre_box_meets_both(rt: HostRuntime) -> Result<(), Fail> {
    let alloc = rt.alloc();
    let d = domain(&rt, IVec::new(16, 4, 1), NO_AXIS);
    let fine = ratio(&rt, 2, 2, 1);
    let e = owned(&rt, 0, IVec::new(14, 0, 0), IVec::new(15, 7, 0));
    let w = owned(&rt, 0, IVec::new(16, 0, 0), IVec::new(17, 7, 0));
    let left = owned(&rt, 0, IVec::new(0, 0, 0), IVec::new(7, 3, 0));
    let right = owned(&rt, 0, IVec::new(8, 0, 0), IVec::new(15, 3, 0));
    let east = level_of(alloc, fine, [e].as_slice())?;
    let west = level_of(alloc, fine, [w].as_slice())?;
    let centre = level_of(alloc, ratio(&rt, 1, 1, 1), [left, right].as_slice())?;
    let made = bridged(alloc, 1, &d, &east, &centre, &west, ONES, NOTHING, ONES)?;
    let pairs = made.expect(&rt, "fit");
    assert!(rt; pairs.len() == 1);
    let here = Shift { k: 0, j: 0, i: 0 };
    let edge = Edge {
        base: e,
        head: w,
        shift: here,
    };
    assert!(rt; pairs[0].forth.edges.as_slice() == [edge].as_slice());
    assert!(rt; pairs[0].back.edges.as_slice() == [edge.turned()].as_slice());
    Ok(())
}

#[test]
fn found_round_a_border_by_another_rank(rt: HostRuntime) -> Result<(), Fail> {
    let alloc = rt.alloc();
    let d = domain(&rt, IVec::new(4, 4, 1), ALONG_I);
    let alike = ratio(&rt, 1, 1, 1);
    let e = owned(&rt, 0, IVec::new(0, 0, 0), IVec::new(0, 3, 0));
    let w = owned(&rt, 1, IVec::new(3, 0, 0), IVec::new(3, 3, 0));
    let c = owned(&rt, 0, IVec::new(0, 0, 0), IVec::new(3, 3, 0));
    let east = level_of(alloc, alike, [e].as_slice())?;
    let centre = level_of(alloc, alike, [c].as_slice())?;
    let west = level_of(alloc, alike, [w].as_slice())?;
    let made = bridged(alloc, 2, &d, &east, &centre, &west, ONES, ONES, ONES)?;
    let pairs = made.expect(&rt, "fit");
    assert!(rt; pairs.len() == 2);
    let forth = Edge {
        base: e,
        head: w,
        shift: Shift { k: 0, j: 0, i: -1 },
    };
    let back = Edge {
        base: w,
        head: e,
        shift: Shift { k: 0, j: 0, i: 1 },
    };
    assert!(rt; pairs[0].forth.edges.as_slice() == [forth].as_slice());
    assert!(rt; pairs[0].back.edges.as_slice().is_empty());
    assert!(rt; pairs[1].forth.edges.as_slice().is_empty());
    assert!(rt; pairs[1].back.edges.as_slice() == [back].as_slice());
    Ok(())
}

/// Bridges of drawn levels on one to five ranks, with the ratios of east, centre and west, the wanted width and that
/// of centre and west.
fn draw(
    rt: &impl Abort,
    alloc: Global,
    periodic: Flags,
    ratios: [Ratio; 3],
    width: IVec,
    west_width: IVec,
) -> Result<bool, NoMemory> {
    let d = domain(rt, IVec::new(4, 2, 2), periodic);
    let size = IVec::new(1, 1, 2);
    let mut same = true;
    for ranks in 1..6u16 {
        let seed = drawn(97, u32::from(ranks));
        let kept = seed | 0b1001_0110;
        let centre = blocks(rt, alloc, ranks, seed, kept, size, ratios[1])?;
        let kept = seed & 0b1101_1101;
        let east = blocks(rt, alloc, ranks, seed ^ 5, kept, size, ratios[0])?;
        let kept = drawn(seed, 3) | 0b1000_0001;
        let west = blocks(rt, alloc, ranks, seed ^ 9, kept, size, ratios[2])?;
        let made = bridged(
            alloc, ranks, &d, &east, &centre, &west, width, NOTHING, west_width,
        )?;
        let pairs = made.expect(rt, "fit");
        same = same && same_as_compared(alloc, ranks, &d, width, &east, &west, pairs.as_slice())?;
    }
    Ok(same)
}

#[test]
fn drawn_bridges_of_all_ratios(rt: HostRuntime) -> Result<(), Fail> {
    let alloc = rt.alloc();
    let one = ratio(&rt, 1, 1, 1);
    let some = ratio(&rt, 2, 3, 4);
    let more = ratio(&rt, 6, 6, 8);
    let wide = IVec::new(4, 2, 1);
    let narrow = IVec::new(3, 1, 2);
    let less = IVec::new(2, 1, 1);
    // west coarser than the centre, at a width of the domain's lengths
    assert!(rt; draw(&rt, alloc, ALONG_I_AND_J, [more, some, one], wide, wide)?);
    // west between centre and east
    assert!(rt; draw(&rt, alloc, ALONG_I, [more, one, some], narrow, less)?);
    // west finer than the east
    assert!(rt; draw(&rt, alloc, ALONG_I_AND_J, [some, one, more], narrow, less)?);
    Ok(())
}

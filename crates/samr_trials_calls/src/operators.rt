//! Worked rows of the rules: walks beyond borders, and values that are refined, updated and coarsened.

ghost use Rattle.std.specs.Prelude.{◌≡◌, ◌<◌, ◌*◌, pos};
ghost use Rattle.samr_box.specs.Vector.{alike, AtMost};
ghost use Rattle.samr_box.specs.Corners.{Holds, grown};
ghost use Rattle.samr_box.specs.Space.{whole};
ghost use Rattle.samr_ops.specs.Rules.{IsRules, IsOffset, refined_value, edge_of, updated_value};
ghost use Rattle.samr_ops.specs.Kept.{KeepsRefine, KeepsBoundary, KeepsUpdate};
ghost use Rattle.samr_ops.specs.Worked.{of_each_kind, flat_rules, ramp_rules};

use samr_box::{Axis, Domain, Flags, IBox, IVec, contains, grow};
use samr_ops::{
    Border, Bounds, CoarsenRule, Edgewise, RefineRule, Refines, Rule, Rules, Strategy, Updates,
    coarsen_values, edge, refined, updated,
};
use std::process::Abort;
use std::test::Fail;

const NOTHING: IVec = IVec { k: 0, j: 0, i: 0 };

const GREATEST: IVec = IVec {
    k: 1_000,
    j: 1_000,
    i: 1_000,
};

/// The rules of a worked row with a rule of each kind.
fn of_each_kind() -> Rules
    ensures value { result ≡ of_each_kind }
    ensures ranges { IsRules result }
{
    Rules {
        modulus: 1_000,
        width: IVec { k: 2, j: 2, i: 2 },
        centre: 1,
        face: 1,
        refine: RefineRule::Same,
        boundary: Border {
            i: Rule::Fixed(9),
            j: Rule::Clamp,
            k: Rule::Reflect,
        },
    }
}

/// The rules of a worked row on two axes.
fn flat_rules() -> Rules
    ensures value { result ≡ flat_rules }
    ensures ranges { IsRules result }
{
    Rules {
        modulus: 1_000,
        width: IVec { k: 0, j: 1, i: 1 },
        centre: 1,
        face: 1,
        refine: RefineRule::Same,
        boundary: Border {
            i: Rule::Fixed(9),
            j: Rule::Reflect,
            k: Rule::Clamp,
        },
    }
}

/// Rules with a small modulus.
fn ramp_rules() -> Rules
    ensures value { result ≡ ramp_rules }
    ensures ranges { IsRules result }
{
    Rules {
        modulus: 10,
        width: NOTHING,
        centre: 2,
        face: 3,
        refine: RefineRule::Ramp,
        boundary: Border {
            i: Rule::Clamp,
            j: Rule::Clamp,
            k: Rule::Clamp,
        },
    }
}

/// A domain of these lengths with physical borders.
fn bounded(rt: &impl Abort, i: i64, j: i64, k: i64) -> Domain {
    let physical = Flags {
        k: false,
        j: false,
        i: false,
    };
    Domain::new(IVec::new(i, j, k), physical).expect(rt, "a domain")
}

/// The cells of a small domain and so many cells about it.
fn surroundings(d: &Domain, width: IVec) -> IBox
    requires positive { AtMost (alike (pos 0)) width }
    requires narrow { AtMost width (alike (pos 1000)) }
    requires small { AtMost d.now.size (alike (pos 1000)) }
    ensures { result ≡ grown (whole d.now) width }
{
    let _ = &d.size;
    grow(d.whole(), width)
}

/// Where the walk of a cell ends that lies near the domain.
fn ask<R: Refines, B: Bounds, U: Updates>(
    strategy: &Strategy<R, B, U>,
    d: &Domain,
    near: IBox,
    x: IVec,
) -> Result<IVec, u32>
    requires near { near ≡ grown (whole d.now) strategy.now.width }
    requires held { Holds near x }
{
    strategy.outside(d, x)
}

/// Where the walk of a cell ends.
fn walk<R: Refines, B: Bounds, U: Updates>(
    rt: &impl Abort,
    strategy: &Strategy<R, B, U>,
    d: &Domain,
    x: IVec,
) -> Result<IVec, u32> {
    let width = strategy.rules().width;
    assert!(rt; NOTHING.at_most(width));
    assert!(rt; width.at_most(GREATEST));
    assert!(rt; d.size.at_most(GREATEST));
    let near = surroundings(d, width);
    assert!(rt; contains(near, x));
    ask(strategy, d, near, x)
}

/// The rows of one strategy.
fn rows<R: Refines, B: Bounds, U: Updates>(rt: &impl Abort, strategy: &Strategy<R, B, U>) {
    if strategy.rules() == of_each_kind() {
        let d = bounded(rt, 4, 4, 4);
        assert_eq!(rt;
            walk(rt, strategy, &d, IVec::new(1, -2, 5)),
            Ok(IVec::new(1, 0, 2))
        );
        assert_eq!(rt; walk(rt, strategy, &d, IVec::new(4, -1, 0)), Err(9));
        assert_eq!(rt;
            walk(rt, strategy, &d, IVec::new(0, 4, -2)),
            Ok(IVec::new(0, 3, 1))
        );
        assert_eq!(rt;
            walk(rt, strategy, &d, IVec::new(3, 0, 2)),
            Ok(IVec::new(3, 0, 2))
        );
    }
    if strategy.rules() == flat_rules() {
        let d = bounded(rt, 2, 2, 1);
        assert_eq!(rt; walk(rt, strategy, &d, IVec::new(-1, -1, 0)), Err(9));
        assert_eq!(rt;
            walk(rt, strategy, &d, IVec::new(0, -1, 0)),
            Ok(IVec::new(0, 0, 0))
        );
        assert_eq!(rt;
            walk(rt, strategy, &d, IVec::new(1, 2, 0)),
            Ok(IVec::new(1, 1, 0))
        );
    }
}

/// A strategy of these closures, asked for its rows.
fn try_rows<R: Refines + Drop, B: Bounds + Drop, U: Updates + Drop>(
    rt: &impl Abort,
    rules: Rules,
    refine: R,
    boundary: B,
    update: U,
)
    requires ranges { IsRules rules }
    requires refine { KeepsRefine rules (R.can_refine refine) (R.refine_gives refine) }
    requires boundary { KeepsBoundary rules (B.can_bound boundary) (B.bound_gives boundary) }
    requires update { KeepsUpdate rules (U.can_update update) (U.update_gives update) }
{
    let strategy = Strategy::new(rules, refine, boundary, update);
    rows(rt, &strategy);
    values(rt, &strategy);
}

/// The values that one strategy gives.
fn values<R: Refines, B: Bounds, U: Updates>(rt: &impl Abort, strategy: &Strategy<R, B, U>) {
    let rules = strategy.rules();
    if rules.modulus == 10 {
        assert_eq!(rt; strategy.refine(7, IVec::new(1, 0, 1)), 9);
        assert_eq!(rt; strategy.refine(7, IVec::new(1, 3, 2)), 3);
        assert_eq!(rt; strategy.refine(7, NOTHING), 7);
        assert_eq!(rt; strategy.update(7, 5), 9);
        assert_eq!(rt; strategy.update(1, 59), 9);
    }
    if rules.modulus == 1_000 {
        assert_eq!(rt; strategy.refine(7, IVec::new(1, 0, 1)), 7);
        assert_eq!(rt; strategy.update(1, 23), 24);
        assert_eq!(rt; strategy.update(999, 3_001), 0);
    }
}

/// Makes the closures of some rules, as a top call does.
fn with_closures(rt: &impl Abort, rules: Rules)
    requires { IsRules rules }
{
    let refine = move |v: u32, offset: IVec| -> u32
        requires rules { IsRules rules }
        requires value { v < rules.modulus }
        requires offset { IsOffset offset }
        ensures { result ≡ refined_value rules v offset }
    { refined(&rules, v, offset) };
    let boundary = move |axis: Axis, depth: i64| -> Edgewise
        ensures { result ≡ edge_of rules axis depth }
    { edge(&rules, axis, depth) };
    let update = move |v: u32, sum: u64| -> u32
        requires rules { IsRules rules }
        requires value { v < rules.modulus }
        requires sum { sum < 6 * rules.modulus }
        ensures { result ≡ updated_value rules v sum }
    { updated(&rules, v, sum) };
    try_rows(rt, rules, refine, boundary, update);
}

#[test]
fn walks_and_values(rt: HostRuntime) -> Result<(), Fail> {
    with_closures(&rt, of_each_kind());
    with_closures(&rt, flat_rules());
    with_closures(&rt, ramp_rules());
    Ok(())
}

#[test]
fn coarsens_children(rt: HostRuntime) -> Result<(), Fail> {
    let children = [27, 90, 27, 4];
    let alike = [27, 27, 27, 27];
    assert_eq!(rt;
        coarsen_values(CoarsenRule::First, 100, children.as_slice()),
        27
    );
    assert_eq!(rt;
        coarsen_values(CoarsenRule::Max, 100, children.as_slice()),
        90
    );
    assert_eq!(rt;
        coarsen_values(CoarsenRule::Sum, 100, children.as_slice()),
        48
    );
    assert_eq!(rt;
        coarsen_values(CoarsenRule::Sum, 1_000_000, alike.as_slice()),
        108
    );
    Ok(())
}

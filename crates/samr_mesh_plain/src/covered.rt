//! The cells of a level that the new level two above it needs.

ghost use Rattle.std.specs.Prelude.{◌≡◌};
ghost use Rattle.std.specs.List.{All, list_any};
ghost use Rattle.samr_box.specs.Corners.{IsBox, holds, grown};
ghost use Rattle.samr_box.specs.Ratios.{coarsened};
ghost use Rattle.samr_box.specs.Space.{image};
ghost use Rattle.samr_box.specs.Lists.{Member};
ghost use Rattle.samr_level.specs.Overlaps.{shifts as all_shifts};
ghost use Rattle.samr_tags.specs.Cover.{covering, covered};
ghost use Rattle.samr_mesh.specs.Passes.{covering as covering_of};
ghost use Rattle.samr_mesh_plain.specs.Making.{CanMake, covers};

use crate::domains::{accepted, frame_at, step_of};
use crate::pass::Pass;
use samr_box::{Domain, IBox, IVec, Ratio, Shift, coarsen, grow};
use samr_level::BoxRef;
use samr_problem::Problem;

/// What a box needs two levels below it: coarsened by `upper`, grown by `nest` and coarsened by `lower`.
fn needed(b: IBox, upper: Ratio, nest: IVec, lower: Ratio) -> IBox
    requires { IsBox (grown (coarsened b upper) nest) }
    ensures { result ≡ covering upper nest lower b }
{
    coarsen(grow(coarsen(b, upper), nest), lower)
}

/// Whether the image of a box by a shift has a cell.
fn image_has(frame: &Domain, b: IBox, s: Shift, x: IVec) -> bool
    ensures { result ≡ holds (image frame.now b s) x }
{
    let step = frame.offset(s);
    if !b.lo.plus(step).at_most(x) {
        return false;
    }
    x.at_most(b.hi.plus(step))
}

/// Whether an image of a box by one of some shifts has a cell.
fn some_image_has(frame: &Domain, b: IBox, shifts: &[Shift], x: IVec) -> bool
    ensures { result ≡ list_any (λ s. holds (image frame.now b s) x) shifts.now }
{
    for s in shifts {
        if image_has(frame, b, *s, x) {
            return true;
        }
    }
    false
}

/// Whether a cell lies in an image of what a box of the new level two above needs. `shifts` are those of the frame.
fn covers(problem: &Problem, w: &Pass, b: BoxRef, shifts: &[Shift], x: IVec) -> bool
    requires can { CanMake problem.now w.now }
    requires fine { Member b w.now.above }
    requires shifts { shifts.now ≡ all_shifts problem.now.periodic }
    ensures { result ≡ covers problem.now w.now x b }
{
    accepted(problem);
    let upper = step_of(problem, w.number + 1);
    let lower = step_of(problem, w.number);
    let below = needed(b.bx, upper, problem.nest, lower);
    some_image_has(&frame_at(problem, w.number), below, shifts, x)
}

/// Whether a cell lies in an image of what one of some boxes of the new level two above needs.
fn some_covers(problem: &Problem, w: &Pass, fine: &[BoxRef], shifts: &[Shift], x: IVec) -> bool
    requires can { CanMake problem.now w.now }
    requires fine { All (λ b. Member b w.now.above) fine.now }
    requires shifts { shifts.now ≡ all_shifts problem.now.periodic }
    ensures { result ≡ list_any (covers problem.now w.now x) fine.now }
{
    for b in fine {
        if covers(problem, w, *b, shifts, x) {
            return true;
        }
    }
    false
}

/// Whether a cell lies in an image of what any box of the new level two above needs.
#[tactic(auto, unfolding(samr_tags::specs::Cover::covered))]
pub(crate) fn is_covered(problem: &Problem, w: &Pass, shifts: &[Shift], x: IVec) -> bool
    requires can { CanMake problem.now w.now }
    requires shifts { shifts.now ≡ all_shifts problem.now.periodic }
    ensures { result ≡ covered (covering_of problem.now w.now) x }
{
    let fine = w.fine();
    some_covers(problem, w, fine, shifts, x)
}

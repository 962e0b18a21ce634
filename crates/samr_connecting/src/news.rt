//! The boxes of a rank in the new level.

ghost use Rattle.std.specs.Prelude.{◌≡◌, IfOk, map};
ghost use Rattle.std.specs.List.{All};
ghost use Rattle.samr_box.specs.Corners.{IsBox};
ghost use Rattle.samr_box.specs.Ratios.{refined};
ghost use Rattle.samr_connecting.specs.Joining.{new_box, own_news};

use crate::pairs::refined_box;
use samr_box::{IBox, Listed, Ratio};
use samr_level::{BoxRef, in_level_order};
use samr_modify::NewBox;
use std::alloc::{AllocError as NoMemory, Global};

/// A piece of a rank, as a box of the new level.
fn new_box(rank: u16, n: NewBox, step: Ratio) -> BoxRef
    requires { IsBox (refined n.bx step) }
    ensures { result ≡ new_box rank step n }
{
    refined_box(
        BoxRef {
            owner: rank,
            bx: n.bx,
        },
        step,
    )
}

/// The pieces of a rank, as boxes of the new level.
fn new_boxes(
    alloc: Global,
    rank: u16,
    pieces: &[NewBox],
    step: Ratio,
) -> Result<Vec<BoxRef>, NoMemory>
    requires { All (λ n. IsBox (refined n.bx step)) pieces.now }
    ensures { IfOk result (λ v. v.items ≡ map (new_box rank step) pieces.now) }
{
    pieces
        .iter()
        .map(|n| new_box(rank, *n, step))
        .collect(alloc)
}

/// The boxes without their owner.
fn boxes_of(alloc: Global, level: &[BoxRef]) -> Result<Vec<IBox>, NoMemory>
    ensures { IfOk result (λ v. v.items ≡ map (λ b. b.bx) level.now) }
{
    level.iter().map(|b| b.bx).collect(alloc)
}

/// The boxes of a rank in the new level, in corner order, from its pieces. `step` is the ratio of the
/// level to the new one.
#[tactic(auto, unfolding(crate::specs::Joining::own_news))]
pub(crate) fn own_news(
    alloc: Global,
    rank: u16,
    pieces: &[NewBox],
    step: Ratio,
) -> Result<Listed<IBox>, NoMemory>
    requires { All (λ n. IsBox (refined n.bx step)) pieces.now }
    ensures { IfOk result (λ boxes. boxes ≡ own_news rank step pieces.now) }
{
    let news = in_level_order(new_boxes(alloc, rank, pieces, step)?);
    let boxes = boxes_of(alloc, news.as_slice())?;
    Ok(Listed::from_vec(boxes))
}

//! One stage on all ranks, on one thread.

ghost use Rattle.std.specs.Prelude.{◌≡◌, ◌+◌, ◌<◌, ◌≤◌, ◌^◌, ℕ, length, All, [], IfOk, OnOk};
ghost use Rattle.samr_stage.specs.Exchange.{AreParts, AreResults};
ghost use Rattle.samr_stage.specs.Mailboxes.{HoldHeard, Deliver, AreTelling};

use crate::stage::{Held, Stage};
use std::alloc::{AllocError as NoMemory, Global};

/// Runs one stage on all ranks, on one thread: every rank gives out its letters, and then each
/// finishes with those that the others have for it. The stages stand in order of rank, and so do
/// the results.
///
/// # Errors
///
/// Where memory is short.
pub fn exchange<S: Stage>(alloc: Global, mut stages: Vec<S>) -> Result<Vec<S::Out>, NoMemory>
    requires parts { (w : S.Whole) × AreParts S.starts S.ranks_of w stages.items }
    requires few { length stages.items < 2 ^ 16 }
    ensures len { IfOk result (λ outs. length outs.items ≡ length stages.items) }
    ensures outs { IfOk result (λ outs. (w : S.Whole) → AreParts S.starts S.ranks_of w stages.items
        → AreResults S.gives w outs.items) }
{
    let boxes = gather(alloc, &mut stages)?;
    finish_all(alloc, stages, boxes)
}

/// The letters that each rank has from the others, by sender, once all have given out theirs.
fn gather<S: Stage>(alloc: Global, stages: &mut Vec<S>) -> Result<Vec<Vec<Held<S::Body>>>, NoMemory>
    requires parts { (w : S.Whole) × AreParts S.starts S.ranks_of w stages.old.items }
    requires few { length stages.old.items < 2 ^ 16 }
    ensures len { IfOk result (λ boxes. length boxes.items ≡ length stages.old.items) }
    ensures boxes { IfOk result (λ boxes. (w : S.Whole) → AreParts S.starts S.ranks_of w stages.old.items
        → HoldHeard (λ box. box.items) (S.says w) (S.ranks_of w) boxes.items) }
    ensures stages { OnOk result ((w : S.Whole) → AreParts S.starts S.ranks_of w stages.old.items
        → AreParts S.waits S.ranks_of w stages.new.items) }
{
    let mut boxes = empty_boxes(alloc, stages.len())?;
    'each: for sender in 0..stages.len() {
        let letters = stages[sender].letters(alloc)?;
        deliver(sender as u16, letters, &mut boxes)?;
    }
    Ok(boxes)
}

fn empty_boxes<B: Drop>(alloc: Global, count: usize) -> Result<Vec<Vec<Held<B>>>, NoMemory>
    ensures len { IfOk result (λ boxes. length boxes.items ≡ count) }
    ensures empty { IfOk result (λ boxes. All (λ box. box.items ≡ []) boxes.items) }
{
    let mut boxes = Vec::with_capacity(alloc, count)?;
    'each: for _rank in 0..count {
        boxes.push(Vec::new(alloc))?;
    }
    Ok(boxes)
}

/// Puts each letter of a sender into the box of its addressee.
fn deliver<B: Drop>(
    sender: u16,
    letters: Vec<(u16, B)>,
    boxes: &mut Vec<Vec<Held<B>>>,
) -> Result<(), NoMemory>
    requires { All (λ letter. letter.0 < length boxes.old.items) letters.items }
    ensures { OnOk result (Deliver (λ box. box.items) sender letters.items boxes.old.items boxes.new.items) }
{
    'each: for (to, body) in letters {
        boxes[usize::from(to)].push(Held { sender, body })?;
    }
    Ok(())
}

/// Finishes the stage of each rank with the letters in the rank's box.
fn finish_all<S: Stage>(
    alloc: Global,
    stages: Vec<S>,
    boxes: Vec<Vec<Held<S::Body>>>,
) -> Result<Vec<S::Out>, NoMemory>
    requires parts { (w : S.Whole) × AreParts S.waits S.ranks_of w stages.items
        × HoldHeard (λ box. box.items) (S.says w) (S.ranks_of w) boxes.items }
    requires len { length boxes.items ≡ length stages.items }
    ensures len { IfOk result (λ outs. length outs.items ≡ length stages.items) }
    ensures outs { IfOk result (λ outs. (w : S.Whole) → AreParts S.waits S.ranks_of w stages.items
        → HoldHeard (λ box. box.items) (S.says w) (S.ranks_of w) boxes.items → AreResults S.gives w outs.items) }
{
    let mut outs = Vec::with_capacity(alloc, stages.len())?;
    'each: for (stage, held) in stages.into_iter().zip(boxes) {
        outs.push(stage.finish(alloc, held)?)?;
    }
    Ok(outs)
}

//! The law of modifying.

ghost use Rattle.std.specs.Prelude.{◌≡◌, ◌↔◌, ℕ, true};
ghost use Rattle.samr_box.specs.declared.vector.IVec.{IVec};
ghost use Rattle.samr_level.specs.Refs.{Owned, link};
ghost use Rattle.samr_level.specs.RefOrders.{edge_cmp, in_order};
ghost use Rattle.samr_level.specs.Overlaps.{near, IsTrueOverlap};
ghost use Rattle.samr_modify.specs.Modify.{Modifying, IsModifying, TakesPlace, IsKept, forth_scale, back_scale, news_of, old_pair, modify_pair};
ghost use Rattle.samr_modify.specs.Entries.{all_entries};
ghost use Rattle.samr_modify.specs.Found.{all_led, all_taken};
ghost use Rattle.samr_modify.specs.Pieces.{pieces_of};
ghost use Rattle.samr_modify.specs.ModifyParts.{ArePieces};

/// The law of modifying, which is its contract; nothing runs.
///
/// Let each new box lie in the old box whose place it takes. Where a new box is near an anchor at a
/// shift, so is its old box (`whole`). So an edge from an anchor to a new box is a true overlap exactly
/// where the anchor overlaps the new box's old box at that shift, and is near the new box itself
/// (`edges`). From what all ranks know of their old boxes come, settled, each rank's connector from
/// anchors to new boxes (`forth`) and the one back (`back`). The new boxes of a rank in the order of
/// the moves are such as a rank may start with (`pieces`).
pub fn modify_law()
    ensures whole { (w : Modifying) → IsModifying w → (a n o : Owned) (s : IVec) → TakesPlace w n o
        → near (forth_scale w) a.bx n.bx s ≡ true → near (forth_scale w) a.bx o.bx s ≡ true }
    ensures edges { (w : Modifying) → IsModifying w → (a n : Owned) (s : IVec)
        → IsTrueOverlap (forth_scale w) w.anchors (news_of w) (link a n s) ↔ IsKept w a n s }
    ensures forth { (w : Modifying) → IsModifying w → (rank : ℕ)
        → in_order edge_cmp (all_led (forth_scale w) (old_pair w rank).forth.edges (all_entries w)) ≡ (modify_pair w rank).forth.edges }
    ensures back { (w : Modifying) → IsModifying w → (rank : ℕ)
        → in_order edge_cmp (all_taken (back_scale w) rank (all_entries w)) ≡ (modify_pair w rank).back.edges }
    ensures pieces { (w : Modifying) (rank : ℕ) → ArePieces w rank (pieces_of rank w.moves) }
{}

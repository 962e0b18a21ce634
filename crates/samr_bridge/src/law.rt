//! The law of the bridge.

ghost use Rattle.std.specs.Prelude.{◌≡◌, ℕ, map};
ghost use Rattle.samr_level.specs.Refs.{Owned, Link, turned};
ghost use Rattle.samr_level.specs.RefOrders.{edge_cmp, in_order};
ghost use Rattle.samr_level.specs.Overlaps.{of_rank, IsTrueOverlap};
ghost use Rattle.samr_box.specs.Lists.{Member};
ghost use Rattle.samr_bridge.specs.Bridge.{Bridging, IsBridge};
ghost use Rattle.samr_bridge.specs.Found.{found, all_found, bridge_pair, bridge_scale, IsWay};

/// The law of the bridge, which is its contract; nothing runs.
///
/// Let every cell of the east level, coarsened, lie in the centre level, and let the overlaps of
/// centre and west be known at a width of at least the wanted one, rounded up to centre cells. Then
/// each true overlap of east and west goes by way of a centre box (`way`), what a rank finds are
/// true overlaps (`sound`), and what all ranks find is, settled, each rank's connector from east to
/// west (`forth`) and, turned, the one back (`back`).
pub fn bridge_law()
    ensures way { (w : Bridging) → IsBridge w → (e : Link) → IsTrueOverlap (bridge_scale w) w.east w.west e
        → (c : Owned) × IsWay w e c }
    ensures sound { (w : Bridging) → IsBridge w → (rank : ℕ) (e : Link) → Member e (found w rank)
        → IsTrueOverlap (bridge_scale w) w.east w.west e }
    ensures forth { (w : Bridging) → IsBridge w → (rank : ℕ)
        → in_order edge_cmp (of_rank rank (all_found w)) ≡ (bridge_pair w rank).forth.edges }
    ensures back { (w : Bridging) → IsBridge w → (rank : ℕ)
        → in_order edge_cmp (of_rank rank (map (λ e. turned e) (all_found w))) ≡ (bridge_pair w rank).back.edges }
{}

//! The laws of the tags and of the cover.

ghost use Rattle.std.specs.Prelude.{◌≡◌, ◌↔◌, pos, true};
ghost use Rattle.samr_box.specs.declared.vector.IVec.{IVec as Cell};
ghost use Rattle.samr_box.specs.Vector.{alike, AtMost};
ghost use Rattle.samr_box.specs.Corners.{Holds};
ghost use Rattle.samr_box.specs.Space.{IsSpace, whole};
ghost use Rattle.samr_tags.specs.Cover.{Covering, IsCovered, AreNear, frame_of, covered};
ghost use Rattle.samr_tags.specs.Rooms.{SmallCoversHaveRoom};
ghost use Rattle.samr_tags.specs.Buffer.{Tagging, IsTagged, tags_of};

/// What the tags of a level are, which is this call's contract; nothing runs.
///
/// A cell is tagged exactly where it lies in the level and some cell within the tag buffer of it is,
/// wrapped round periodic borders, a cell of the level that a shape tags.
pub fn tags_law()
    ensures { (w : Tagging) (x : Cell) → AtMost (alike (pos 0)) w.buffer → (tags_of w x ≡ true) ↔ IsTagged w x }
{}

/// What the cover is, which is this call's contract; nothing runs.
///
/// Where all cells that fine boxes need lie in the frame or at most one length outside of it, a cell of
/// the frame is covered exactly where it is the wrap of a cell that some fine box needs.
pub fn cover_law()
    ensures { (w : Covering) (x : Cell) → IsSpace (frame_of w) → Holds (whole (frame_of w)) x → AreNear w → (covered w x ≡ true) ↔ IsCovered w x }
{}

/// Where what fine boxes need is in range, as `Cover::start` asks: in frames of at most 2^28 cells on
/// each axis, for boxes whose corners lie within 2^28 and a nesting width of at most that; nothing runs.
pub fn small_covers_have_room()
    ensures { SmallCoversHaveRoom }
{}

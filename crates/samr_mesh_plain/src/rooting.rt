//! The roots of the clusters of a level.

ghost use Rattle.std.specs.Prelude.{◌≡◌, ◌<◌, ◌∷◌, [], IfOk, map};
ghost use Rattle.samr_box.specs.Space.{whole};
ghost use Rattle.samr_level.specs.Blocks.{IsBlocking, blocks_of};
ghost use Rattle.samr_mesh.specs.Domains.{tile_of, roots_at};

use crate::domains::{accepted, frame_at};
use samr_box::{Domain, IBox, IVec};
use samr_level::{BoxRef, Region, whole_level0};
use samr_problem::Problem;
use std::alloc::{AllocError as NoMemory, Global};

/// The lengths of a tile; a third axis that is not real has one cell.
fn tile_of(problem: &Problem) -> IVec
    ensures { result ≡ tile_of problem.now }
{
    let tile = problem.tile;
    IVec {
        k: if problem.dim == 2 { 1 } else { tile },
        j: tile,
        i: tile,
    }
}

/// The boxes without their owners.
fn boxes_of(alloc: Global, level: &[BoxRef]) -> Result<Vec<IBox>, NoMemory>
    ensures { IfOk result (λ v. v.items ≡ map (λ b. b.bx) level.now) }
{
    level.iter().map(|b| b.bx).collect(alloc)
}

/// A frame, cut into tiles: as blocks of level 0 are cut, all for one rank.
fn tiles(alloc: Global, frame: Domain, tile: IVec) -> Result<Vec<IBox>, NoMemory>
    requires { IsBlocking tile (whole frame ∷ []) }
    ensures { IfOk result (λ v. v.items ≡ blocks_of tile (whole frame)) }
{
    let region = Region::whole(alloc, frame);
    let level = whole_level0(alloc, &region, tile, 1)?;
    let boxes = boxes_of(alloc, level.as_slice())?;
    Ok(boxes)
}

/// The roots of the clusters of a level: its frame, cut into tiles, or whole where the problem has none.
///
/// # Errors
///
/// Where memory is short.
#[tactic(auto, unfolding(samr_mesh::specs::Domains::roots_at))]
pub fn roots(alloc: Global, problem: &Problem, level: u8) -> Result<Vec<IBox>, NoMemory>
    requires { level < problem.now.levels }
    ensures { IfOk result (λ v. v.items ≡ roots_at problem.now level) }
{
    accepted(problem);
    let frame = frame_at(problem, level);
    if problem.tile == 0 {
        let whole = Vec::from_slice(alloc, [frame.whole()].as_slice())?;
        return Ok(whole);
    }
    let tiles = tiles(alloc, frame, tile_of(problem))?;
    Ok(tiles)
}

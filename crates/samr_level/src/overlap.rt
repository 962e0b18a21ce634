//! All overlaps of two whole levels, by a look at each pair of boxes.

ghost use Rattle.std.specs.Prelude.{◌≡◌, ◌++◌, IfOk, OnOk, map, filter};
ghost use Rattle.std.specs.List.{flat_map};
ghost use Rattle.samr_box.specs.Vector.{InRange};
ghost use Rattle.samr_level.specs.Refs.{link};
ghost use Rattle.samr_level.specs.Overlaps.{scale_in, is_true, true_overlaps};

use crate::{BoxRef, Edge, Ruler, shifts};
use samr_box::{Domain, IVec, Ratio, Shift};
use std::alloc::{AllocError as NoMemory, Global};

/// All true overlaps of two whole levels, in edge order: every pair of boxes is compared at every
/// shift. The width is in cells of the coarser level, the ratios are those from level 0, and
/// `finer` is the frame of the finer level.
#[tactic(auto, using(crate::proofs::Searches::overlaps_by_search))]
pub fn true_overlaps_of(
    alloc: Global,
    bases: &[BoxRef],
    heads: &[BoxRef],
    width: IVec,
    base_ratio: Ratio,
    head_ratio: Ratio,
    finer: &Domain,
) -> Result<Vec<Edge>, NoMemory>
    requires { InRange width }
    ensures { IfOk result (λ v. v.items ≡ true_overlaps (scale_in finer.now width base_ratio head_ratio) bases.now heads.now) }
{
    let ruler = Ruler::new(width, base_ratio, head_ratio, finer);
    let shifts = shifts(alloc, finer.periodic)?;
    let edges = search(alloc, &ruler, bases, heads, shifts.as_slice())?;
    Ok(edges)
}

fn search(
    alloc: Global,
    ruler: &Ruler,
    bases: &[BoxRef],
    heads: &[BoxRef],
    shifts: &[Shift],
) -> Result<Vec<Edge>, NoMemory>
    ensures { IfOk result (λ v. v.items ≡ flat_map (λ a. flat_map (λ b. filter (λ e. is_true ruler.now e) (map (λ s. link a b s) shifts.now)) heads.now) bases.now) }
{
    let mut edges = Vec::new(alloc);
    for a in bases {
        push_edges(ruler, *a, heads, shifts, &mut edges)?;
    }
    Ok(edges)
}

fn push_edges(
    ruler: &Ruler,
    a: BoxRef,
    heads: &[BoxRef],
    shifts: &[Shift],
    edges: &mut Vec<Edge>,
) -> Result<(), NoMemory>
    ensures { OnOk result (edges.new.items ≡ edges.old.items ++ flat_map (λ b. filter (λ e. is_true ruler.now e) (map (λ s. link a b s) shifts.now)) heads.now) }
{
    for b in heads {
        push_images(ruler, a, *b, shifts, edges)?;
    }
    Ok(())
}

fn push_images(
    ruler: &Ruler,
    a: BoxRef,
    b: BoxRef,
    shifts: &[Shift],
    edges: &mut Vec<Edge>,
) -> Result<(), NoMemory>
    ensures { OnOk result (edges.new.items ≡ edges.old.items ++ filter (λ e. is_true ruler.now e) (map (λ s. link a b s) shifts.now)) }
{
    for s in shifts {
        let edge = Edge {
            base: a,
            head: b,
            shift: *s,
        };
        if ruler.is_true(edge) {
            edges.push(edge)?;
        }
    }
    Ok(())
}

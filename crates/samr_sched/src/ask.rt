//! The stage that makes the plans of a level and asks for coarse cells.

ghost use Rattle.std.specs.Prelude.{◌≡◌, ℕ, ◌<◌, ◌^◌, IfOk, IfSome, List, length};
ghost use Rattle.std.specs.List.{All};
ghost use Rattle.std.specs.Option.{option_map};
ghost use Rattle.samr_box.specs.declared.vector.IVec.{IVec as Cell};
ghost use Rattle.samr_box.specs.Vector.{times, IsRatio};
ghost use Rattle.samr_box.specs.Corners.{IsBox, grown};
ghost use Rattle.samr_box.specs.Space.{IsSpace, finer};
ghost use Rattle.samr_level.specs.Regions.{finer_area};
ghost use Rattle.samr_stage.specs.declared.stage.Held.{Held};
ghost use Rattle.samr_stage.specs.Row.{heard, column};
ghost use Rattle.samr_peers.specs.PeerLaws.{heavy};
ghost use Rattle.samr_sched.specs.Ask.{Scheduling};
ghost use Rattle.samr_sched.specs.Plans.{plan_of};
ghost use Rattle.samr_sched.specs.AskRow.{ask_row};
ghost use Rattle.samr_sched.specs.AskParts.{HasLevels, HasEdges, HasPlans};
ghost use Rattle.samr_sched.specs.StageLaws.{ask_between};

use crate::asking::{others_of, requests_to};
use crate::making::{Ground, box_plans};
use crate::plan::{BoxPlan, Plan, Request};
use samr_box::{Domain, IVec, Listed, Ratio, coarsen_cell};
use samr_level::{Edge, Pair, Part, Region};
use samr_peers::other_owners;
use samr_stage::{Held, Stage};
use std::alloc::{AllocError as NoMemory, Global};

/// The schedule of a level on all ranks: each makes the plans of its boxes, asks the owners of the boxes
/// below for the cells that it needs of them, and keeps what others ask of it.
#[derive(Drop)]
pub struct Ask {
    rank: u16,
    frame: Domain,
    below: Domain,
    step: Ratio,
    boxes: Vec<BoxPlan>,
    near: Vec<u16>,
    under: Vec<u16>,
    senders: Vec<u16>,
    fixed: Vec<u32>,
}

/// The ratio with these factors, or another where there is none.
fn ratio_or(factors: IVec, other: Ratio) -> Ratio
    ensures { IsRatio factors → result ≡ factors }
{
    match Ratio::new(factors.i, factors.j, factors.k) {
        Some(r) => r,
        None => other,
    }
}

/// The ratio from a level to a finer one, where it is that of two ratios from level 0.
fn step_between(coarse: Ratio, fine: Ratio) -> Ratio
    ensures { (step : Cell) → IsRatio step → times coarse step ≡ fine → result ≡ step }
{
    ratio_or(coarsen_cell(fine.factors(), coarse), fine)
}

impl Ask {
    /// For a rank with these boxes of a level, these overlaps of the level with itself and, but for level
    /// 0, with the level below. `region` is the domain of level 0, `ghosts` has the width of the ghost
    /// cells of each field, and `fixed` the value of each beyond the borders of a domain of parts.
    ///
    /// # Errors
    ///
    /// Where memory is short.
    pub fn start(
        alloc: Global,
        rank: u16,
        ranks: u16,
        region: &Region,
        part: &Part,
        selves: &Pair,
        coarser: Option<&Pair>,
        ghosts: &[IVec],
        fixed: &[u32],
    ) -> Result<Ask, NoMemory>
        requires frame { IsSpace (finer region.now.frame selves.now.forth.base_ratio) }
        requires below { IfSome coarser (λ p. IsSpace (finer region.now.frame p.now.forth.head_ratio)) }
        requires few { length ghosts.now < 2 ^ 8 }
        requires room { All (λ b. All (λ width. IsBox (grown b width)) ghosts.now) part.now.boxes }
        ensures { IfOk result (λ stage. (w : Scheduling) (r : ℕ)
            → HasLevels rank ranks region.now part.now selves.now (option_map (λ p. p.now) coarser.entry) ghosts.now fixed.now w r
            → ⟦<Ask as Stage>⟧.starts stage w r) }
    {
        match coarser {
            Some(p) => {
                let ask = made(
                    alloc,
                    rank,
                    region,
                    part,
                    selves,
                    p.forth.head_ratio,
                    p.forth.edges.as_slice(),
                    p.back.edges.as_slice(),
                    ghosts,
                    fixed,
                )?;
                Ok(ask)
            }
            None => {
                let none: Vec<Edge> = Vec::new(alloc);
                let ask = made(
                    alloc,
                    rank,
                    region,
                    part,
                    selves,
                    selves.forth.base_ratio,
                    none.as_slice(),
                    none.as_slice(),
                    ghosts,
                    fixed,
                )?;
                Ok(ask)
            }
        }
    }
}

/// The stage of a rank with edges to a level below of a ratio, and these edges back.
fn made(
    alloc: Global,
    rank: u16,
    region: &Region,
    part: &Part,
    selves: &Pair,
    ratio_below: Ratio,
    downs: &[Edge],
    ups: &[Edge],
    ghosts: &[IVec],
    fixed: &[u32],
) -> Result<Ask, NoMemory>
    requires frame { IsSpace (finer region.now.frame selves.now.forth.base_ratio) }
    requires below { IsSpace (finer region.now.frame ratio_below) }
    requires few { length ghosts.now < 2 ^ 8 }
    requires room { All (λ b. All (λ width. IsBox (grown b width)) ghosts.now) part.now.boxes }
    ensures { IfOk result (λ s. (w : Scheduling) (r : ℕ)
        → HasEdges rank region.now part.now selves.now ratio_below downs.now ups.now ghosts.now fixed.now w r
        → HasPlans s.rank s.frame s.below s.step s.boxes.items s.near.items s.under.items s.senders.items s.fixed.items w r) }
{
    let ratio = selves.forth.base_ratio;
    let ground = Ground {
        domain: region.refined(alloc, ratio)?,
        below: region.frame().finer(ratio_below),
        step: step_between(ratio_below, ratio),
    };
    let boxes = box_plans(
        alloc,
        &ground,
        rank,
        part.boxes.as_slice(),
        ghosts,
        selves.forth.edges.as_slice(),
        downs,
    )?;
    Ok(Ask {
        rank,
        frame: *ground.domain.frame(),
        below: ground.below,
        step: ground.step,
        boxes,
        near: other_owners(alloc, rank, selves.forth.edges.as_slice())?,
        under: other_owners(alloc, rank, downs)?,
        senders: other_owners(alloc, rank, ups)?,
        fixed: Vec::from_slice(alloc, fixed)?,
    })
}

impl Stage for Ask {
    type Body = Listed<Request>;

    type Out = Plan;

    ghost Whole = { Scheduling };

    ghost ranks_of = { λ w. w.ranks };

    ghost says = { ask_row };

    ghost gives = { λ w rank out. out ≡ plan_of w rank };

    ghost weight_of = { λ _. 1 };

    ghost starts = { λ s w rank. HasPlans s.rank s.frame s.below s.step s.boxes.items s.near.items s.under.items s.senders.items s.fixed.items w rank };

    ghost waits = { λ s w rank. HasPlans s.rank s.frame s.below s.step s.boxes.items s.near.items s.under.items s.senders.items s.fixed.items w rank };

    fn letters(&mut self, alloc: Global) -> Result<Vec<(u16, Listed<Request>)>, NoMemory> {
        let mut letters = Vec::new(alloc);
        'each: for to in &self.under {
            let body = requests_to(alloc, *to, self.boxes.as_slice())?;
            letters.push((*to, body))?;
        }
        Ok(letters)
    }

    fn weight(&self, _body: &Listed<Request>) -> u64 {
        1
    }

    fn goal(&self) -> u64 {
        self.senders.len() as u64
    }

    fn finish(self, alloc: Global, held: Vec<Held<Listed<Request>>>) -> Result<Plan, NoMemory>
        requires { (w : Scheduling) × (rank : ℕ) × HasPlans self.rank self.frame self.below self.step self.boxes.items self.near.items self.under.items self.senders.items self.fixed.items w rank
            × (held.items ≡ heard (column (ask_row w) rank) w.ranks) }
        ensures { IfOk result (λ out. (w : Scheduling) (rank : ℕ)
            → HasPlans self.rank self.frame self.below self.step self.boxes.items self.near.items self.under.items self.senders.items self.fixed.items w rank
            → held.items ≡ heard (column (ask_row w) rank) w.ranks → out ≡ plan_of w rank) }
    {
        let others = others_of(alloc, held)?;
        Ok(Plan {
            rank: self.rank,
            frame: self.frame,
            below: self.below,
            step: self.step,
            near: Listed::from_vec(self.near),
            under: Listed::from_vec(self.under),
            boxes: Listed::from_vec(self.boxes),
            others: Listed::from_vec(others),
            fixed: Listed::from_vec(self.fixed),
        })
    }

    ghost positive = { λ _ _ _ _ _. heavy };

    ghost between = { ask_between };
}

//! The stage in which directors decide on their open nodes.

ghost use Rattle.std.specs.Prelude.{◌≡◌, ℕ, IfOk};
ghost use Rattle.samr_stage.specs.Row.{heard, column};
ghost use Rattle.samr_peers.specs.PeerLaws.{heavy};
ghost use Rattle.samr_cluster.specs.Rounds.{Round};
ghost use Rattle.samr_cluster.specs.DecideRow.{decide_row};
ghost use Rattle.samr_cluster.specs.DecideParts.{HasReported, HasJudged, decided_state};
ghost use Rattle.samr_cluster.specs.StageLaws.{decide_between};

use crate::addressees::{other_directors, others_near};
use crate::next_round::{accepted_next, directed_next, told_next};
use crate::nodes::{Decided, Reported};
use crate::verdict::{Judged, Ruling, judge_all, rulings_for};
use samr_box::{Domain, Listed};
use samr_sign::CutRule;
use samr_stage::{Held, Stage};
use std::alloc::{AllocError as NoMemory, Global};

/// The decisions of a round: each director decides on its open nodes, and tells the ranks that are
/// near them.
#[derive(Drop)]
pub struct Decide {
    rank: u16,
    judged: Vec<Judged>,
    addressees: Vec<u16>,
    senders: Vec<u16>,
}

impl Decide {
    /// The stage of a rank, with what it has once all have reported.
    ///
    /// # Errors
    ///
    /// Where memory is short.
    pub fn start(
        alloc: Global,
        rank: u16,
        ranks: u16,
        d: &Domain,
        reported: Reported,
        rule: CutRule,
    ) -> Result<Decide, NoMemory>
        ensures { IfOk result (λ decide. (x : Round) (r : ℕ) → HasReported rank reported rule x r
            → ⟦<Decide as Stage>⟧.starts decide x r) }
    {
        let judged = judge_all(alloc, reported.counted.as_slice(), &rule)?;
        let addressees = others_near(alloc, rank, judged.as_slice())?;
        let senders = other_directors(alloc, rank, reported.near.as_slice())?;
        Ok(Decide {
            rank,
            judged,
            addressees,
            senders,
        })
    }
}

impl Stage for Decide {
    type Body = Listed<Ruling>;

    type Out = Decided;

    ghost Whole = { Round };

    ghost ranks_of = { λ x. x.whole.ranks };

    ghost says = { decide_row };

    ghost gives = { λ x rank out. out ≡ decided_state x rank };

    ghost weight_of = { λ _. 1 };

    ghost starts = { λ s x rank. HasJudged s.rank s.judged.items s.addressees.items s.senders.items x rank };

    ghost waits = { λ s x rank. HasJudged s.rank s.judged.items s.addressees.items s.senders.items x rank };

    fn letters(&mut self, alloc: Global) -> Result<Vec<(u16, Listed<Ruling>)>, NoMemory> {
        let mut letters = Vec::new(alloc);
        'each: for to in &self.addressees {
            let body = rulings_for(alloc, *to, self.judged.as_slice())?;
            letters.push((*to, body))?;
        }
        Ok(letters)
    }

    fn weight(&self, _body: &Listed<Ruling>) -> u64 {
        1
    }

    fn goal(&self) -> u64 {
        self.senders.len() as u64
    }

    fn finish(self, alloc: Global, held: Vec<Held<Listed<Ruling>>>) -> Result<Decided, NoMemory>
        requires { (x : Round) × (rank : ℕ) × HasJudged self.rank self.judged.items self.addressees.items self.senders.items x rank
            × (held.items ≡ heard (column (decide_row x) rank) x.whole.ranks) }
        ensures { IfOk result (λ out. (x : Round) (rank : ℕ)
            → HasJudged self.rank self.judged.items self.addressees.items self.senders.items x rank
            → held.items ≡ heard (column (decide_row x) rank) x.whole.ranks → out ≡ decided_state x rank) }
    {
        let own = rulings_for(alloc, self.rank, self.judged.as_slice())?;
        let told = told_next(alloc, self.rank, own.as_slice(), held.as_slice())?;
        let directed = directed_next(alloc, self.judged.as_slice())?;
        let accepted = accepted_next(alloc, own.as_slice(), held.as_slice())?;
        Ok(Decided {
            told: Listed::from_vec(told),
            directed: Listed::from_vec(directed),
            accepted: Listed::from_vec(accepted),
        })
    }

    ghost positive = { λ _ _ _ _ _. heavy };

    ghost between = { decide_between };
}

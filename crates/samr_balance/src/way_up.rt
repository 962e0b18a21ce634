//! The stage of a round of the way up the tree.

ghost use Rattle.std.specs.Prelude.{◌≡◌, ℕ, ◌++◌, ◌+◌, ◌<◌, ◌^◌, ◌%◌, pos, ◌≤ℤ◌, nat_eq, IsOk, IfOk, OnOk, if◌then◌else◌, fold};
ghost use Rattle.std.specs.List.{flat_map};
ghost use Rattle.std.specs.Option.{ForSome, option_map_or};
ghost use Rattle.samr_stage.specs.declared.stage.Held.{Held};
ghost use Rattle.samr_stage.specs.Row.{heard, column};
ghost use Rattle.samr_tree.specs.Tree.{tells_up};
ghost use Rattle.samr_balance.specs.Rounds.{Round};
ghost use Rattle.samr_balance.specs.WayUp.{up_row, after_up, with_need, IsUp, HasGivenUp};
ghost use Rattle.samr_balance.specs.StageLaws.{up_between, heavy};

use crate::hands::{Gift, Hand, Needs};
use crate::turns::tells_up;
use samr_box::Listed;
use samr_load::{Climbed, Piece, climb};
use samr_stage::{Held, Stage};
use samr_tree::{children, parent};
use std::alloc::{AllocError as NoMemory, Global};
use std::mem;

/// One round of the way up the tree. In the round in which it is its turn a rank gives its parent what
/// it has too much, and tells what it needs. In the round in which it is its children's turn it adds
/// what they give to its hand, and learns their needs.
#[derive(Drop)]
pub struct Up {
    rank: u16,
    ranks: u16,
    round: u32,
    hand: Vec<Piece>,
    quota: u64,
    smallest: i64,
    needs: Needs,
}

impl Up {
    /// The stage of a rank that has this hand before the round.
    ///
    /// # Errors
    ///
    /// None: the hand is taken over, and no memory is taken.
    pub fn start(
        _alloc: Global,
        rank: u16,
        ranks: u16,
        round: u32,
        hand: Vec<Piece>,
        quota: u64,
        smallest: i64,
        needs: Needs,
    ) -> Result<Up, NoMemory>
        ensures made { IsOk result }
        ensures starts { IfOk result (λ stage. (w : Round) (r : ℕ) → IsUp rank ranks round hand.items needs quota smallest w r
            → ⟦<Up as Stage>⟧.starts stage w r) }
    {
        Ok(Up {
            rank,
            ranks,
            round,
            hand,
            quota,
            smallest,
            needs,
        })
    }
}

/// How many letters a rank tells its parent in a round.
fn count_told(rank: Option<u16>, ranks: u16, round: u32) -> u64
    requires { ForSome rank (λ r. r < ranks) }
    ensures { result ≡ option_map_or (λ r. if tells_up ranks round r then 1 else 0) rank 0 }
{
    match rank {
        Some(rank) => u64::from(tells_up(rank, ranks, round)),
        None => 0,
    }
}

/// The needs with that of one more child.
fn with_need(needs: Needs, sender: u16, need: u64) -> Needs
    ensures { result ≡ (if nat_eq (sender % 2) 1 then (record { first = need; second = needs.second }) else (record { first = needs.first; second = need })) }
{
    if sender % 2 == 1 {
        return Needs {
            first: need,
            ..needs
        };
    }
    Needs {
        second: need,
        ..needs
    }
}

/// The needs that the children have told of.
fn needs_told(needs: Needs, held: &[Held<Gift>]) -> Needs
    ensures { result ≡ fold with_need needs held.now }
{
    let mut all = needs;
    for letter in held {
        all = with_need(all, letter.sender, letter.body.need);
    }
    all
}

/// A hand with the pieces that the children gave.
fn with_gifts(mut hand: Vec<Piece>, held: &[Held<Gift>]) -> Result<Vec<Piece>, NoMemory>
    ensures { IfOk result (λ v. v.items ≡ hand.items ++ flat_map (λ letter. letter.body.pieces) held.now) }
{
    for letter in held {
        hand.extend_from_slice(letter.body.pieces.as_slice())?;
    }
    Ok(hand)
}

impl Stage for Up {
    type Body = Gift;

    type Out = Hand;

    ghost Whole = { Round };

    ghost ranks_of = { λ w. w.balancing.ranks };

    ghost says = { up_row };

    ghost gives = { λ w rank out. out ≡ after_up w rank };

    ghost weight_of = { λ _. 1 };

    ghost starts = { λ s w rank. IsUp s.rank s.ranks s.round s.hand.items s.needs s.quota s.smallest w rank };

    ghost waits = { λ s w rank. HasGivenUp s.rank s.ranks s.round s.hand.items s.needs s.quota s.smallest w rank };

    fn letters(&mut self, alloc: Global) -> Result<Vec<(u16, Gift)>, NoMemory> {
        let mut letters = Vec::new(alloc);
        if !tells_up(self.rank, self.ranks, self.round) {
            return Ok(letters);
        }
        let Some(above) = parent(self.rank) else {
            return Ok(letters);
        };
        let wanted = self.quota + self.needs.first + self.needs.second;
        let hand = mem::replace(&mut self.hand, Vec::new(alloc));
        let parts = climb(alloc, hand, self.smallest, wanted)?;
        let Climbed { kept, given, need } = parts;
        self.hand = kept;
        let pieces = Listed::from_vec(given);
        letters.push((above, Gift { pieces, need }))?;
        Ok(letters)
    }

    fn weight(&self, _body: &Gift) -> u64 {
        1
    }

    fn goal(&self) -> u64 {
        let (first, second) = children(self.rank, self.ranks);
        count_told(first, self.ranks, self.round) + count_told(second, self.ranks, self.round)
    }

    fn finish(self, _alloc: Global, held: Vec<Held<Gift>>) -> Result<Hand, NoMemory>
        requires { (w : Round) × (rank : ℕ) × HasGivenUp self.rank self.ranks self.round self.hand.items self.needs self.quota self.smallest w rank
            × (held.items ≡ heard (column (up_row w) rank) w.balancing.ranks) }
        ensures { IfOk result (λ out. (w : Round) (rank : ℕ)
            → HasGivenUp self.rank self.ranks self.round self.hand.items self.needs self.quota self.smallest w rank
            → held.items ≡ heard (column (up_row w) rank) w.balancing.ranks → out ≡ after_up w rank) }
    {
        let needs = needs_told(self.needs, held.as_slice());
        let pieces = with_gifts(self.hand, held.as_slice())?;
        Ok(Hand {
            pieces: Listed::from_vec(pieces),
            needs,
        })
    }

    ghost positive = { λ _ _ _ _ _. heavy };

    ghost between = { up_between };
}

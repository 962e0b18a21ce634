//! The stage of a round of the way down the tree.

ghost use Rattle.std.specs.Prelude.{◌≡◌, ℕ, ◌++◌, ◌+◌, ◌-◌, ◌<◌, ◌^◌, nat_lt, List, [], ◌∷◌, IsOk, IfOk, OnOk, if◌then◌else◌};
ghost use Rattle.std.specs.List.{flat_map};
ghost use Rattle.std.specs.Option.{option_map_or};
ghost use Rattle.samr_stage.specs.declared.stage.Held.{Held};
ghost use Rattle.samr_stage.specs.Row.{heard, column};
ghost use Rattle.samr_load.specs.Pieces.{Placed, load};
ghost use Rattle.samr_balance.specs.Rounds.{Round};
ghost use Rattle.samr_balance.specs.WayDown.{down_row, after_down, IsDown, HasGivenDown};
ghost use Rattle.samr_balance.specs.StageLaws.{down_between, heavy};

use crate::hands::{Hand, Needs};
use crate::turns::told_down;
use samr_box::Listed;
use samr_load::{Fallen, Piece, fall, load};
use samr_stage::{Held, Stage};
use samr_tree::{children, depth};
use std::alloc::{AllocError as NoMemory, Global};
use std::mem;

/// One round of the way down the tree. In the round in which it is its children's turn a rank gives
/// each that needs something what a take gives of it, also where that is nothing; its hand stays as it
/// is where none of them needs anything. In the round in which it is its own turn it adds what its
/// parent gives to its hand.
#[derive(Drop)]
pub struct Down {
    rank: u16,
    ranks: u16,
    round: u32,
    hand: Vec<Piece>,
    quota: u64,
    smallest: i64,
    needs: Needs,
}

impl Down {
    /// The stage of a rank that has this hand before the round.
    ///
    /// # Errors
    ///
    /// None: the hand is taken over, and no memory is taken.
    pub fn start(
        _alloc: Global,
        rank: u16,
        ranks: u16,
        round: u32,
        hand: Vec<Piece>,
        quota: u64,
        smallest: i64,
        needs: Needs,
    ) -> Result<Down, NoMemory>
        ensures made { IsOk result }
        ensures starts { IfOk result (λ stage. (w : Round) (r : ℕ) → IsDown rank ranks round hand.items needs quota smallest w r
            → ⟦<Down as Stage>⟧.starts stage w r) }
    {
        Ok(Down {
            rank,
            ranks,
            round,
            hand,
            quota,
            smallest,
            needs,
        })
    }
}

/// Adds the letter to a child that needs something.
fn tell(
    child: Option<u16>,
    need: u64,
    pieces: Vec<Piece>,
    letters: &mut Vec<(u16, Listed<Piece>)>,
) -> Result<(), NoMemory>
    ensures { OnOk result (letters.new.items ≡ letters.old.items
        ++ option_map_or (λ c. if nat_lt 0 need then (c, pieces.items) ∷ [] else []) child []) }
{
    if let Some(child) = child {
        if need > 0 {
            letters.push((child, Listed::from_vec(pieces)))?;
        }
    }
    Ok(())
}

/// How many cells a rank needs of its parent.
fn need(hand: &[Piece], quota: u64, needs: Needs) -> u64
    requires fits { load hand.now < 2 ^ 63 }
    requires quotas { quota + needs.first + needs.second < 2 ^ 63 }
    ensures { result ≡ (quota + needs.first + needs.second) - load hand.now }
{
    let wanted = quota + needs.first + needs.second;
    wanted.saturating_sub(load(hand))
}

/// One where something is needed, and else none.
fn count_needed(need: u64) -> u64
    ensures { result ≡ (if nat_lt 0 need then 1 else 0) }
{
    u64::from(need > 0)
}

/// A hand with the pieces that the parent gave.
fn with_gifts(mut hand: Vec<Piece>, held: &[Held<Listed<Piece>>]) -> Result<Vec<Piece>, NoMemory>
    ensures { IfOk result (λ v. v.items ≡ hand.items ++ flat_map (λ letter. letter.body) held.now) }
{
    for letter in held {
        hand.extend_from_slice(letter.body.as_slice())?;
    }
    Ok(hand)
}

impl Stage for Down {
    type Body = Listed<Piece>;

    type Out = Hand;

    ghost Whole = { Round };

    ghost ranks_of = { λ w. w.balancing.ranks };

    ghost says = { down_row };

    ghost gives = { λ w rank out. out ≡ after_down w rank };

    ghost weight_of = { λ _. 1 };

    ghost starts = { λ s w rank. IsDown s.rank s.ranks s.round s.hand.items s.needs s.quota s.smallest w rank };

    ghost waits = { λ s w rank. HasGivenDown s.rank s.ranks s.round s.hand.items s.needs s.quota s.smallest w rank };

    fn letters(&mut self, alloc: Global) -> Result<Vec<(u16, Listed<Piece>)>, NoMemory> {
        let mut letters = Vec::new(alloc);
        if depth(self.rank) != self.round {
            return Ok(letters);
        }
        let hand = mem::replace(&mut self.hand, Vec::new(alloc));
        let parts = fall(
            alloc,
            hand,
            self.smallest,
            self.needs.first,
            self.needs.second,
        )?;
        let Fallen {
            first,
            second,
            left,
        } = parts;
        self.hand = left;
        let (one, other) = children(self.rank, self.ranks);
        tell(one, self.needs.first, first, &mut letters)?;
        tell(other, self.needs.second, second, &mut letters)?;
        Ok(letters)
    }

    fn weight(&self, _body: &Listed<Piece>) -> u64 {
        1
    }

    fn goal(&self) -> u64 {
        if !told_down(self.rank, self.ranks, self.round) {
            return 0;
        }
        count_needed(need(self.hand.as_slice(), self.quota, self.needs))
    }

    fn finish(self, _alloc: Global, held: Vec<Held<Listed<Piece>>>) -> Result<Hand, NoMemory>
        requires { (w : Round) × (rank : ℕ) × HasGivenDown self.rank self.ranks self.round self.hand.items self.needs self.quota self.smallest w rank
            × (held.items ≡ heard (column (down_row w) rank) w.balancing.ranks) }
        ensures { IfOk result (λ out. (w : Round) (rank : ℕ)
            → HasGivenDown self.rank self.ranks self.round self.hand.items self.needs self.quota self.smallest w rank
            → held.items ≡ heard (column (down_row w) rank) w.balancing.ranks → out ≡ after_down w rank) }
    {
        let needs = self.needs;
        let pieces = with_gifts(self.hand, held.as_slice())?;
        Ok(Hand {
            pieces: Listed::from_vec(pieces),
            needs,
        })
    }

    ghost positive = { λ _ _ _ _ _. heavy };

    ghost between = { down_between };
}

//! What a run of a relay is: who tells whom in which round.

ghost use Rattle.std.specs.Prelude.{◌≡◌, ◌<◌, if◌then◌else◌};
ghost use Rattle.samr_relay.specs.Relay.{turn, teller, reaches, hears, HasTurns, IsRelay};

/// Who tells whom in a round.
#[derive(Clone, Copy, Debug, PartialEq, Eq)]
pub enum Pattern {
    /// The ranks tell one after another, one round each, and each tells the next rank.
    Ring,
    /// The ranks tell one after another, so many rounds each, and each tells every other rank.
    Flood { each: u32 },
}

impl Pattern {
    /// Whose turn it is in a round, where the ranks were counted on without end.
    fn turn(self, round: u32) -> u32
        requires { HasTurns self }
        ensures { result ≡ turn self round }
    {
        match self {
            Pattern::Ring => round,
            Pattern::Flood { each } => round / each,
        }
    }

    /// Whether the rank that tells in a round tells this one, if it is another.
    fn reaches(self, ranks: u16, round: u32, to: u16) -> bool
        requires { 0 < ranks }
        ensures { result ≡ reaches self ranks round to }
    {
        match self {
            Pattern::Ring => u64::from(to) == (u64::from(round) + 1) % u64::from(ranks),
            Pattern::Flood { each: _ } => true,
        }
    }
}

/// A run: how many ranks and rounds there are, and who tells whom. Each rank visits each round.
#[derive(Clone, Copy, Debug, PartialEq, Eq)]
pub struct RelayRun {
    pub ranks: u16,
    pub rounds: u32,
    pub pattern: Pattern,
}

impl RelayRun {
    /// The rank that tells in a round.
    #[tactic(auto, unfolding(crate::specs::Relay::teller))]
    pub fn teller(&self, round: u32) -> u16
        requires { IsRelay self.now }
        ensures { result ≡ teller self.now round }
    {
        (self.pattern.turn(round) % u32::from(self.ranks)) as u16
    }

    /// Whether a rank is told a number in a round.
    #[tactic(auto, using(crate::proofs::Hearers::far_away, crate::proofs::Hearers::the_teller, crate::proofs::Hearers::is_reached))]
    pub fn hears(&self, round: u32, to: u16) -> bool
        requires { IsRelay self.now }
        ensures { result ≡ hears self.now round to }
    {
        if to >= self.ranks || to == self.teller(round) {
            return false;
        }
        self.pattern.reaches(self.ranks, round, to)
    }

    /// How many letters a rank awaits in a round.
    pub fn awaits(&self, round: u32, to: u16) -> usize
        requires { IsRelay self.now }
        ensures { result ≡ if hears self.now round to then 1 else 0 }
    {
        if self.hears(round, to) { 1 } else { 0 }
    }
}

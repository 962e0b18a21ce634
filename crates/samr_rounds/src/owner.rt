//! Which rank owns a cluster.

ghost use Rattle.std.specs.Prelude.{◌≡◌, None};
ghost use Rattle.std.specs.List.{fold};
ghost use Rattle.samr_rounds.specs.Owners.{better, owner_in};

/// How many tags of a box a rank has.
#[derive(Clone, Copy, Debug, PartialEq, Eq)]
pub struct RankTags {
    pub rank: u16,
    pub tags: u64,
}

/// Of two, the one with more tags, and the first on a tie.
fn better(best: Option<RankTags>, c: RankTags) -> Option<RankTags>
    ensures { result ≡ better best c }
{
    let Some(b) = best else {
        return Some(c);
    };
    if b.tags < c.tags {
        return Some(c);
    }
    Some(b)
}

/// The first that has the most tags.
fn best_of(counts: &[RankTags]) -> Option<RankTags>
    ensures { result ≡ fold better None counts.now }
{
    let mut best = None;
    for c in counts {
        best = better(best, *c);
    }
    best
}

/// The first rank that has the most tags, and 0 where there is no rank.
pub fn owner_of_counts(counts: &[RankTags]) -> u16
    ensures { result ≡ owner_in counts.now }
{
    match best_of(counts) {
        Some(c) => c.rank,
        None => 0,
    }
}

//! Draws from the generator of a seed.

ghost use Rattle.std.specs.Prelude.{◌≡◌, ◌+◌, ◌<◌, ℕ};
ghost use Rattle.samr_generate.specs.Draws.{generator, draw};

use rand_core::SeedableRng;
use rand_core::utils::NextWord;
use rand_pcg::Lcg64Xsh32;

/// The generator of a seed, of which no word was taken.
#[tactic(auto, unfolding(crate::specs::Draws::generator))]
pub fn seeded(seed: u32) -> Lcg64Xsh32
    ensures { result ≡ generator seed 0 }
{
    Lcg64Xsh32::seed_from_u64(u64::from(seed))
}

/// The next draw of a number below a bound.
#[tactic(auto, unfolding(crate::specs::Draws::draw))]
pub fn draw(words: &mut Lcg64Xsh32, bound: u32) -> u32
    requires { 0 < bound }
    ensures below { result < bound }
    ensures value { (seed n : ℕ) → words.old ≡ generator seed n → result ≡ draw seed n bound }
    ensures next { (seed n : ℕ) → words.old ≡ generator seed n → words.new ≡ generator seed (n + 1) }
{
    words.next_word() % bound
}

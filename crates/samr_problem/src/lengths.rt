//! The lengths of a domain on each level, the cells and boxes in it, and whether it has too many cells.

ghost use Rattle.std.specs.Prelude.{◌≡◌, ◌-◌, ◌*◌, ◌^◌, ◌<◌, nat_lt, unsigned_abs};
ghost use Rattle.samr_problem.specs.Lengths.{sizes, refined, lengths_of, cells_in, has_plane, has_cell, fits_along, fits_in};
ghost use Rattle.samr_problem.specs.Capped.{capped, capped_lengths, AreSmall};
ghost use Rattle.samr_problem.specs.Faults.{is_large};

use samr_box::IVec;

/// How many cells the finest domain may have.
const MOST_CELLS: u64 = 4_194_304;

/// The lengths of a domain, each up to 2^64 - 1.
#[derive(Clone, Copy)]
pub struct Lengths {
    pub i: u64,
    pub j: u64,
    pub k: u64,
}

impl Lengths {
    #[tactic(auto, unfolding(crate::specs::Capped::capped_lengths))]
    fn of(domain: IVec) -> Lengths
        ensures value { result ≡ sizes domain }
        ensures capped { result ≡ capped_lengths (sizes domain) }
    {
        Lengths {
            i: domain.i.unsigned_abs(),
            j: domain.j.unsigned_abs(),
            k: domain.k.unsigned_abs(),
        }
    }

    #[tactic(auto, unfolding(crate::specs::Capped::capped_lengths))]
    fn refined(self, ratio: IVec) -> Lengths
        ensures { result ≡ capped_lengths (refined self ratio) }
    {
        Lengths {
            i: self.i.saturating_mul(ratio.i.unsigned_abs()),
            j: self.j.saturating_mul(ratio.j.unsigned_abs()),
            k: self.k.saturating_mul(ratio.k.unsigned_abs()),
        }
    }

    fn has_more_cells(self, most: u64) -> bool
        ensures { result ≡ nat_lt most (capped (capped (self.i * self.j) * self.k)) }
    {
        self.i.saturating_mul(self.j).saturating_mul(self.k) > most
    }

    #[tactic(auto, unfolding(crate::specs::Lengths::has_cell))]
    fn has_cell(self, cell: IVec) -> bool
        ensures value { result ≡ has_cell self cell }
        ensures small { AreSmall cell }
    {
        let i = has_plane(self.i, cell.i);
        let j = has_plane(self.j, cell.j);
        let k = has_plane(self.k, cell.k);
        i && j && k
    }

    #[tactic(auto, unfolding(crate::specs::Lengths::fits_in))]
    fn holds_size(self, size: IVec) -> bool
        ensures value { result ≡ fits_in self size }
        ensures small { AreSmall size }
    {
        let i = fits_along(self.i, size.i);
        let j = fits_along(self.j, size.j);
        let k = fits_along(self.k, size.k);
        i && j && k
    }
}

fn has_plane(length: u64, z: i64) -> bool
    ensures value { result ≡ has_plane length z }
    ensures small { unsigned_abs z < 2 ^ 64 - 1 }
{
    0 <= z && z.unsigned_abs() < length
}

fn fits_along(length: u64, z: i64) -> bool
    ensures value { result ≡ fits_along length z }
    ensures small { unsigned_abs z < 2 ^ 64 - 1 }
{
    1 <= z && z.unsigned_abs() <= length
}

/// The lengths of a domain in cells of the level behind these ratios.
fn lengths_of(domain: IVec, ratios: &[IVec]) -> Lengths
    ensures { result ≡ capped_lengths (lengths_of domain ratios.now) }
{
    let mut lengths = Lengths::of(domain);
    for ratio in ratios {
        lengths = lengths.refined(*ratio);
    }
    lengths
}

/// Whether a domain has the cell.
pub fn is_cell(domain: IVec, cell: IVec) -> bool
    ensures { result ≡ has_cell (sizes domain) cell }
{
    Lengths::of(domain).has_cell(cell)
}

/// Whether a domain, in cells of the level behind these ratios, has the cell.
#[tactic(auto)]
pub fn is_level_cell(domain: IVec, ratios: &[IVec], cell: IVec) -> bool
    ensures { result ≡ has_cell (lengths_of domain ratios.now) cell }
{
    lengths_of(domain, ratios).has_cell(cell)
}

/// Whether a box of this size fits in a domain, in cells of the level behind these ratios.
#[tactic(auto)]
pub fn fits_in_level(domain: IVec, ratios: &[IVec], size: IVec) -> bool
    ensures { result ≡ fits_in (lengths_of domain ratios.now) size }
{
    lengths_of(domain, ratios).holds_size(size)
}

/// Whether a domain has more cells than a problem may have, on the level behind these ratios.
#[tactic(auto, using(crate::proofs::Capping::large_capped), unfolding(crate::specs::Faults::is_large))]
pub fn is_large(domain: IVec, ratios: &[IVec]) -> bool
    ensures { result ≡ is_large domain ratios.now }
{
    lengths_of(domain, ratios).has_more_cells(MOST_CELLS)
}

//! Parcels in order, each once.

ghost use Rattle.std.specs.Prelude.{◌≡◌};
ghost use Rattle.std.specs.Cmp.Lexicographic.{slice_cmp};
ghost use Rattle.std.specs.Ordering.{nat_cmp, is_eq};
ghost use Rattle.samr_level.specs.RefOrders.{in_order};
ghost use Rattle.samr_data.specs.ParcelOrder.{parcel_cmp};

use crate::Parcel;
use std::cmp::Ordering;

/// Where a list of values stands to another.
fn values_order(some: &[u32], others: &[u32]) -> Ordering
    ensures { result ≡ slice_cmp nat_cmp some.now others.now }
{
    some.cmp(others)
}

/// Where a parcel stands to another.
fn parcel_order(p: &Parcel, q: &Parcel) -> Ordering
    ensures { result ≡ parcel_cmp p.now q.now }
{
    let by_edge = p.edge.cmp(&q.edge);
    let by_origin = p.is_coarse.cmp(&q.is_coarse);
    let by_field = p.field.cmp(&q.field);
    let by_region = p.region.cmp(&q.region);
    match by_edge.then(by_origin).then(by_field).then(by_region) {
        Ordering::Equal => values_order(p.values.as_slice(), q.values.as_slice()),
        unequal => unequal,
    }
}

/// Whether two parcels are the same.
fn same_parcel(p: &Parcel, q: &Parcel) -> bool
    ensures { result ≡ is_eq (parcel_cmp p.now q.now) }
{
    parcel_order(p, q).is_eq()
}

/// The same parcels by edge, then by origin, by field and by region, each once.
pub fn in_parcel_order(mut parcels: Vec<Parcel>) -> Vec<Parcel>
    ensures { result.items ≡ in_order parcel_cmp parcels.items }
{
    parcels.sort_unstable_by(|p, q| parcel_order(p, q));
    parcels.dedup_by(|p, q| same_parcel(p, q));
    parcels
}

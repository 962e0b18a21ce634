//! Parcels by the box and the field that they are for.

ghost use Rattle.std.specs.Prelude.{◌≡◌, filter};
ghost use Rattle.std.specs.List.Sorted.{IsPermutation};
ghost use Rattle.samr_level.specs.RefOrders.{ref_cmp};
ghost use Rattle.samr_fill.specs.Writing.{is_for};
ghost use Rattle.samr_fill.specs.Orders.{order_to, AreInOrder};

use samr_data::Parcel;
use samr_level::{BoxRef, Edge};
use std::cmp::Ordering;

/// Where the head of an edge stands to a box.
fn head_to(e: Edge, base: BoxRef) -> Ordering
    ensures { result ≡ ref_cmp e.head base }
{
    e.head.cmp(&base)
}

/// The box at the head of an edge.
fn head_of(e: Edge) -> BoxRef
    ensures { result ≡ e.head }
{
    e.head
}

/// Where a parcel stands to those for a box and a field: before them, among them or after them.
fn order_to(parcel: &Parcel, base: BoxRef, field: u8) -> Ordering
    ensures { result ≡ order_to base field parcel.now }
{
    head_to(parcel.edge, base).then(parcel.field.cmp(&field))
}

/// The same parcels by the box that they are for, and then by field.
pub fn in_order(mut parcels: Vec<Parcel>) -> Vec<Parcel>
    ensures same { IsPermutation parcels.items result.items }
    ensures order { AreInOrder result.items }
{
    parcels.sort_unstable_by(|p, q| order_to(p, head_of(q.edge), q.field));
    parcels
}

/// The parcels for a box and a field, where all are in order.
pub fn for_box(parcels: &[Parcel], base: BoxRef, field: u8) -> &[Parcel]
    requires { AreInOrder parcels.now }
    ensures { result.now ≡ filter (λ p. is_for base field p) parcels.now }
{
    let first = parcels.partition_point(|p| order_to(p, base, field).is_lt());
    let rest = &parcels[first..];
    let count = rest.partition_point(|p| order_to(p, base, field).is_le());
    &rest[..count]
}

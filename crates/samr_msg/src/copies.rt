//! Copies of the lists in letters whose members take memory.

ghost use Rattle.std.specs.Prelude.{◌≡◌, IfOk};

use samr_balance::Gift;
use samr_box::Listed;
use samr_cluster::Ruling;
use samr_data::Parcel;
use samr_modify::Replaced;
use samr_sign::Signature;
use samr_tags::Seen;
use std::alloc::{AllocError as NoMemory, Global};

/// The same cells, edge by edge.
pub fn all_seen(alloc: Global, list: &Listed<Seen>) -> Result<Listed<Seen>, NoMemory>
    ensures { IfOk result (λ it. it ≡ list.now) }
{
    let mut all = Vec::new(alloc);
    for one in list.as_slice() {
        all.push(one.copied(alloc)?)?;
    }
    Ok(Listed::from_vec(all))
}

/// The same signatures.
pub fn all_signatures(
    alloc: Global,
    list: &Listed<Signature>,
) -> Result<Listed<Signature>, NoMemory>
    ensures { IfOk result (λ it. it ≡ list.now) }
{
    let mut all = Vec::new(alloc);
    for one in list.as_slice() {
        all.push(one.copied(alloc)?)?;
    }
    Ok(Listed::from_vec(all))
}

/// The same rulings.
pub fn all_rulings(alloc: Global, list: &Listed<Ruling>) -> Result<Listed<Ruling>, NoMemory>
    ensures { IfOk result (λ it. it ≡ list.now) }
{
    let mut all = Vec::new(alloc);
    for one in list.as_slice() {
        all.push(one.copied(alloc)?)?;
    }
    Ok(Listed::from_vec(all))
}

/// The same pieces and need.
pub fn gift(alloc: Global, given: &Gift) -> Result<Gift, NoMemory>
    ensures { IfOk result (λ it. it ≡ given.now) }
{
    Ok(Gift {
        pieces: given.pieces.copied(alloc)?,
        need: given.need,
    })
}

/// The same entry.
fn replaced(alloc: Global, entry: &Replaced) -> Result<Replaced, NoMemory>
    ensures { IfOk result (λ it. it ≡ entry.now) }
{
    Ok(Replaced {
        old: entry.old,
        news: entry.news.copied(alloc)?,
        edges: entry.edges.copied(alloc)?,
    })
}

/// The same entries.
pub fn all_replaced(alloc: Global, list: &Listed<Replaced>) -> Result<Listed<Replaced>, NoMemory>
    ensures { IfOk result (λ it. it ≡ list.now) }
{
    let mut all = Vec::new(alloc);
    for one in list.as_slice() {
        all.push(replaced(alloc, one)?)?;
    }
    Ok(Listed::from_vec(all))
}

/// The same parcel.
fn parcel(alloc: Global, one: &Parcel) -> Result<Parcel, NoMemory>
    ensures { IfOk result (λ it. it ≡ one.now) }
{
    Ok(Parcel {
        edge: one.edge,
        is_coarse: one.is_coarse,
        field: one.field,
        region: one.region,
        values: one.values.copied(alloc)?,
    })
}

/// The same parcels.
pub fn all_parcels(alloc: Global, list: &Listed<Parcel>) -> Result<Listed<Parcel>, NoMemory>
    ensures { IfOk result (λ it. it ≡ list.now) }
{
    let mut all = Vec::new(alloc);
    for one in list.as_slice() {
        all.push(parcel(alloc, one)?)?;
    }
    Ok(Listed::from_vec(all))
}

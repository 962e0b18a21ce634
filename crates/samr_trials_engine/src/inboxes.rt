//! Inboxes over queues: empty ones, full ones, and rests.

ghost use Rattle.std.specs.Prelude.{◌≡◌, length};

use crate::teller::Told;
use samr_link::{Fabric, Link, QueueEnd, QueueFabric};
use std::sync::Wait;
use std::test::Fail;

/// The number of the first letter that comes back, of so many that the first rank posts to the
/// second.
fn first_back<R: Wait>(rt: &R, end: &mut QueueEnd<Told>, letters: u64) -> Option<u64>
    requires { (end.old.rank ≡ 0) × (length end.old.making ≡ 2) }
{
    'letters: for number in 0..letters {
        if let Err(letter) = end.post(rt, 1, Told { number }) {
            return Some(letter.number);
        }
    }
    None
}

#[test]
fn one_end_per_rank(rt: HostRuntime) -> Result<(), Fail> {
    let mut fabric = QueueFabric::<Told>::new();
    let mut ends = fabric.make_ends(rt.alloc(), 3)?;
    assert_eq!(rt; ends.len(), 3);
    assert!(rt; ends[2].take(&rt).is_none());
    Ok(())
}

#[test]
fn full_inbox_gives_letters_back(rt: HostRuntime) -> Result<(), Fail> {
    let mut fabric = QueueFabric::<Told>::new();
    let mut ends = fabric.make_ends(rt.alloc(), 2)?;
    assert_eq!(rt; first_back(&rt, &mut ends[0], 257), Some(256));
    let Some(first) = ends[1].take(&rt) else {
        return Err("no letter was there".into());
    };
    assert_eq!(rt; first.number, 0);
    Ok(())
}

#[test]
fn no_rest_where_a_letter_is(rt: HostRuntime) -> Result<(), Fail> {
    let mut fabric = QueueFabric::<Told>::new();
    let mut ends = fabric.make_ends(rt.alloc(), 2)?;
    assert!(rt; first_back(&rt, &mut ends[0], 2).is_none());
    ends[1].rest(&rt);
    ends[1].rest(&rt);
    let Some(first) = ends[1].take(&rt) else {
        return Err("no letter was there".into());
    };
    assert_eq!(rt; first.number, 0);
    ends[1].rest(&rt);
    Ok(())
}

#[test]
fn no_rest_where_all_are_roused(rt: HostRuntime) -> Result<(), Fail> {
    let mut fabric = QueueFabric::<Told>::new();
    let mut ends = fabric.make_ends(rt.alloc(), 2)?;
    ends[1].rouse();
    ends[0].rest(&rt);
    ends[1].rest(&rt);
    assert!(rt; ends[1].take(&rt).is_none());
    ends[1].rest(&rt);
    Ok(())
}

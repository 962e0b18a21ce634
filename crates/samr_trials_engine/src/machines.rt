//! Two machines, turn by turn.

ghost use Rattle.std.specs.Prelude.{◌<◌};

use crate::teller::{TELLING, Teller, Told, new_teller};
use samr_stage::{Machine, Mail, Turn};
use std::alloc::{AllocError as NoMemory, Global};
use std::test::Fail;

fn machine(alloc: Global, rank: u16) -> Result<Machine<Teller>, NoMemory>
    requires { rank < 2 }
{
    Machine::new(alloc, new_teller(rank))
}

fn finishes(alloc: Global, machine: &mut Machine<Teller>) -> Result<bool, NoMemory> {
    if machine.finished() {
        return Ok(false);
    }
    let turn = machine.turn(alloc, None, true)?;
    Ok(matches!(turn, Turn::Finished) && machine.finished())
}

#[test]
fn letters_find_their_rank(rt: HostRuntime) -> Result<(), Fail> {
    let mut first = machine(rt.alloc(), 0)?;
    let mut second = machine(rt.alloc(), 1)?;
    assert_eq!(rt; first.label(), TELLING);
    assert!(rt; second.idle());
    assert!(rt; matches!(first.turn(rt.alloc(), None, false)?, Turn::Idle));
    let Turn::Posted(letter) = first.turn(rt.alloc(), None, true)? else {
        return Err("no letter was given out".into());
    };
    let copy = letter.copied(rt.alloc())?;
    let strange = Told { number: 8 };
    for letter in [strange, letter, copy] {
        assert!(rt; matches!(second.turn(rt.alloc(), Some(letter), true)?, Turn::Took));
    }
    assert!(rt; finishes(rt.alloc(), &mut first)?);
    assert!(rt; finishes(rt.alloc(), &mut second)?);
    assert_eq!(rt; second.rank(), 1);
    assert!(rt; second.into_program().left);
    Ok(())
}

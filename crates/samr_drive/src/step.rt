//! One small step of the driver of a rank.

ghost use Rattle.std.specs.Prelude.{◌≡◌, [], ◌∷◌, ◌++◌, ℕ, true, map, All, Option, IfOk, OnOk};
ghost use Rattle.std.specs.Option.{option_to_list};
ghost use Rattle.samr_drive.specs.Driven.{IsSteady, IsSame, CanPost, Drove};
ghost use Rattle.samr_drive.specs.Step.{hand_of, resting, after_turn, IsOverIf};
ghost use Rattle.samr_link.specs.Ends.{IsSameEnd};
ghost use Rattle.samr_link.specs.Names.{addressed};

use samr_link::Link;
use samr_stage::{Machine, Mail, Program, Turn};
use std::alloc::{AllocError as NoMemory, Global};
use std::sync::Wait;

/// What a step of a driver came to, with the letter that is left in its hand.
#[derive(Drop)]
pub enum Step<M> {
    /// Something moved.
    Moved(Option<M>),
    /// Nothing moved.
    Waits(Option<M>),
    /// The rank has finished, and nothing is left in hand.
    Over,
}

/// Posts the letter in hand, takes a letter, and takes a turn, each where it can be done.
pub fn step_once<R: Wait, P: Program, L: Link<Mail = P::Mail>>(
    rt: &R,
    alloc: Global,
    machine: &mut Machine<P>,
    end: &mut L,
    hand: Option<P::Mail>,
) -> Result<Step<P::Mail>, NoMemory>
    requires { IsSteady P.Program P.Mail.Mail L.Link machine.old end.old hand }
    ensures same { IsSame P.Program P.Mail.Mail L.Link end.old end.new }
    ensures steady { IfOk result (λ step. IsSteady P.Program P.Mail.Mail L.Link machine.new end.new (hand_of step)) }
    ensures drove { IfOk result (λ step. Drove P.Program P.Mail.Mail L.Link machine.old end.old hand machine.new end.new (hand_of step)) }
    ensures over { IfOk result (λ step. IsOverIf step machine.new) }
{
    let hand = post_hand(rt, end, hand);
    let took = take_one(rt, alloc, machine, end)?;
    let turn = machine.turn(alloc, None, hand.is_none())?;
    Ok(after(turn, hand, took))
}

/// Posts the letter in hand, and gives it back where there was no room.
fn post_hand<R: Wait, L: Link>(rt: &R, end: &mut L, hand: Option<L::Mail>) -> Option<L::Mail>
    requires { All (CanPost L.Mail.Mail L.Link end.old) (option_to_list hand) }
    ensures same { IsSameEnd L.rank L.ends L.making L.tells_posted L.tells_taken end.old end.new }
    ensures hand { All (CanPost L.Mail.Mail L.Link end.old) (option_to_list result) }
    ensures posted { L.tells_posted end.old ≡ true → (to : ℕ)
        → L.posted end.new to ++ addressed to (map L.Mail.name (option_to_list result)) ≡ L.posted end.old to ++ addressed to (map L.Mail.name (option_to_list hand)) }
    ensures taken { L.tells_taken end.old ≡ true → L.taken end.new ≡ L.taken end.old }
{
    match hand {
        None => None,
        Some(letter) => post_letter(rt, end, letter),
    }
}

fn post_letter<R: Wait, L: Link>(rt: &R, end: &mut L, letter: L::Mail) -> Option<L::Mail>
    requires { CanPost L.Mail.Mail L.Link end.old letter }
    ensures same { IsSameEnd L.rank L.ends L.making L.tells_posted L.tells_taken end.old end.new }
    ensures hand { All (CanPost L.Mail.Mail L.Link end.old) (option_to_list result) }
    ensures posted { L.tells_posted end.old ≡ true → (to : ℕ)
        → L.posted end.new to ++ addressed to (map L.Mail.name (option_to_list result)) ≡ L.posted end.old to ++ addressed to (L.Mail.name letter ∷ []) }
    ensures taken { L.tells_taken end.old ≡ true → L.taken end.new ≡ L.taken end.old }
{
    let to = letter.name().addressee;
    match end.post(rt, to, letter) {
        Ok(()) => None,
        Err(letter) => Some(letter),
    }
}

/// Takes a letter for the machine, and says whether there was one.
fn take_one<R: Wait, P: Program, L: Link<Mail = P::Mail>>(
    rt: &R,
    alloc: Global,
    machine: &mut Machine<P>,
    end: &mut L,
) -> Result<bool, NoMemory>
    ensures same { IsSame P.Program P.Mail.Mail L.Link end.old end.new }
    ensures steady { OnOk result ((hand : Option P.Mail) → IsSteady P.Program P.Mail.Mail L.Link machine.old end.old hand → IsSteady P.Program P.Mail.Mail L.Link machine.new end.new hand) }
    ensures drove { OnOk result ((hand : Option P.Mail) → Drove P.Program P.Mail.Mail L.Link machine.old end.old hand machine.new end.new hand) }
{
    match end.take(rt) {
        None => Ok(false),
        Some(letter) => {
            machine.turn(alloc, Some(letter), false)?;
            Ok(true)
        }
    }
}

/// What a step came to, after the machine's turn.
fn after<M: Drop>(turn: Turn<M>, hand: Option<M>, took: bool) -> Step<M>
    ensures { result ≡ after_turn turn hand took }
{
    match turn {
        Turn::Took => Step::Moved(hand),
        Turn::Posted(letter) => Step::Moved(Some(letter)),
        Turn::Advanced => Step::Moved(hand),
        Turn::Finished => match hand {
            None => Step::Over,
            Some(letter) => rest(Some(letter), took),
        },
        Turn::Idle => rest(hand, took),
    }
}

fn rest<M: Drop>(hand: Option<M>, took: bool) -> Step<M>
    ensures { result ≡ resting hand took }
{
    if took {
        Step::Moved(hand)
    } else {
        Step::Waits(hand)
    }
}

//! The letters that a machine keeps, by name: one is put in, those of a label are taken out.

ghost use Rattle.std.specs.Prelude.{◌≡◌, ◌≢◌, ◌≤◌, take, drop, length, All, OnOk, IfOk};
ghost use Rattle.std.specs.declared.cmp.Ordering.TheVariants.{Less};
ghost use Rattle.samr_stage.specs.Label.{label_cmp};
ghost use Rattle.samr_stage.specs.Held.{AreRising};
ghost use Rattle.samr_stage.specs.Machine.{of_label, of_others, stored};

use crate::label::Label;
use crate::mail::Mail;
use std::alloc::AllocError as NoMemory;
use std::mem;

/// How many of the letters are of a label, which is the first label that they may be of. The
/// letters ascend by name, so these come first.
pub fn count_of<M: Mail>(kept: &[M], label: Label) -> usize
    requires rising { AreRising M.name kept.now }
    requires ahead { All (λ letter. label_cmp (M.name letter).label label ≢ Less) kept.now }
    ensures front { take result kept.now ≡ of_label M.name label kept.now }
    ensures rest { drop result kept.now ≡ of_others M.name label kept.now }
    ensures within { result ≤ length kept.now }
{
    kept.partition_point(|letter| letter.name().label <= label)
}

/// Takes out the letters of a label, which is the first label that they may be of.
pub fn take_out<M: Mail>(kept: &mut Vec<M>, label: Label) -> Result<Vec<M>, NoMemory>
    requires rising { AreRising M.name kept.old.items }
    requires ahead { All (λ letter. label_cmp (M.name letter).label label ≢ Less) kept.old.items }
    ensures front { IfOk result (λ held. held.items ≡ of_label M.name label kept.old.items) }
    ensures rest { OnOk result (kept.new.items ≡ of_others M.name label kept.old.items) }
{
    let count = count_of(kept, label);
    let rest = kept.split_off(count)?;
    Ok(mem::replace(kept, rest))
}

/// Puts a letter in its place by name, and drops it where one of its name is there.
pub fn store<M: Mail>(kept: &mut Vec<M>, letter: M) -> Result<(), NoMemory>
    requires { AreRising M.name kept.old.items }
    ensures { OnOk result (kept.new.items ≡ stored M.name kept.old.items letter) }
{
    let name = letter.name();
    let place = match kept.binary_search_by(|other| other.name().cmp(&name)) {
        Ok(_) => return Ok(()),
        Err(place) => place,
    };
    kept.insert(place, letter)?;
    Ok(())
}

//! Which roots a rank directs.

ghost use Rattle.std.specs.Prelude.{◌≡◌, ◌<◌, ◌++◌, IfOk, OnOk, if◌then◌else◌, ◌∷◌, []};
ghost use Rattle.samr_rounds.specs.Rounds.{directed};

use samr_box::IBox;
use std::alloc::{AllocError as NoMemory, Global};

/// Adds a root where a rank directs it.
fn push_where(to: &mut Vec<IBox>, directs: bool, root: IBox) -> Result<(), NoMemory>
    ensures { OnOk result (to.new.items ≡ to.old.items ++ (if directs then root ∷ [] else [])) }
{
    if directs {
        to.push(root)?;
    }
    Ok(())
}

/// The roots that a rank directs: those whose number, counted from 0, is the rank's modulo `ranks`.
///
/// # Errors
///
/// Where there is not enough memory.
pub fn directed(
    alloc: Global,
    roots: &[IBox],
    director: u16,
    ranks: u16,
) -> Result<Vec<IBox>, NoMemory>
    requires { 0 < ranks }
    ensures { IfOk result (λ v. v.items ≡ directed ranks director roots.now) }
{
    let mut own = Vec::new(alloc);
    for (number, root) in roots.iter().enumerate() {
        push_where(
            &mut own,
            number % usize::from(ranks) == usize::from(director),
            *root,
        )?;
    }
    Ok(own)
}

//! The tree of the ranks, with rank 0 at its root, and a sum over all ranks by way of it: up the
//! tree each rank adds what its children tell it, and down the tree each is told the total.
#![tactic(auto)]

mod going_down;
mod going_up;
mod numbers;
mod on_all;
mod parts;
mod rounds;
mod sum_mail;
mod sum_up;
mod tell_down;
mod tree;
mod tree_sum;

pub use numbers::Numbers;
pub use on_all::sum_on_all;
pub use rounds::height;
pub use sum_mail::SumMail;
pub use sum_up::SumUp;
pub use tell_down::TellDown;
pub use tree::{children, depth, parent};
pub use tree_sum::TreeSum;

//! What each stage of a pass gets of a mesh, that it is what the stage needs, and that what a stage gives is what the
//! next one starts with.
//!
//! A stage promises what it does for any whole that meets its premises. Here these wholes are made of a pass over a
//! level: the clustering, the balance, the modification and the four bridges. Definitions and laws alone; the contracts
//! of the functions of `laws` are the laws.
#![tactic(auto)]

mod laws;

pub use laws::{balances, bridges, clusterings, handing_on, modifications};

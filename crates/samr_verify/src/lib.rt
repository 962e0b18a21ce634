//! The checker of reports: what a printed mesh has to be, and the first fault of one that is not.
//!
//! `specs/` defines what a line means, the form of a report, the faults of a mesh, and what is true of a mesh
//! without fault. Read `printed` and `fault` first, then `counts`, `boxes`, `nesting` and `edges`, one for each
//! kind of fault, with `window` and `due` below them, and then `mesh`. `line` and `place` have the form of a
//! report; `words`, `reading` and `meaning` read a line, `cutting` cuts a text in lines, and `gathering` and `verdict`
//! put the answer together.
#![tactic(auto)]

mod boxes;
mod counts;
mod cutting;
mod due;
mod edges;
mod fault;
mod form_laws;
mod gathering;
mod ground;
mod laws;
mod line;
mod look_up;
mod meaning;
mod mesh;
mod nearby;
mod nesting;
mod number;
mod place;
mod printed;
mod reach;
mod reading;
mod scales;
mod text_laws;
mod verdict;
mod window;
mod words;

pub use fault::Fault;
pub use form_laws::{
    accepted_are_reports, lines_can_go_on, reports_are_accepted, reports_are_formed,
};
pub use laws::{first_is_first, no_fault_is_sound, worked_rows};
pub use mesh::mesh_fault;
pub use printed::{PrintedBox, PrintedEdge, PrintedLevel, PrintedMesh};
pub use text_laws::{meanings_are_one, reports_are_told, sound_texts_are_sound, verdicts_are_one};
pub use verdict::{Verdict, verify_text};

//! Tests alone: whole texts, and what is read back from them, by the public calls of the crates of the
//! program.
#![tactic(auto)]

#[cfg(test)]
mod io;
#[cfg(test)]
mod keys;
#[cfg(test)]
mod made;
#[cfg(test)]
mod mesh_plain;
#[cfg(test)]
mod problem;
#[cfg(test)]
mod problem_texts;
#[cfg(test)]
mod report;
#[cfg(test)]
mod run;
#[cfg(test)]
mod spellings;
#[cfg(test)]
mod tables;
#[cfg(test)]
mod verify;

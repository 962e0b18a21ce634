//! The texts that tell of a problem and of a run, from what each rank tells of its own boxes: the whole report,
//! the last step in numbers, and level 0 alone.
//!
//! `specs/` defines each text over whole levels, and by the rows of all ranks; the laws say that both are one
//! text. Read `lines`, `level_lines` and `row_lines` for single lines, `rows` and `told` for what ranks tell,
//! and then `level_text`, `step_text` and `whole_text`. `level0_text` and `last_step` have the other two texts,
//! `counting` the test of what `report` asks for.
#![tactic(auto)]

mod counting;
mod last_step;
mod laws;
mod level0_text;
mod level_lines;
mod level_text;
mod lines;
mod row_lines;
mod rows;
mod step_text;
mod told;
mod whole_text;

pub use counting::is_countable;
pub use last_step::{can_sum, summary};
pub use laws::{
    lines_merge, numbers_by_hand, rows_give_the_report, rows_give_the_summary, runs_are_countable,
};
pub use level0_text::check_text;
pub use lines::{put_count, put_line};
pub use rows::{BoxSum, LevelRows, RankRows, StepRows};
pub use whole_text::report;

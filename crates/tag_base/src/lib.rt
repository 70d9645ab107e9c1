//! Reads the base and the plan of a plant from TOML.
//!
//! A base names the tags of a plant and the groups of its calculations. A plan names the files of a run.
//!
//! The model reads a text by rules in a fixed order. The rules are in `specs/`, over the document that `toml` returns.
//! [`read_base`] and [`read_plan`] return what the text says. A text that breaks a rule is refused with the first rule
//! that it breaks and the place of the table. A count above its limit is refused with the count. `calc_parser` reads
//! each formula, and `calc_check` checks the calculations of a group.
#![tactic(auto)]

mod access;
mod base;
mod calculation;
mod definition;
mod file_name;
mod group;
mod input;
mod plan;
mod refusal;
mod schedule;
mod tag;

pub use base::read_base;
pub use calc_check::Checked;
pub use definition::{Base, GroupDef};
pub use file_name::FileName;
pub use plan::read_plan;
pub use refusal::TextNo;
pub use schedule::{Plan, Refresher};
pub use trend_num::{Name, TagDef, Tuning, What};

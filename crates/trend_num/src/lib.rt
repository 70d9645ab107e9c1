//! Numbers, names and types of a plant historian.
//!
//! The crate has the types that every layer shares (points, records, tunings, names) and exact arithmetic on lines and
//! slopes. `specs/` defines ranges, limits, lines, names, numerals and questions; `trend_model` defines what a tag's
//! archive is. Each call returns exactly what its definition in `specs/` says. No call allocates memory. `name_from`
//! and `numeral` return `None` if the bytes are no name or no numeral.
#![tactic(auto)]

mod archive;
mod counter;
mod digits;
mod equality;
mod fraction;
mod measure;
mod name;
mod point;
mod query;
mod reading;
mod refusal;
mod sending;
mod slope;
mod tag_def;
mod tuning;
mod value;

pub use archive::{Kind, MAX_RECORDS, Rec, Snap, Summary};
pub use counter::Steps;
pub use digits::numeral;
pub use equality::{same_name, same_rec, same_summary, same_tuning};
pub use fraction::{Frac, line_at, round_half_up};
pub use measure::Measure;
pub use name::{Name, name_from};
pub use point::{MAX_T, MAX_V, Point, in_range};
pub use query::TagQuery;
pub use reading::Reading;
pub use refusal::{Reason, WantOfMemory, What};
pub use sending::Sending;
pub use slope::{deviates, slope_cmp};
pub use tag_def::TagDef;
pub use tuning::{MAX_DEV, Tuning, tuning_ok};
pub use value::{Bad, CalcValue};

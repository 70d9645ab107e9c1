//! What a tag's archive is, and the laws that hold of it for every tuning and every history.
//!
//! `specs/` has the definitions, over whole histories of values and retunings. Read them in this order:
//!
//! - `History`: what an exception test sends.
//! - `Walk`: which values compression keeps, of a tag of lines and of a step tag.
//! - `Content`: what records read as, and which spans are clean.
//! - `Contents`: the content as a list.
//! - `Reads`: what a list of points reads as at a time.
//! - `Bound`: the promise, which cites all of these.
//! - `Doors`: the two values that decide in place of all since the hinge.
//! - `State`: what a tag keeps, and how one more event changes it.
//! - `Parts`: which records and summary can be a tag's.
//! - `Windows`: what a window measures.
//!
//! `Lists`, `Orders` and `ReadFacts` define further words of the laws. `Examples` has small histories.
//!
//! Each law is the contract of a public function without parameters, whose body is empty. Higher layers cite the lemmas
//! from which the laws are proved.
#![tactic(auto)]

mod bound_law;
mod content_law;
mod example;
mod order_law;
mod read_law;
mod step_law;
mod window_example;
mod window_law;

pub use bound_law::bound;
pub use content_law::{closed_is_content, listed_is_content};
pub use example::{
    own_tuning_is_needed, spans_exist, twice_is_needed, untested_value_is_refused, worked_contents,
    worked_histories, worked_retunings, worked_stairs,
};
pub use order_law::{
    held_is_last, held_is_sent, kept_points_rise, no_deviation_is_exact, no_wait_sends_all,
    prior_is_sent, records_only_grow, sent_in_order_rises,
};
pub use read_law::{
    exact_reads_are_the_content, read_at_a_point_is_exact, read_of_a_line_lies_between,
    read_of_a_stair_is_flat, rounded_is_next,
};
pub use step_law::{after_keeps_parts, after_stands, history_parts_are_ok};
pub use window_example::{worked_reads, worked_stair_windows, worked_windows};
pub use window_law::{areas_add_up, counts_add_up, uncovered_windows_have_no_value};

//! Measures of a window of a tag's content: area, avg, total, low, high, count, first and last.
//!
//! A window of the closed content has a shape: its start as it reads, the points strictly inside, and its end as it
//! reads. `Windows` in `trend_model` defines each measure of a list of points, for lines and for the stairs of a step
//! tag. Each call here returns that measure of the closed content. No window is refused, and no measure needs an
//! allocator.
//!
//! `answer` replies to each question about a tag: with a read, a list of points, or a measure of a window.
//!
//! No contract says how a window is measured. One search for each end of the window finds what the tag reads there,
//! whether the window is covered, and which points are inside. The walk over these points goes in runs of one page
//! each. A whole page answers with its totals, the pages at the ends with their points.
#![tactic(auto)]

mod inside;
mod measure;
mod reply;
mod shape;

pub use measure::{window, window_step, window_value};
pub use reply::answer;

//! Tables of TOML documents.
//!
//! The texts of a plant are TOML. Each kind of them asks the same of a table: which keys it has, and which texts and
//! arrays it has at them. The model is the data that `toml` reads. `specs/Tables` defines the answer to each question
//! over the members of a table, and each function returns that answer. For bytes that spell no document [`document`]
//! returns `None`.
#![tactic(auto)]

mod keys;
mod places;
mod text;
mod values;

pub use keys::has_keys;
pub use places::{Places, places_at};
pub use text::document;
pub use values::{has_count, items_at, string_at, value_at};

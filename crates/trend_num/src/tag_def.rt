// What a tag is.
use crate::name::Name;
use crate::tuning::Tuning;

/// The definition of a tag.
#[derive(Clone, Copy, Debug, PartialEq, Eq)]
pub struct TagDef {
    /// Its name. No other tag has it.
    pub name: Name,
    /// The deviations and times of its exception test and its compression.
    pub tuning: Tuning,
    /// Whether it is a step tag, whose value stays the same from point to point, like that of a valve or a setpoint.
    /// Any other tag follows straight lines.
    pub step: bool,
}

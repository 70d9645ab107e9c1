//! Tests of a tag's cell and of the board next to it: the board's snapshots, and cells on devices that fail and crash.
#![tactic(auto)]

#[cfg(test)]
mod boards;
#[cfg(test)]
mod cells;
#[cfg(test)]
mod sessions;
#[cfg(test)]
mod workers;

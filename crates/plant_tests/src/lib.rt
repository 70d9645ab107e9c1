//! Tests of whole runs of the program, with input, files, output and devices in memory. There are also tests of the log
//! of a plant, and of its shifts.
#![tactic(auto)]

#[cfg(test)]
mod drills;
#[cfg(test)]
mod failures;
#[cfg(test)]
mod gates;
#[cfg(test)]
mod held;
#[cfg(test)]
mod log_device;
#[cfg(test)]
mod log_stops;
#[cfg(test)]
mod pairs;
#[cfg(test)]
mod plants;
#[cfg(test)]
mod runs;
#[cfg(test)]
mod shift_calendars;
#[cfg(test)]
mod shift_windows;
#[cfg(test)]
mod shift_words;
#[cfg(test)]
mod stops;
#[cfg(test)]
mod stored;

//! Tests of devices and of what is kept on them: each byte, crashes, damage, and the number of calls.
#![tactic(auto)]

#[cfg(test)]
mod devices;
#[cfg(test)]
mod lanes;
#[cfg(test)]
mod records;
#[cfg(test)]
mod recovery;
#[cfg(test)]
mod spelled;
#[cfg(test)]
mod told;
#[cfg(test)]
mod windows;

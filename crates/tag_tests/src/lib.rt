//! Tests of one tag: numbers, the bytes that come in and go out, the exception test, compression, contents, reads and
//! windows.
#![tactic(auto)]

#[cfg(test)]
mod contents;
#[cfg(test)]
mod cores;
#[cfg(test)]
mod doors;
#[cfg(test)]
mod frames;
#[cfg(test)]
mod gates;
#[cfg(test)]
mod numbers;
#[cfg(test)]
mod reads;
#[cfg(test)]
mod spelled;
#[cfg(test)]
mod streams;
#[cfg(test)]
mod windows;

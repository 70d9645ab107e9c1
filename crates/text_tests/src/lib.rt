//! Tests of texts: formulas, bases, plans, rows of files, and printed lines.
#![tactic(auto)]

#[cfg(test)]
mod bases;
#[cfg(test)]
mod calculations;
#[cfg(test)]
mod formulas;
#[cfg(test)]
mod lines;
#[cfg(test)]
mod reports;
#[cfg(test)]
mod rows;
#[cfg(test)]
mod spelled;
#[cfg(test)]
mod statuses;

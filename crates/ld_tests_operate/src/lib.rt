//! Tests of what an operator asks of a log.
#![tactic(auto)]

#[cfg(test)]
mod filling;
#[cfg(test)]
mod late;
#[cfg(test)]
mod registers;
#[cfg(test)]
mod status;
#[cfg(test)]
mod trims;

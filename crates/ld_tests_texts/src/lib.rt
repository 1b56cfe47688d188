//! Tests of numbers, names and configurations, and of the lines of schedules and transcripts.
#![tactic(auto)]

#[cfg(test)]
mod batch;
#[cfg(test)]
mod config;
#[cfg(test)]
mod hints;
#[cfg(test)]
mod ids;
#[cfg(test)]
mod lsn;
#[cfg(test)]
mod maker;
#[cfg(test)]
mod schedule;
#[cfg(test)]
mod transcript;
#[cfg(test)]
mod words;

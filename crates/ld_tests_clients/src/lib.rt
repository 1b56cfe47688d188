//! Tests of sequencers and readers, alone and together.
#![tactic(auto)]

#[cfg(test)]
mod clients;
#[cfg(test)]
mod reader;
#[cfg(test)]
mod sequencer;

//! A register whose changes are records that several programs append to.
#![tactic(auto)]

mod asked;
mod asking;
mod copying;
mod fresh;
mod journal;
mod laws;
mod mark;
mod questions;
mod shared;

pub use copying::{CopyFault, copy};
pub use laws::{
    calls_are_in_order, programs_agree, programs_share_one_register, records_are_calls,
};
pub use mark::Mark;
pub use shared::SharedRegister;

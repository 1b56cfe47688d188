//! The register that hands out epochs and generations, and keeps the summaries of closed epochs and who their nodes are.
#![tactic(auto)]

mod borrowed;
mod change;
mod checking;
mod contents;
mod disk;
mod fault;
mod faulty;
mod fixed;
mod laws;
mod log;
mod register;
mod replay;

pub use disk::DiskRegister;
pub use fault::RegisterFault;
pub use faulty::FaultyRegister;
pub use laws::{
    activations_are_shown, bytes_lead_to_contents, calls_are_steps, closes_are_shown, epochs_rise,
    failures_are_told, generations_rise, looks_agree, nothing_falls, specs_stay, steps_make_lists,
    summaries_stay,
};
pub use register::{Drawn, Grant, Register, View};

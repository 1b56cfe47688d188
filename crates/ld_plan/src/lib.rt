//! The plan by which an epoch is closed, from what its nodes told.
#![tactic(auto)]

mod claim;
mod decided;
mod item;
mod plans;

pub use claim::Claim;
pub use decided::Decided;
pub use item::{Item, Items, Plan};
pub use plans::plan;

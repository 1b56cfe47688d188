//! Disks: what a read gives, what a crash may leave, and the room and the faults of their calls.
#![tactic(auto)]

mod borrowed;
mod bytes;
mod disk;
mod entry;
mod fate;
mod kept;
mod laws;
mod memory;

pub use disk::{Disk, Fault, Picture};
pub use laws::{fault_comes_in_its_call, last_picture_decides, reads_are_fine};
pub use memory::MemDisk;

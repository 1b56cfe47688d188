//! The command-line arguments: which command they ask for, and why they are none.
#![tactic(auto)]

mod address;
mod argument;
mod arguments;
mod cause;
mod command;
mod configured;
mod copying;
mod file_name;
mod following;
mod grammar;
mod host;
mod law;
mod number;
mod reach;
mod refusal;
mod stopped;
mod words;

pub use address::{Address, Addresses, Listen, NodeAddress, Reach};
pub use cause::config_cause;
pub use command::{
    AppendWords, Command, Company, CopyWords, CrowdWords, LogWords, MendWords, NodeWords, Places,
    RegisterWords, ReplaceWords, ShowWords, Shown, StatusWords, TailWords, TrimWords,
};
pub use file_name::FileName;
pub use law::words_ask_for_one_command;
pub use words::{places, read, reason};

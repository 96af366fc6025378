#![tactic(auto)]

// What an accepted job answers: its slots are laid out as runs, and the runs are asked.
mod accepted;
pub mod laid;

pub use accepted::Accepted;

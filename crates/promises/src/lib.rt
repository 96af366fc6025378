#![tactic(auto)]

// What callers may rely on, shown from the public contracts alone.
pub mod engines;
pub mod others;
pub mod read;
pub mod twice;

// What two calls gave.
#[derive(Drop)]
pub struct Pair<T> {
    pub one: T,
    pub other: T,
}

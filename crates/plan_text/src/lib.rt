// A plan's division as text for a person, and as a picture.
#![tactic(auto)]

mod commands;
mod laid;
mod picture;
mod telling;
mod tree;

pub use telling::{View, report};

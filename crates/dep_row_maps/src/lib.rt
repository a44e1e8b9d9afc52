//! The rows of the tables against the maps of the state: what an edit of the rows makes of them, and what is read.
#![tactic(auto)]

pub mod laws;

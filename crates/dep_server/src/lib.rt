//! The laws of the runs of the deposit machine: what follows for whoever deposits from the promise that the hub (`dep_hub`)
//! keeps.
#![tactic(auto)]

pub mod laws;

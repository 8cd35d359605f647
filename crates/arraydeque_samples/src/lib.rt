//! What tests are made of: deques at every start, and iterators that note how often they are asked.
#![tactic(auto)]

pub mod asked;
pub mod build;

//! Tests of memory: how much a deque's calls ask for, what becomes of them where it is refused, and
//! which items are dropped; there is nothing here to call.
#![tactic(auto)]

#[cfg(test)]
use arraydeque_samples::{asked, build};

#[cfg(test)]
mod drops;
#[cfg(test)]
mod in_place;
#[cfg(test)]
mod refusals;
#[cfg(test)]
mod requests;

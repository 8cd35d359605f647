//! Tests of the deque's calls. They stand apart, so that the library is proved without them; there
//! is nothing here to call.
#![tactic(auto)]

#[cfg(test)]
use arraydeque_samples::{asked, build};

#[cfg(test)]
mod access;
#[cfg(test)]
mod bytes;
#[cfg(test)]
mod deque;
#[cfg(test)]
mod extend;
#[cfg(test)]
mod linearize;
#[cfg(test)]
mod makers;
#[cfg(test)]
mod moves;
#[cfg(test)]
mod parts;
#[cfg(test)]
mod pushes;
#[cfg(test)]
mod retain;
#[cfg(test)]
mod searches;
#[cfg(test)]
mod steps;
#[cfg(test)]
mod swaps;
#[cfg(test)]
mod threads;

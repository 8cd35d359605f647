//! Tests of the uses and of some callers at concrete types: that they run as compiled, what stands
//! after writes, and what a refused call leaves. There is nothing here to call.
#![tactic(auto)]

#[cfg(test)]
mod ageing;
#[cfg(test)]
mod average;
#[cfg(test)]
mod callers;
#[cfg(test)]
mod copying;
#[cfg(test)]
mod edits;
#[cfg(test)]
mod encoder;
#[cfg(test)]
mod filter;
#[cfg(test)]
mod history;
#[cfg(test)]
mod in_place;
#[cfg(test)]
mod input;
#[cfg(test)]
mod jobs;
#[cfg(test)]
mod journal;
#[cfg(test)]
mod limiter;
#[cfg(test)]
mod log;
#[cfg(test)]
mod median;
#[cfg(test)]
mod moving;
#[cfg(test)]
mod peaks;
#[cfg(test)]
mod pipe;
#[cfg(test)]
mod refusals;
#[cfg(test)]
mod reorder;
#[cfg(test)]
mod tokens;
#[cfg(test)]
mod tree;
#[cfg(test)]
mod window;
#[cfg(test)]
mod writing;

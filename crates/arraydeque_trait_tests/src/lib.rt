//! Tests of equality, order, hashes, texts and clones, of the iterators, and of a scanner; there is
//! nothing here to call.
#![tactic(auto)]

#[cfg(test)]
mod clone;
#[cfg(test)]
mod compare;
#[cfg(test)]
mod lends;
#[cfg(test)]
mod lookahead;

//! Tests of whole lists of calls and of their replies, and of the smallest and the largest
//! capacities; there is nothing here to call.
#![tactic(auto)]

#[cfg(test)]
mod largest;
#[cfg(test)]
mod refusals;
#[cfg(test)]
mod replies;
#[cfg(test)]
mod run;
#[cfg(test)]
mod smallest;
#[cfg(test)]
mod smallest_calls;
#[cfg(test)]
mod smallest_iterators;

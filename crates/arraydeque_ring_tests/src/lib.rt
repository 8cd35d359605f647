//! Tests of the region and of the ring. They stand apart, so that the library is proved without
//! them; there is nothing here to call.
#![tactic(auto)]

#[cfg(test)]
mod block_moves;
#[cfg(test)]
mod capacities;
#[cfg(test)]
mod items;
#[cfg(test)]
mod linearize;
#[cfg(test)]
mod moves;
#[cfg(test)]
mod ring;
#[cfg(test)]
mod slots;

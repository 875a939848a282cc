//! Tests of orders and races, of the manager and of the stepped cluster's parts; of lanes between threads, and of workers in threads of their own.
//!
//! Each test calls public items alone, and stands here so that none of those crates is proved twice.
#![tactic(auto)]

#[cfg(test)]
mod boxes;
#[cfg(test)]
mod clients;
#[cfg(test)]
mod crews;
#[cfg(test)]
mod frames;
#[cfg(test)]
mod grids;
#[cfg(test)]
mod lanes;
#[cfg(test)]
mod managers;
#[cfg(test)]
mod meetings;
#[cfg(test)]
mod orders;
#[cfg(test)]
mod packed;
#[cfg(test)]
mod parts;
#[cfg(test)]
mod served;
#[cfg(test)]
mod spare;
#[cfg(test)]
mod stepped;
#[cfg(test)]
mod tiles;
#[cfg(test)]
mod usual;

//! Tests of the program: its words, and runs on ends in memory; of the cluster on threads: that gates choose which client a tile takes first, that clients
//! run at once, that frames go out while later ones are drawn, and many runs in which nothing is ordered; and of clients that are drawn apart and put
//! together by depth.
//!
//! Each test calls public items alone, and stands here so that none of those crates is proved twice.
#![tactic(auto)]

#[cfg(test)]
mod bars;
#[cfg(test)]
mod lines;
#[cfg(test)]
mod runs;
#[cfg(test)]
mod threads;

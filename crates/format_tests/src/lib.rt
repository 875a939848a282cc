//! Tests of the crates of formats and contexts: ends, packets, parcels, scenes, images, and what commands leave.
//!
//! Each test calls public items alone, and stands here so that none of those crates is proved twice.
#![tactic(auto)]

#[cfg(test)]
mod chains;
#[cfg(test)]
mod commands;
#[cfg(test)]
mod contexts;
#[cfg(test)]
mod elements;
#[cfg(test)]
mod ends;
#[cfg(test)]
mod generated;
#[cfg(test)]
mod images;
#[cfg(test)]
mod lists;
#[cfg(test)]
mod noted;
#[cfg(test)]
mod packets;
#[cfg(test)]
mod parcels;
#[cfg(test)]
mod scenes;
#[cfg(test)]
mod stored;
#[cfg(test)]
mod switches;
#[cfg(test)]
mod texts;
#[cfg(test)]
mod updates;

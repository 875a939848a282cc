//! Tests of the crates that draw: arithmetic, triangles, their pixels, textures and rectangles of a window.
//!
//! Each test calls public items alone, and stands here so that none of those crates is proved twice.
#![tactic(auto)]

#[cfg(test)]
mod arithmetic;
#[cfg(test)]
mod boxed;
#[cfg(test)]
mod corners;
#[cfg(test)]
mod coverage;
#[cfg(test)]
mod fragments;
#[cfg(test)]
mod near;
#[cfg(test)]
mod products;
#[cfg(test)]
mod rectangles;
#[cfg(test)]
mod reject;
#[cfg(test)]
mod stages;
#[cfg(test)]
mod texels;
#[cfg(test)]
mod walls;

//! Runs in which threads meet, and clients that are drawn apart.
mod beside;
mod chance;
mod early;
mod gates;
mod layers;
mod racy;
mod rendering;

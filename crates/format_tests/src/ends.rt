//! Ends that are read and written by pieces.
mod in_memory;
mod standard;
mod transfer;

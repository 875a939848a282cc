//! Lemmas that speak of the words of `rc_base`: scenes, tiles and rectangles, contexts, what clients send, and values by number.
//!
//! Every crate above `rc_base` may cite them, and there is no code here.
#![tactic(auto)]

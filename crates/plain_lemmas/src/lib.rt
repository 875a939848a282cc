//! Lemmas that speak of std's words alone: truth values, lists, ranges, numbers, and places in rows.
//!
//! Every crate may cite them, and there is no code here. A lemma that speaks of this project's words stands in `scene_lemmas` or in the crate whose
//! subject it is.
#![tactic(auto)]

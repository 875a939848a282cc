//! The stages of a triangle's rows.
use crate::source::Source;
use crate::tests::Tests;

/// How the colours of the fragments are made, and which tests they take.
#[derive(Clone, Copy)]
pub struct Stages<'a> {
    pub source: &'a Source<'a>,
    pub tests: &'a Tests,
}

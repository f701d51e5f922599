//! From what a source is refused for to what a right source is promised. The law is a function with an empty body, whose
//! contract says it.
//!
//! So are those on typing: what is told of a source is so by the rules that compute, `im_rules_asked`.
#![tactic(auto)]

mod laws;

pub use laws::{
    ended_source_law, program_or_broken_law, right_source_law, source_faults_law,
    source_limits_law, source_typed_law,
};

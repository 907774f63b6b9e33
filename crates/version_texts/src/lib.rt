//! Versions in texts: whether a text is a version of SemVer 2.0, and which.
#![tactic(auto)]

mod parsing;

pub use parsing::parse_version;

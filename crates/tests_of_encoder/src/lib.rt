//! Tests of the encoder over a lower layer of their own, whose result is the same for every module.
//!
//! It gives encoders the cases that no other layer makes: a world with no string encoding for a
//! function, a refusal to prepare the world of a good module, an accepted module of no bytes, and a
//! report of the adapters that were gathered. In reading order: `layers` (the layers and their
//! faults), `worlds` (the world that they return), `stub` (what they do), `calls` (the tests).
#![tactic(auto)]

#[cfg(test)]
mod calls;
mod layers;
#[cfg(test)]
mod stub;
#[cfg(test)]
mod worlds;

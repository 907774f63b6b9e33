//! Tests of the commands over the lower layer that the program uses: runs over a store in memory,
//! for what no clause says of them, the printed lines above all. Each needs a lower layer, and that
//! of the program is proved next to the commands and not before them.
//!
//! In reading order: `modules` (modules, and their components), `store` (a store in memory, and
//! writers that fail), `rows` (modules through the encoder's calls), `canonical` (canonical names
//! of worlds), `runs` (runs of the commands), `adapting` (runs with adapters), `recording` (runs that
//! put a module with its record), `linting` (runs that print warnings).
#![tactic(auto)]

#[cfg(test)]
mod adapting;
#[cfg(test)]
mod canonical;
#[cfg(test)]
mod linting;
#[cfg(test)]
mod modules;
#[cfg(test)]
mod recording;
#[cfg(test)]
mod rows;
#[cfg(test)]
mod runs;
#[cfg(test)]
mod store;

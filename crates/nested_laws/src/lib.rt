//! A nested component runs: each item of a right one is made, and its instance exports the
//! functions and types that the items say.
//!
//! This crate holds lemmas alone, for the crates above to cite, and they know nothing of a world.
//! In reading order: `specs/NestedRuns.antt` (what a nested component is given, and what a run has
//! after its items), `proofs/Kept.antt` (what holds while the store grows), `proofs/Items.antt`
//! (one item runs), `proofs/Instance.antt` (the items run one after the other, and an instance is
//! made), `proofs/Exports.antt` (the exports of the instance by their names),
//! `proofs/Arguments.antt` (they are the same arguments, whatever types are given),
//! `proofs/WorkedNestedRun.antt` (rows).
#![tactic(auto)]

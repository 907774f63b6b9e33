//! An imported instance runs: each member of a right type of instances is made, and the instance
//! has the exports that the members say.
//!
//! This crate holds lemmas alone, for the crates above to cite, and they know nothing of a world.
//! In reading order: `specs/Instantiated.antt` (what a run has after the members of an instance
//! type), `specs/InstanceEntries.antt` (what an inventory says of imported instances),
//! `proofs/Held.antt` (what types denote at their addresses), `proofs/Members.antt` (the members
//! run, and an instance is made), `proofs/Finding.antt` (the exports by their names),
//! `proofs/Importing.antt` (an import, and aliases of its exports), `proofs/WorkedInstance.antt`
//! (rows).
#![tactic(auto)]

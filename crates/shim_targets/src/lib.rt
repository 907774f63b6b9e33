//! The shims of a world by its link table: which core import or which export of a user module each
//! of them stands for, and which imports have one.
//!
//! This crate holds lemmas alone, for the crates above to cite. In reading order:
//! `specs/ShimTargets.antt` (what a shim stands for), `specs/CallOptions.antt` (the options of a
//! call, by the table of lowerings), `proofs/Lists.antt`, `proofs/Tables.antt` and
//! `proofs/Keys.antt` (elements, look-ups and equal keys), `proofs/Users.antt` (user modules and
//! their imports), `proofs/Roles.antt` (what the roles of a world exclude), `proofs/Lowered.antt`
//! and `proofs/Calls.antt` (how a function that a module calls is lowered). The laws are in
//! `proofs/NoOptions.antt`, `proofs/Unencoded.antt`, `proofs/FoundShims.antt`,
//! `proofs/EachShim.antt`, `proofs/ByKind.antt`, `proofs/GivenShims.antt`,
//! `proofs/NeededShims.antt` and `proofs/CallOptions.antt` (imports), `proofs/ReallocShims.antt`
//! and `proofs/GivenReallocs.antt` (reallocs), `proofs/DestructorShims.antt`, and
//! `proofs/AdapterNeeds.antt` and `proofs/AdapterShims.antt` (functions that adapters export);
//! `proofs/Worked.antt` has examples.
#![tactic(auto)]

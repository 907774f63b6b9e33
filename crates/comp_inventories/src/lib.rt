//! What the types, functions, instances and nested components of a component are, by its list of definitions alone.
//!
//! Each definition may add an item to an index space. An inventory says of each such item what it
//! is: what a type denotes, where a function is imported and of which type it is, and which types
//! an instance exports, whether it is imported or one of a nested component. It is computed from
//! the list, so that a rule on a definition can say what the indices in it name.
//!
//! This crate holds definitions and lemmas alone, which the crates above cite. In reading order:
//! `specs/Inventories.antt` (the inventory of a list), `proofs/Inventories.antt` and
//! `proofs/InventoryGrowth.antt` (the inventory of a longer list), `proofs/Counting.antt` (an
//! inventory has one entry for each item of its spaces), `proofs/Components.antt` (the nested
//! component of an index is the one that was defined there).
#![tactic(auto)]

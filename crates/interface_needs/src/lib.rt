//! All that the types of imported interfaces, and the types and functions at the root of a world,
//! are made of is at hand where they are defined.
//!
//! This crate holds lemmas alone, for the crates above to cite. In reading order:
//! `specs/Needs.antt` (what an imported interface needs), `specs/RootNeeds.antt` (what the root
//! does), `proofs/Lists.antt`, `proofs/Owners.antt` and `proofs/Tables.antt` (elements and
//! look-ups), `proofs/Places.antt` (places of interfaces and types), `proofs/Live.antt` (what types
//! reach), `proofs/Entered.antt` (tables with an entry an interface), `proofs/Needed.antt` (a live
//! type of an imported interface is needed), `proofs/Near.antt` (live types that have no later
//! place), `proofs/Uses.antt` and `proofs/Sound.antt` (the functions that are used, and what the
//! resolve has), `proofs/Lending.antt` (which types an exported interface may use). The laws are in
//! `proofs/InterfaceTypes.antt`, `proofs/InterfaceNeeds.antt` (both of an imported interface),
//! `proofs/RootTypes.antt`, `proofs/RootItems.antt` (of the root), `proofs/Staying.antt`,
//! `proofs/ExportedInterfaces.antt`, `proofs/Usable.antt` (of an exported interface),
//! `proofs/Orders.antt` (of exported interfaces in their order) and `proofs/OwnResources.antt` (the
//! resources that the component defines).
#![tactic(auto)]

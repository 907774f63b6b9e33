//! The link table of a world: what each import of a user module is to be given, and what each required export is to be
//! lifted from.
//!
//! This crate holds definitions alone, which the crates above cite. In reading order: `specs/Targets.antt` (what an
//! import or an export is linked to), `specs/Modules.antt` (the user modules of a world),
//! `specs/Roles.antt` (what the roles of a world need), `specs/Lists.antt` (what the component imports and exports),
//! `specs/Links.antt` (the link table).
#![tactic(auto)]

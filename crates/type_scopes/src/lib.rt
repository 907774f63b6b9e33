//! The instance type of an interface is a scope in which types are defined.
//!
//! The members of an instance type are listed one after the other, and some of them make a type
//! index: a type that is defined, an alias of a type of the outer scope, an export of a type or of
//! a resource. What each of these indices denotes follows from what the indices of the outer scope
//! denote and what the resources are that are exported (`comp_trees`). No code knows either: the
//! contract of [`encode_interface_type`] holds whatever they are, and its caller picks them by its
//! ghost value. [`InstanceTypeEncoder`] has them by a type parameter, a [`Placement`].
//!
//! No encoder holds its parent. What the instance type needs of the outer scope is aliased there
//! before, and a table has the index of each such type ([`OuterTypes`]).
//!
//! The types of the interface that have a name are exported one after the other, in the order of
//! the resolve: each is defined without its name, exported under it, and recorded. So a type that
//! has a name is in the tables before what is made of it is defined, and no definition exports
//! anything.
//!
//! In reading order: `outer_type` (the key of that table), `placement` (what proofs know of the
//! outer scope), `outer_types` (the table), `member_list` (the members, and the number of their
//! type indices), `instance_type` (the scope), `named_types` (types, one after the other),
//! `functions` (functions, one after the other), `interface` (both), and `other_interfaces` (the
//! types of other interfaces of which they are made).
//!
//! In `specs/`: `Places` (where an instance type is defined), `Members` (how many type indices
//! members make), `Titles` (types of an interface that have a name, and the names that are
//! exported), `Offers` (what the outer scope offers, and what definitions take as given), `Exports`
//! (what is exported, and how members grow), `Interfaces` (what the types and functions of an
//! interface are in a scope), `Foreign` (which types of other interfaces are met, and in which
//! order), `Needs` (what the types and functions of an interface need).
//!
//! Upward this crate promises: each call of [`InstanceTypeEncoder`] adds the one member that it
//! names, or none and says why; and where [`encode_interface_type`] succeeds, each given type has a
//! value type in the instance type that denotes its tree, which is that of its export; the exports
//! are the given types, in their order, and then those of the given functions whose names are used,
//! in theirs, each under its name, and no other (`names_exported`), the functions each of a type
//! that denotes the function's; and each member is right (`AreMembersRight` of `comp_trees`), so
//! that an instance of the type can be imported. [`foreign_types`] lists the types of other
//! interfaces that the outer scope has to offer for it. That the needs of an interface are met
//! (`AreNeedsMet`) follows from what a caller knows of a resolve (`proofs/Needed.antt`), and of an
//! interface without types from a test of the types of its functions (`proofs/Unnamed.antt`). A
//! refusal is out of memory, or more type indices than there can be.
#![tactic(auto)]

mod functions;
mod instance_type;
mod interface;
mod member_list;
mod named_types;
mod other_interfaces;
mod outer_type;
mod outer_types;
mod placement;

pub use instance_type::InstanceTypeEncoder;
pub use interface::encode_interface_type;
pub use member_list::MemberList;
pub use other_interfaces::{ForeignTypes, foreign_types};
pub use outer_type::OuterType;
pub use outer_types::OuterTypes;
pub use placement::Placement;

//! The nested component that gives an exported interface its types, as a list of items.
//!
//! A nested component imports each function of the interface under a name that is free, and exports
//! it again under the name that it has in the interface, as one of a type of the nested component.
//! First all are imported, each right behind its type, unless an equal type was met. Before that,
//! the types of other interfaces of which the interface is made are imported, each as equal to its
//! definition, and a resource as one that is given; and then the resources that the interface
//! lists, as given ones too. A type of values that it lists is imported as equal to its definition,
//! as soon as that is written, and stands for the type in what follows: so the functions that are
//! given have the types of the interface. Then, with the tables that there were when the types of
//! other interfaces had been imported, each type that the interface lists is defined and exported
//! under its name, a resource as what was imported for it, and after these each function: no other
//! type that was written for an import serves an export. What a function or a type is that is
//! imported, the instantiation says, which is no matter of this crate: [`NestedComponent::names`]
//! and [`NestedComponent::types`] are the names of its arguments.
//!
//! The nested component is a scope in which types are defined, as `wit_types` wants one. What its
//! type indices denote follows from what is given for its imports and from what the resources are,
//! which no code knows: a caller picks them in its proofs, by the ghost value of
//! [`nested_component`], and inside by a type parameter, a `Placement`. What is given for an import
//! goes by its name. So the names of the types of other interfaces and of the resources are chosen
//! first, right behind those of the functions (`plan`), and what is given is picked when they are
//! known.
//!
//! In reading order: `type_import` (a type that is imported), `names` (names that are free), `plan`
//! (the names that are chosen before anything is imported), `placement` (what proofs know of what
//! is given), `home` (the types of the interface), `item_list` (the items, and the number of their
//! type indices), `imported_types` (the types that were imported), `contents` (these, the items and
//! the names that are taken, which a type that is imported changes together), `stage` (how far all
//! has come), `tables` (copies of the tables of types), `nested_encoder` (the scope),
//! `foreign_imports` (types of other interfaces), `resources` (the resources of the interface),
//! `passing` (functions, one after the other), `named_types` (types, one after the other),
//! `component` (all of it).
//!
//! In `specs/`: `Types` (what is asked of an interface, and what is imported and exported for its
//! types), `Functions` (and for its functions), `Names` (how the names grow), `Planning` (the names
//! that are chosen first, and what is given for them), `Homes` (what definitions take as given, by
//! the stage), `Foreign` (types of other interfaces that can be imported), `Resources` (the
//! resources of the interface, and their indices), `Tables` (the tables without functions),
//! `Counts` (type indices), `Growing` (how the items grow), `Beginning` (what there is once the
//! types of other interfaces were imported), `Following` (growth adds up).
//!
//! Upward this crate promises: [`import_names`] gives each function a name that no earlier one has,
//! with as few numbers behind it as it takes (`AreNames` of `nested_terms`); and where
//! [`nested_component`] succeeds, there is something to give for each import of a resource with
//! which the following holds (`IsNestedComponent`): the items are right (`AreItemsRight`); the
//! functions that they import are those of the interface in their order, each under its name and of
//! its type; the types that they import are of types of which the interface is made, each under the
//! name of its type, lengthened by numbers; no two imports have one name; and they export the types
//! that the interface lists, and then the functions, in their order, each under its own name, and
//! nothing else. Which types are written and imported, and where, no clause says. A refusal is out
//! of memory, or more type indices or functions than there can be.
#![tactic(auto)]

mod component;
mod contents;
mod foreign_imports;
mod home;
mod imported_types;
mod item_list;
mod named_types;
mod names;
mod nested_encoder;
mod passing;
mod placement;
mod plan;
mod resources;
mod stage;
mod tables;
mod type_import;

pub use component::{NestedComponent, nested_component};
pub use names::import_names;
pub use type_import::TypeImport;

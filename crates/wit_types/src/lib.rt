//! A type of WIT becomes definitions of component types, in any scope that defines types.
//!
//! A scope is a component or an instance type. What it can do is the trait [`ValtypeEncoder`]:
//! define a type, export one under its name, export a resource, import a type of another interface.
//! Its ghost members say what each type index denotes, as a tree (`comp_trees`), and what the
//! definitions take as given (`specs/Settings.antt`): the types of the resolve, the interface whose
//! types are defined there, what each resource is, what may be imported and exported, and which
//! types are in the tables already. A scope may rely on it that nothing is unknown in what it is
//! asked to define. The functions of this crate are proved once, for every implementation.
//!
//! A type is encoded once in a scope: its index is kept in tables ([`TypeEncodingMaps`]), by its
//! number, by its kind where it has no name, and, for types of functions, by parameters and result.
//! The parts of a type are encoded before it, in their order.
//!
//! In reading order: `maps` (the tables), `encoder` (scopes), `reading` (what the resolve says of a
//! type), `tables` (what the tables of a scope have), `finding` (types that need no definition: met
//! before, of another interface, resources, equal ones without a name), `definitions` (a kind and
//! the value types of its parts make a definition), `making` (types that are defined), `recording`
//! (and exported where they have a name, and recorded), `encoding` (all of it, down to the parts of
//! a type), `functions` (types of functions), `calls` (the public calls), `type_list` (a scope that
//! stands alone: the list of types that a type is made of).
//!
//! In `specs/`: `Settings` (what a scope takes as given), `Denoting` (what indices and value types
//! denote, and how a scope grows), `Order` (parts of a tree; which types are added for a type and
//! for a function, and in which order), `Maps` (what the tables say), `Allowing` (which types may
//! be encoded in a scope), `Definitions` and `Functions` (definitions from the value types of
//! parts), `Listing` (the list that stands alone).
//!
//! Upward this crate promises: where [`encode_valtype`] succeeds, its result denotes the tree of
//! the WIT type; a type that is one of the scope is in the tables, and its index is that of its
//! export where it has a name and the scope exports its types; the index that [`encode_func_type`]
//! returns denotes the tree of the function, and those of [`encode_unit_stream`] and
//! [`encode_unit_future`] a stream and a future that carry nothing. A scope that gives a type its
//! name itself takes a definition without the name from [`encode_definition`], whose index denotes
//! the type's tree, and says by [`record_type_index`] which index has the name; later types find it
//! in the tables. Where a call succeeds, each type that it has added is the type that was asked for
//! or a part of it (`AddsParts`); and for a function there were added first what its parameters
//! need, parameter by parameter, then what its result needs, and then the type of the function, or
//! nothing, where such a type was met (`MayAddFunction`). Whatever the result, types were added at
//! the end of the scope alone, the tables are right, and the scope has become one that its
//! implementation allows (`follows`). A refusal is out of memory, or that of a call of the scope
//! (`IsCause`).
#![tactic(auto)]

mod calls;
mod definitions;
mod encoder;
mod encoding;
mod finding;
mod functions;
mod making;
mod maps;
mod reading;
mod recording;
mod tables;
mod type_list;

pub use calls::{
    encode_definition, encode_func_type, encode_unit_future, encode_unit_stream, encode_valtype,
    record_type_index,
};
pub use encoder::ValtypeEncoder;
pub use maps::{FuncTypeKey, TypeEncodingMaps};
pub use reading::{foreign, owner_of};
pub use type_list::{AloneType, ListedType, TypeList, encode_alone};

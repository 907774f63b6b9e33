//! What a role of a record names: interfaces of a side of the record's world, and what they have.
//!
//! A record names an interface by its index, and a function or a resource by its owner and its name. The
//! world of a record ([`RecordWorld`]) has its interfaces by index for this. Each call that reads a value
//! of JSON returns exactly what its definition in `specs/Named.antt` or `specs/Arguments.antt` gives,
//! unless it runs out of memory; a fault has the path of the first value that is wrong. Nothing here
//! knows which roles there are, or how a world is read.
//!
//! In reading order: `indexed` (the world of a record), `sides` (functions and resources of a side),
//! `arguments` (what follows a role's kind), `named` (an owner, and what it has by a name).
#![tactic(auto)]

mod arguments;
mod indexed;
mod named;
mod sides;

pub use arguments::{no_argument, one_argument, read_encoding, read_kind, two_arguments};
pub use indexed::{IndexedInterface, RecordWorld};
pub use named::{
    Called, Named, Owners, read_interface_function, read_name, read_named, read_owner,
    read_resource, read_world_function,
};
pub use sides::{Side, function_at, owner_at};

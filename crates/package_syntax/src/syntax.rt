//! Sections and declarations.
//!
//! Component model, binary format: `component`, `section`, `componenttype`, `componentdecl`,
//! `importdecl`, `exportdecl`.

use comp_bytes::{Alias, Description, ExternName, InstanceType, TypeDef};
use comp_lists::{Bytes, Seq, Text};

/// A declaration of a world, which is a component type.
pub enum Declaration {
    Type(TypeDef),
    InstanceType(InstanceType),
    Alias(Alias),
    Import {
        name: ExternName,
        description: Description,
    },
    Export {
        name: ExternName,
        description: Description,
    },
}

impl Drop for Declaration {
    fn drop(self) {
        match self {
            Declaration::Type(_) => {}
            Declaration::InstanceType(_) => {}
            Declaration::Alias(_) => {}
            Declaration::Import {
                name: _,
                description: _,
            } => {}
            Declaration::Export {
                name: _,
                description: _,
            } => {}
        }
    }
}

/// A world's declarations, and the id under which its package exports it.
#[derive(Drop)]
pub struct WorldType {
    pub declarations: Seq<Declaration>,
    pub id: ExternName,
}

/// A section of a package: a custom section, the type of the package, which has the world in it, or
/// the export of that type under the name of the world.
#[derive(Drop)]
pub enum Section {
    Custom { name: Text, contents: Bytes },
    World(WorldType),
    Export(ExternName),
}

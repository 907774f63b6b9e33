//! Copies.

use crate::names::{InterfaceName, Owner, TypeName};
use crate::record::ImportName;
use crate::types::{Case, Func, Interface, Node, Typed};
use crate::world::{Item, ItemKey};
use comp_lists::TryClone;
use std::alloc::{AllocError, Global};

impl TryClone for InterfaceName {
    fn try_clone(&self, alloc: Global) -> Result<InterfaceName, AllocError> {
        match self {
            InterfaceName::Id(text) => Ok(InterfaceName::Id(text.try_clone(alloc)?)),
            InterfaceName::Imported(text) => Ok(InterfaceName::Imported(text.try_clone(alloc)?)),
            InterfaceName::Exported(text) => Ok(InterfaceName::Exported(text.try_clone(alloc)?)),
            InterfaceName::Unused(index) => Ok(InterfaceName::Unused(*index)),
        }
    }
}

impl TryClone for Owner {
    fn try_clone(&self, alloc: Global) -> Result<Owner, AllocError> {
        match self {
            Owner::World => Ok(Owner::World),
            Owner::Interface(name) => Ok(Owner::Interface(name.try_clone(alloc)?)),
        }
    }
}

impl TryClone for TypeName {
    fn try_clone(&self, alloc: Global) -> Result<TypeName, AllocError> {
        Ok(TypeName {
            owner: self.owner.try_clone(alloc)?,
            name: self.name.clone(alloc)?,
        })
    }
}

impl TryClone for Case {
    fn try_clone(&self, alloc: Global) -> Result<Case, AllocError> {
        Ok(Case {
            name: self.name.clone(alloc)?,
            has_type: self.has_type,
        })
    }
}

impl TryClone for Node {
    fn try_clone(&self, alloc: Global) -> Result<Node, AllocError> {
        match self {
            Node::Primitive(primitive) => Ok(Node::Primitive(*primitive)),
            Node::List => Ok(Node::List),
            Node::Option => Ok(Node::Option),
            Node::Result { has_ok, has_err } => Ok(Node::Result {
                has_ok: *has_ok,
                has_err: *has_err,
            }),
            Node::Tuple { arity } => Ok(Node::Tuple { arity: *arity }),
            Node::Record(fields) => Ok(Node::Record(fields.clone(alloc)?)),
            Node::Variant(cases) => Ok(Node::Variant(cases.clone(alloc)?)),
            Node::Enum(labels) => Ok(Node::Enum(labels.clone(alloc)?)),
            Node::Flags(labels) => Ok(Node::Flags(labels.clone(alloc)?)),
            Node::Own(named) => Ok(Node::Own(named.try_clone(alloc)?)),
            Node::Borrow(named) => Ok(Node::Borrow(named.try_clone(alloc)?)),
            Node::Stream { has_item } => Ok(Node::Stream {
                has_item: *has_item,
            }),
            Node::Future { has_item } => Ok(Node::Future {
                has_item: *has_item,
            }),
            Node::Named(named) => Ok(Node::Named(named.try_clone(alloc)?)),
            Node::Resource => Ok(Node::Resource),
        }
    }
}

impl TryClone for Typed {
    fn try_clone(&self, alloc: Global) -> Result<Typed, AllocError> {
        Ok(Typed {
            name: self.name.clone(alloc)?,
            nodes: self.nodes.clone(alloc)?,
        })
    }
}

impl TryClone for Func {
    fn try_clone(&self, alloc: Global) -> Result<Func, AllocError> {
        Ok(Func {
            name: self.name.clone(alloc)?,
            is_async: self.is_async,
            params: self.params.clone(alloc)?,
            result: self.result.try_clone(alloc)?,
        })
    }
}

impl TryClone for Interface {
    fn try_clone(&self, alloc: Global) -> Result<Interface, AllocError> {
        Ok(Interface {
            types: self.types.clone(alloc)?,
            functions: self.functions.clone(alloc)?,
        })
    }
}

impl TryClone for ItemKey {
    fn try_clone(&self, alloc: Global) -> Result<ItemKey, AllocError> {
        match self {
            ItemKey::Name(text) => Ok(ItemKey::Name(text.clone(alloc)?)),
            ItemKey::Interface(text) => Ok(ItemKey::Interface(text.try_clone(alloc)?)),
        }
    }
}

impl TryClone for Item {
    fn try_clone(&self, alloc: Global) -> Result<Item, AllocError> {
        match self {
            Item::Interface(name) => Ok(Item::Interface(name.try_clone(alloc)?)),
            Item::Function(function) => Ok(Item::Function(function.try_clone(alloc)?)),
            Item::Type(nodes) => Ok(Item::Type(nodes.clone(alloc)?)),
        }
    }
}

impl TryClone for ImportName {
    fn try_clone(&self, alloc: Global) -> Result<ImportName, AllocError> {
        Ok(ImportName {
            module: self.module.clone(alloc)?,
            field: self.field.clone(alloc)?,
        })
    }
}

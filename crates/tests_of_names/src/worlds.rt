//! Worlds, as the cases give them: items with `; ` between them, each with its side. `import func
//! f` is a function and `import resource r` a resource of the world, and `import interface LABEL`
//! an interface, by its id or its name, with its members behind it: `f.NAME` a function, `r.NAME` a
//! resource, `v.NAME` a type of values, and `a.NAME=LABEL=OTHER` a name for a type of an interface
//! with an id.

use comp_lists::{Keyed, Seq, SharedText, Text};
use record_values::{
    Func, Interface, InterfaceName, Item, ItemKey, Node, Owner, TypeName, Typed, Wit,
};
use std::alloc::{AllocError, Global};
use test_cases::word_and_rest;
use wit_data::Primitive;

fn is_id(label: &str) -> bool {
    label.split_once(":").is_some()
}

fn interface_name(alloc: Global, side: &str, label: &str) -> Result<InterfaceName, AllocError> {
    let text = SharedText::from_str(alloc, label)?;
    if is_id(label) {
        Ok(InterfaceName::Id(text))
    } else if side == "import" {
        Ok(InterfaceName::Imported(text))
    } else {
        Ok(InterfaceName::Exported(text))
    }
}

fn item_key(alloc: Global, label: &str) -> Result<ItemKey, AllocError> {
    if is_id(label) {
        Ok(ItemKey::Interface(SharedText::from_str(alloc, label)?))
    } else {
        Ok(ItemKey::Name(Text::from_str(alloc, label)?))
    }
}

fn function(alloc: Global, name: &str) -> Result<Func, AllocError> {
    let name = Text::from_str(alloc, name)?;
    Ok(Func {
        name,
        is_async: false,
        params: Seq::new(alloc),
        result: None,
    })
}

fn only(alloc: Global, node: Node) -> Result<Seq<Node>, AllocError> {
    let mut nodes = Seq::new(alloc);
    nodes.push(node)?;
    Ok(nodes)
}

fn add_type(
    alloc: Global,
    types: &mut Seq<Typed>,
    name: &str,
    nodes: Seq<Node>,
) -> Result<(), AllocError> {
    match Text::from_str(alloc, name) {
        Ok(name) => Ok(types.push(Typed { name, nodes })?),
        Err(refused) => {
            drop(nodes);
            Err(refused)
        }
    }
}

/// Another name for a type of an interface with an id.
fn alias(alloc: Global, target: &str) -> Result<Seq<Node>, AllocError> {
    let (label, name) = target.split_once("=").unwrap_or((target, ""));
    let owner = Owner::Interface(interface_name(alloc, "import", label)?);
    let name = Text::from_str(alloc, name)?;
    only(alloc, Node::Named(TypeName { owner, name }))
}

fn add_alias(alloc: Global, types: &mut Seq<Typed>, text: &str) -> Result<(), AllocError> {
    let (name, target) = text.split_once("=").unwrap_or((text, ""));
    let nodes = alias(alloc, target)?;
    add_type(alloc, types, name, nodes)
}

fn add_plain(
    alloc: Global,
    types: &mut Seq<Typed>,
    name: &str,
    node: Node,
) -> Result<(), AllocError> {
    let nodes = only(alloc, node)?;
    add_type(alloc, types, name, nodes)
}

fn add_function(alloc: Global, functions: &mut Seq<Func>, name: &str) -> Result<(), AllocError> {
    let function = function(alloc, name)?;
    Ok(functions.push(function)?)
}

fn add_member(alloc: Global, interface: &mut Interface, member: &str) -> Result<(), AllocError> {
    let (kind, name) = member.split_once(".").unwrap_or(("", member));
    match kind {
        "f" => add_function(alloc, &mut interface.functions, name),
        "r" => add_plain(alloc, &mut interface.types, name, Node::Resource),
        "v" => add_plain(
            alloc,
            &mut interface.types,
            name,
            Node::Primitive(Primitive::U8),
        ),
        "a" => add_alias(alloc, &mut interface.types, name),
        _ => Ok(()),
    }
}

fn interface_of(alloc: Global, members: &str) -> Result<Interface, AllocError> {
    let mut interface = Interface {
        types: Seq::new(alloc),
        functions: Seq::new(alloc),
    };
    for member in members.split(" ") {
        add_member(alloc, &mut interface, member)?;
    }
    Ok(interface)
}

fn add_item(wit: &mut Wit, side: &str, key: ItemKey, item: Item) -> Result<(), AllocError> {
    if side == "import" {
        wit.imports.insert_if_absent(key, item)
    } else {
        wit.exports.insert_if_absent(key, item)
    }
}

fn put_interface(
    alloc: Global,
    wit: &mut Wit,
    name: InterfaceName,
    members: &str,
) -> Result<(), AllocError> {
    match interface_of(alloc, members) {
        Ok(interface) => wit.interfaces.insert_if_absent(name, interface),
        Err(refused) => {
            drop(name);
            Err(refused)
        }
    }
}

fn add_interface(
    alloc: Global,
    wit: &mut Wit,
    side: &str,
    label: &str,
    members: &str,
) -> Result<(), AllocError> {
    let name = interface_name(alloc, side, label)?;
    put_interface(alloc, wit, name, members)?;
    let key = item_key(alloc, label)?;
    let name = interface_name(alloc, side, label)?;
    add_item(wit, side, key, Item::Interface(name))
}

fn add_world_function(
    alloc: Global,
    wit: &mut Wit,
    side: &str,
    name: &str,
) -> Result<(), AllocError> {
    let key = ItemKey::Name(Text::from_str(alloc, name)?);
    let function = function(alloc, name)?;
    add_item(wit, side, key, Item::Function(function))
}

fn add_world_resource(
    alloc: Global,
    wit: &mut Wit,
    side: &str,
    name: &str,
) -> Result<(), AllocError> {
    let key = ItemKey::Name(Text::from_str(alloc, name)?);
    let nodes = only(alloc, Node::Resource)?;
    add_item(wit, side, key, Item::Type(nodes))
}

fn add_piece(alloc: Global, wit: &mut Wit, piece: &str) -> Result<(), AllocError> {
    let (side, rest) = word_and_rest(piece);
    let (what, rest) = word_and_rest(rest);
    match what {
        "func" => add_world_function(alloc, wit, side, rest),
        "resource" => add_world_resource(alloc, wit, side, rest),
        _ => {
            let (label, members) = word_and_rest(rest);
            add_interface(alloc, wit, side, label, members)
        }
    }
}

/// The world of a text.
pub(crate) fn world_of(alloc: Global, text: &str) -> Result<Wit, AllocError> {
    let mut wit = Wit {
        interfaces: Keyed::new(alloc),
        imports: Keyed::new(alloc),
        exports: Keyed::new(alloc),
    };
    for piece in text.split("; ") {
        add_piece(alloc, &mut wit, piece)?;
    }
    Ok(wit)
}

//! Whether a resolve is sound that has one index at one position, and 0 at all others: it has one type, one
//! interface and one world. The query is the position and the index.

use crate::soundness::soundness_of;
use comp_lists::{Keyed, Seq, Text};
use std::alloc::{AllocError, Global};
use test_cases::{number, word_and_rest};
use wit_data::{
    Function, FunctionKind, Interface, InterfaceId, Param, Resolve, Type, TypeDef, TypeDefKind,
    TypeId, TypeOwner, World, WorldId, WorldItem, WorldKey,
};

/// The position of an index.
#[derive(Clone, Copy)]
enum Position {
    WorldOwner,
    InterfaceOwner,
    NamedType,
    Method,
    AsyncMethod,
    Static,
    AsyncStatic,
    Constructor,
    Param,
    Returned,
    ImportKey,
    ImportInterface,
    ImportFunction,
    ImportType,
    ExportKey,
    ExportInterface,
    ExportFunction,
    ExportType,
}

/// The position that a word names.
fn position_of(word: &str) -> Option<Position> {
    match word {
        "world-owner" => Some(Position::WorldOwner),
        "interface-owner" => Some(Position::InterfaceOwner),
        "named-type" => Some(Position::NamedType),
        "method" => Some(Position::Method),
        "async-method" => Some(Position::AsyncMethod),
        "static" => Some(Position::Static),
        "async-static" => Some(Position::AsyncStatic),
        "constructor" => Some(Position::Constructor),
        "param" => Some(Position::Param),
        "result" => Some(Position::Returned),
        _ => side_position_of(word),
    }
}

/// The position that a word names in a world's imports or exports.
fn side_position_of(word: &str) -> Option<Position> {
    match word {
        "import-key" => Some(Position::ImportKey),
        "import-interface" => Some(Position::ImportInterface),
        "import-function" => Some(Position::ImportFunction),
        "import-type" => Some(Position::ImportType),
        "export-key" => Some(Position::ExportKey),
        "export-interface" => Some(Position::ExportInterface),
        "export-function" => Some(Position::ExportFunction),
        "export-type" => Some(Position::ExportType),
        _ => None,
    }
}

fn owner_at(position: Position, index: usize) -> TypeOwner {
    match position {
        Position::WorldOwner => TypeOwner::World(WorldId { index }),
        Position::InterfaceOwner => TypeOwner::Interface(InterfaceId { index }),
        _ => TypeOwner::None,
    }
}

fn kind_at(position: Position, index: usize) -> FunctionKind {
    match position {
        Position::Method => FunctionKind::Method(TypeId { index }),
        Position::AsyncMethod => FunctionKind::AsyncMethod(TypeId { index }),
        Position::Static => FunctionKind::Static(TypeId { index }),
        Position::AsyncStatic => FunctionKind::AsyncStatic(TypeId { index }),
        Position::Constructor => FunctionKind::Constructor(TypeId { index }),
        Position::Param => FunctionKind::AsyncFreestanding,
        _ => FunctionKind::Freestanding,
    }
}

/// The index where it is the one that is set, and else 0.
fn index_where(is_set: bool, index: usize) -> usize {
    if is_set { index } else { 0 }
}

/// One parameter of the type of this index.
fn params_of(alloc: Global, index: usize) -> Result<Seq<Param>, AllocError> {
    let mut params = Seq::new(alloc);
    params.push(Param {
        name: Text::new(alloc),
        ty: Type::Id(TypeId { index }),
    })?;
    Ok(params)
}

/// A function of one parameter and a result; the position says which of its indices is this one, and the
/// others are 0.
fn function_at(alloc: Global, position: Position, index: usize) -> Result<Function, AllocError> {
    let taken = index_where(matches!(position, Position::Param), index);
    let returned = index_where(matches!(position, Position::Returned), index);
    let params = params_of(alloc, taken)?;
    Ok(Function {
        name: Text::new(alloc),
        kind: kind_at(position, index),
        params,
        result: Some(Type::Id(TypeId { index: returned })),
    })
}

fn named_types_at(
    alloc: Global,
    position: Position,
    index: usize,
) -> Result<Keyed<Text, TypeId>, AllocError> {
    let named = index_where(matches!(position, Position::NamedType), index);
    let mut types = Keyed::new(alloc);
    types.insert_if_absent(Text::new(alloc), TypeId { index: named })?;
    Ok(types)
}

fn functions_at(
    alloc: Global,
    position: Position,
    index: usize,
) -> Result<Keyed<Text, Function>, AllocError> {
    let function = function_at(alloc, position, index)?;
    let mut functions = Keyed::new(alloc);
    functions.insert_if_absent(Text::new(alloc), function)?;
    Ok(functions)
}

fn interface_of(types: Keyed<Text, TypeId>, functions: Keyed<Text, Function>) -> Interface {
    Interface {
        id: None,
        types,
        functions,
    }
}

fn interface_at(alloc: Global, position: Position, index: usize) -> Result<Interface, AllocError> {
    let types = named_types_at(alloc, position, index)?;
    let functions = functions_at(alloc, position, index)?;
    Ok(interface_of(types, functions))
}

/// The key of the world's one entry.
fn key_at(alloc: Global, position: Position, index: usize) -> WorldKey {
    match position {
        Position::ImportKey | Position::ExportKey => WorldKey::Interface(InterfaceId { index }),
        _ => WorldKey::Name(Text::new(alloc)),
    }
}

/// A function of the world, whose parameter has this index.
fn world_function(alloc: Global, index: usize) -> Result<WorldItem, AllocError> {
    match function_at(alloc, Position::Param, index) {
        Ok(function) => Ok(WorldItem::Function(function)),
        Err(refused) => Err(refused),
    }
}

/// The item of the world's one entry.
fn item_at(alloc: Global, position: Position, index: usize) -> Result<WorldItem, AllocError> {
    match position {
        Position::ImportFunction | Position::ExportFunction => world_function(alloc, index),
        Position::ImportType | Position::ExportType => Ok(WorldItem::NamedType(TypeId { index })),
        Position::ImportKey | Position::ExportKey => {
            Ok(WorldItem::Interface(InterfaceId { index: 0 }))
        }
        _ => Ok(WorldItem::Interface(InterfaceId { index })),
    }
}

/// One entry, whose key or item has this index.
fn entries_at(
    alloc: Global,
    position: Position,
    index: usize,
) -> Result<Keyed<WorldKey, WorldItem>, AllocError> {
    let item = item_at(alloc, position, index)?;
    let mut entries = Keyed::new(alloc);
    entries.insert_if_absent(key_at(alloc, position, index), item)?;
    Ok(entries)
}

/// A world of these imports and exports.
fn world_of(imports: Keyed<WorldKey, WorldItem>, exports: Keyed<WorldKey, WorldItem>) -> World {
    World { imports, exports }
}

fn importing_world(alloc: Global, position: Position, index: usize) -> Result<World, AllocError> {
    match entries_at(alloc, position, index) {
        Ok(imports) => Ok(world_of(imports, Keyed::new(alloc))),
        Err(refused) => Err(refused),
    }
}

fn exporting_world(alloc: Global, position: Position, index: usize) -> Result<World, AllocError> {
    match entries_at(alloc, position, index) {
        Ok(exports) => Ok(world_of(Keyed::new(alloc), exports)),
        Err(refused) => Err(refused),
    }
}

fn world_at(alloc: Global, position: Position, index: usize) -> Result<World, AllocError> {
    match position {
        Position::ImportKey
        | Position::ImportInterface
        | Position::ImportFunction
        | Position::ImportType => importing_world(alloc, position, index),
        Position::ExportKey
        | Position::ExportInterface
        | Position::ExportFunction
        | Position::ExportType => exporting_world(alloc, position, index),
        _ => Ok(world_of(Keyed::new(alloc), Keyed::new(alloc))),
    }
}

fn types_at(alloc: Global, position: Position, index: usize) -> Result<Seq<TypeDef>, AllocError> {
    let mut types = Seq::new(alloc);
    types.push(TypeDef {
        name: None,
        kind: TypeDefKind::Resource,
        owner: owner_at(position, index),
    })?;
    Ok(types)
}

fn interfaces_at(
    alloc: Global,
    position: Position,
    index: usize,
) -> Result<Seq<Interface>, AllocError> {
    let interface = interface_at(alloc, position, index)?;
    let mut interfaces = Seq::new(alloc);
    interfaces.push(interface)?;
    Ok(interfaces)
}

fn worlds_at(alloc: Global, position: Position, index: usize) -> Result<Seq<World>, AllocError> {
    let world = world_at(alloc, position, index)?;
    let mut worlds = Seq::new(alloc);
    worlds.push(world)?;
    Ok(worlds)
}

/// One type, one interface and one world, with this index at this position.
fn resolve_at(alloc: Global, position: Position, index: usize) -> Result<Resolve, AllocError> {
    let types = types_at(alloc, position, index)?;
    let interfaces = interfaces_at(alloc, position, index)?;
    let worlds = worlds_at(alloc, position, index)?;
    Ok(Resolve {
        interfaces,
        types,
        worlds,
    })
}

fn answer_at(alloc: Global, position: Position, index: usize) -> Result<String, AllocError> {
    let resolve = resolve_at(alloc, position, index)?;
    let answer = soundness_of(alloc, &resolve);
    drop(resolve);
    answer
}

pub(crate) fn answer(alloc: Global, asked: &str) -> Result<String, AllocError> {
    let (word, index) = word_and_rest(asked);
    match position_of(word) {
        Some(position) => answer_at(alloc, position, number(index)),
        None => String::from_str(alloc, "no position"),
    }
}

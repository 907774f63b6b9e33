//! Worlds of main and of the library `ad`, each described by words: those of the library come after the word `library`.

use crate::modules::{Lowered, Lowerings, ModuleDraft, interface, validated};
use comp_lists::{Keyed, Seq, Text};
use comp_roles::LibraryInfo;
use comp_worlds::{ComponentWorld, ImportedInterface, ValidatedModule, WorldAdapter};
use std::alloc::{AllocError, Global};
use wit_data::{
    Interface, InterfaceId, Resolve, TypeDef, TypeDefKind, TypeOwner, WorldId, WorldKey,
};

/// The modules of a world, and how what they import is lowered.
#[derive(Drop)]
struct WorldDraft {
    main: ModuleDraft,
    library: ModuleDraft,
    lowered: Lowered,
}

impl WorldDraft {
    fn new(alloc: Global) -> WorldDraft {
        WorldDraft {
            main: ModuleDraft::new(alloc),
            library: ModuleDraft::new(alloc),
            lowered: Lowered::new(alloc),
        }
    }

    /// Adds a property of main, or of the library.
    fn add(&mut self, alloc: Global, of_library: bool, word: &str) -> Result<(), AllocError> {
        let (kind, name) = word.split_once(":").unwrap_or((word, ""));
        self.lowered.add(alloc, kind, name)?;
        if of_library {
            self.library.add(alloc, kind, name)
        } else {
            self.main.add(alloc, kind, name)
        }
    }
}

fn draft(alloc: Global, words: &str) -> Result<WorldDraft, AllocError> {
    let mut draft = WorldDraft::new(alloc);
    let mut of_library = false;
    for word in words.split(' ') {
        if word == "library" {
            of_library = true;
        } else {
            draft.add(alloc, of_library, word)?;
        }
    }
    Ok(draft)
}

/// The resource `res`.
fn types(alloc: Global) -> Result<Seq<TypeDef>, AllocError> {
    let name = Text::from_str(alloc, "res")?;
    let mut types = Seq::new(alloc);
    types.push(TypeDef {
        name: Some(name),
        kind: TypeDefKind::Resource,
        owner: TypeOwner::Interface(interface()),
    })?;
    Ok(types)
}

/// The interface of the resource.
fn interfaces(alloc: Global) -> Result<Seq<Interface>, AllocError> {
    let mut interfaces = Seq::new(alloc);
    interfaces.push(Interface {
        id: None,
        types: Keyed::new(alloc),
        functions: Keyed::new(alloc),
    })?;
    Ok(interfaces)
}

fn imported(lowerings: Lowerings, interface: Option<InterfaceId>) -> ImportedInterface {
    ImportedInterface {
        lowerings,
        interface,
    }
}

/// What is lowered of the root and of the interface.
fn import_map(
    alloc: Global,
    lowered: Lowered,
) -> Result<Keyed<Option<WorldKey>, ImportedInterface>, AllocError> {
    let Lowered {
        interface: functions,
        root,
    } = lowered;
    let mut map = Keyed::new(alloc);
    map.insert_if_absent(None, imported(root, None))?;
    let key = WorldKey::Interface(interface());
    map.insert_if_absent(Some(key), imported(functions, Some(interface())))?;
    Ok(map)
}

fn library(alloc: Global, info: ValidatedModule) -> WorldAdapter {
    WorldAdapter {
        info,
        required_exports: Seq::new(alloc),
        library_info: Some(LibraryInfo {
            arguments: Seq::new(alloc),
        }),
    }
}

fn adapters(alloc: Global, draft: ModuleDraft) -> Result<Keyed<Text, WorldAdapter>, AllocError> {
    let info = validated(alloc, draft)?;
    let mut adapters = Keyed::new(alloc);
    let name = Text::from_str(alloc, "ad")?;
    adapters.insert_if_absent(name, library(alloc, info))?;
    Ok(adapters)
}

/// A world with these parts, and without items.
fn world_of(
    alloc: Global,
    interfaces: Seq<Interface>,
    types: Seq<TypeDef>,
    main: ValidatedModule,
    adapters: Keyed<Text, WorldAdapter>,
    import_map: Keyed<Option<WorldKey>, ImportedInterface>,
) -> ComponentWorld {
    ComponentWorld {
        resolve: Resolve {
            interfaces,
            types,
            worlds: Seq::new(alloc),
        },
        world: WorldId { index: 0 },
        main,
        main_exports: Seq::new(alloc),
        adapters,
        import_map,
        live_type_imports: Keyed::new(alloc),
        exports_used: Keyed::new(alloc),
        can_use_context_slot_1: false,
    }
}

/// The world of main and of its adapters.
fn with_main(
    alloc: Global,
    main: ModuleDraft,
    adapters: Keyed<Text, WorldAdapter>,
    import_map: Keyed<Option<WorldKey>, ImportedInterface>,
) -> Result<ComponentWorld, AllocError> {
    let main = validated(alloc, main)?;
    let interfaces = interfaces(alloc)?;
    let types = types(alloc)?;
    Ok(world_of(alloc, interfaces, types, main, adapters, import_map))
}

/// The world of a draft.
fn finished(alloc: Global, draft: WorldDraft) -> Result<ComponentWorld, AllocError> {
    let WorldDraft {
        main,
        library,
        lowered,
    } = draft;
    let import_map = import_map(alloc, lowered)?;
    let adapters = adapters(alloc, library)?;
    with_main(alloc, main, adapters, import_map)
}

/// The world that these words describe.
pub(crate) fn world(alloc: Global, words: &str) -> Result<ComponentWorld, AllocError> {
    let draft = draft(alloc, words)?;
    finished(alloc, draft)
}

//! Canonical names that two imports, or two exports, of a world have.

use comp_encoder::check_duplicate_canonical_names;
use comp_lists::{Keyed, Seq, Text};
use plain_lower::PlainFault;
use semver::Version;
use std::alloc::{AllocError, Global};
use wit_data::{
    IdName, Interface, InterfaceId, PackageVersion, Resolve, World, WorldId, WorldItem, WorldKey,
};

/// The versions of the interfaces `a:b/i` of the worlds. The first two are compatible.
const VERSIONS: [&str; 3] = ["0.2.0", "0.2.1", "0.3.0"];

fn version_of(alloc: Global, text: &str) -> Result<PackageVersion, AllocError> {
    match Version::parse(alloc, text) {
        Ok(version) => Ok(PackageVersion::of(version)),
        Err(_) => Err(AllocError),
    }
}

fn name_of(alloc: Global, version: PackageVersion) -> Result<IdName, AllocError> {
    Ok(IdName {
        namespace: Text::from_str(alloc, "a")?,
        package: Text::from_str(alloc, "b")?,
        interface: Text::from_str(alloc, "i")?,
        version: Some(version),
    })
}

fn interface_of(alloc: Global, version: &str) -> Result<Interface, AllocError> {
    let version = version_of(alloc, version)?;
    match name_of(alloc, version) {
        Ok(name) => Ok(Interface {
            id: Some(name),
            types: Keyed::new(alloc),
            functions: Keyed::new(alloc),
        }),
        Err(refused) => Err(refused),
    }
}

fn interfaces_of(alloc: Global) -> Result<Seq<Interface>, AllocError> {
    let mut interfaces = Seq::new(alloc);
    for version in VERSIONS {
        let interface = interface_of(alloc, version)?;
        interfaces.push(interface)?;
    }
    Ok(interfaces)
}

/// These interfaces, each under itself as the key.
fn items_of(alloc: Global, indices: &[usize]) -> Result<Keyed<WorldKey, WorldItem>, AllocError> {
    let mut items = Keyed::new(alloc);
    for index in indices {
        let id = InterfaceId { index: *index };
        items.insert_if_absent(WorldKey::Interface(id), WorldItem::Interface(id))?;
    }
    Ok(items)
}

fn world_of(alloc: Global, imports: &[usize], exports: &[usize]) -> Result<World, AllocError> {
    let imports = items_of(alloc, imports)?;
    match items_of(alloc, exports) {
        Ok(exports) => Ok(World { imports, exports }),
        Err(refused) => Err(refused),
    }
}

fn resolve_of(alloc: Global, world: World) -> Result<Resolve, AllocError> {
    let mut worlds = Seq::new(alloc);
    worlds.push(world)?;
    match interfaces_of(alloc) {
        Ok(interfaces) => Ok(Resolve {
            interfaces,
            types: Seq::new(alloc),
            worlds,
        }),
        Err(refused) => Err(refused),
    }
}

/// What is said of the first world of a resolve.
fn said_of(alloc: Global, resolve: &Resolve) -> Result<String, AllocError> {
    if !resolve.is_sound() || resolve.worlds.len() == 0 {
        return String::from_str(alloc, "unsound");
    }
    match check_duplicate_canonical_names::<PlainFault>(alloc, resolve, WorldId { index: 0 }) {
        Ok(()) => String::from_str(alloc, "no fault"),
        Err(fault) => format!(in alloc; "{fault}"),
    }
}

/// What is said of a world that imports, and exports, the interfaces of these numbers.
fn said(alloc: Global, imports: &[usize], exports: &[usize]) -> Result<String, AllocError> {
    let world = world_of(alloc, imports, exports)?;
    let resolve = resolve_of(alloc, world)?;
    let said = said_of(alloc, &resolve);
    drop(resolve);
    said
}

#[test]
fn a_canonical_name_of_two_is_reported(rt: HostRuntime) -> Result<(), AllocError> {
    let alloc = rt.alloc();
    let first = "E5 CanonicalNames first=\"a:b/i@0.2.0\" second=\"a:b/i@0.2.1\" name=\"a:b/i@0.2\"";
    let second =
        "E5 CanonicalNames first=\"a:b/i@0.2.1\" second=\"a:b/i@0.2.0\" name=\"a:b/i@0.2\"";
    let worlds: [(&[usize], &[usize], &str); 6] = [
        (&[], &[], "no fault"),
        (&[0, 2], &[2, 1], "no fault"),
        (&[0, 1], &[], first),
        (&[], &[0, 1], first),
        (&[], &[2, 1, 0], second),
        (&[1, 2, 0], &[0, 1], second),
    ];
    for (imports, exports, expected) in worlds {
        assert_eq!(rt; said(alloc, imports, exports)?.as_str(), expected);
    }
    Ok(())
}

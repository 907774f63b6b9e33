//! A component that is built: that each call succeeds, and how often memory is asked for
//! (`tests/measured_growths.sh` refuses it).
//!
//! The component is that of `examples/component.wasm`: an import, a core module that is given it, and an export.

use byte_encoding::BuildFault;
use comp_builder::ComponentBuilder;
use comp_bytes::{CoreArgument, CoreInlineExport, Description, ExternName, FuncTypeDef, Sort};
use comp_lists::{Seq, SharedBytes, Text};
use standard_kinds::ExportKind;
use std::alloc::{AllocError, Global};

/// The core module, which imports `f` and exports `g`.
const MAIN: &[u8] =
    b"\x00asm\x01\x00\x00\x00\x01\x04\x01\x60\x00\x00\x02\x0b\x01\x05$root\x01f\x00\x00\x03\x02\x01\x00\x07\x05\x01\x01g\x00\x01\x0a\x04\x01\x02\x00\x0b";

fn named(alloc: Global, name: &str) -> Result<ExternName, AllocError> {
    Ok(ExternName {
        name: Text::from_str(alloc, name)?,
        version_suffix: None,
    })
}

fn add_import(alloc: Global, builder: &mut ComponentBuilder) -> Result<(), BuildFault> {
    let ty = FuncTypeDef {
        async_: false,
        params: Seq::new(alloc),
        result: None,
    };
    builder.type_function(None, ty)?;
    builder.import(named(alloc, "f")?, Description::Func(0))?;
    Ok(())
}

/// Adds the core instance of what the core module imports.
fn add_imported(alloc: Global, builder: &mut ComponentBuilder) -> Result<(), BuildFault> {
    builder.lower_func(Some("f"), 0, Seq::new(alloc))?;
    let mut exports = Seq::new(alloc);
    exports.push(CoreInlineExport {
        name: Text::from_str(alloc, "f")?,
        kind: ExportKind::Func,
        index: 0,
    })?;
    builder.core_instantiate_exports(Some("$root"), exports)?;
    Ok(())
}

fn add_instance(alloc: Global, builder: &mut ComponentBuilder) -> Result<(), BuildFault> {
    let mut args = Seq::new(alloc);
    args.push(CoreArgument {
        name: Text::from_str(alloc, "$root")?,
        instance: 0,
    })?;
    builder.core_instantiate(Some("main"), 0, args)?;
    Ok(())
}

fn add_export(alloc: Global, builder: &mut ComponentBuilder) -> Result<(), BuildFault> {
    builder.core_alias_export(Some("g"), 1, "g", ExportKind::Func)?;
    builder.lift_func(Some("g"), 1, 0, Seq::new(alloc))?;
    builder.export(named(alloc, "g")?, Sort::Func, 1, None)?;
    Ok(())
}

fn add_all(alloc: Global, builder: &mut ComponentBuilder) -> Result<(), BuildFault> {
    add_import(alloc, builder)?;
    let main = SharedBytes::from_vec(Vec::from_slice(alloc, MAIN)?)?;
    builder.core_module_raw(Some("main"), &main)?;
    add_imported(alloc, builder)?;
    add_instance(alloc, builder)?;
    add_export(alloc, builder)?;
    builder.append_names()
}

fn example(alloc: Global) -> Result<ComponentBuilder, AllocError> {
    let mut builder = ComponentBuilder::new(alloc);
    match add_all(alloc, &mut builder) {
        Ok(()) => Ok(builder),
        Err(_) => Err(AllocError),
    }
}

fn finished(builder: ComponentBuilder) -> Result<Vec<u8>, AllocError> {
    match builder.finish() {
        Ok(bytes) => Ok(bytes),
        Err(_) => Err(AllocError),
    }
}

#[test]
fn is_built(rt: HostRuntime) {
    let builder = example(rt.alloc()).expect(&rt, "memory");
    assert!(rt; !builder.definitions().is_empty());
}

#[test]
fn is_measured(rt: HostRuntime) {
    let builder = example(rt.alloc()).expect(&rt, "memory");
    assert!(rt; matches!(builder.measure(), Ok(186)));
}

#[test]
fn is_finished(rt: HostRuntime) {
    let builder = example(rt.alloc()).expect(&rt, "memory");
    let bytes = finished(builder).expect(&rt, "memory");
    assert!(rt; bytes.len() == 186 && bytes.ends_with(b"\x01\x05\x01\x01\x01\x01g"));
}

#[test]
fn an_empty_component_is_measured(rt: HostRuntime) {
    let builder = ComponentBuilder::new(rt.alloc());
    assert!(rt; matches!(builder.measure(), Ok(8)));
}

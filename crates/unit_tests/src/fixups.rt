//! The module that fills shims: the printed form of faults, and that each call succeeds. The bytes
//! of the modules are those of `crates/fixup_modules/proofs/Worked.antt`.

use byte_encoding::BuildFault;
use comp_lists::{Seq, Text};
use core_bytes::Module;
use core_types::{FuncType, GlobalType, ValType};
use fixup_modules::{EncodedFixup, FixupModule, ImportedInstance, ShimFault};
use std::alloc::{AllocError, Global};

/// So many parameters, and no result.
fn numbers(alloc: Global, count: usize) -> Result<Seq<ValType>, AllocError> {
    let mut params = Vec::new(alloc);
    for _ in 0..count {
        params.push(ValType::I32)?;
    }
    Ok(Seq::from_vec(params))
}

/// Appends a result to a text. Out of memory is returned.
fn show(out: &mut String, answer: Result<u32, ShimFault>) -> Result<(), AllocError> {
    let alloc = *out.allocator();
    let text = match answer {
        Ok(index) => format!(in alloc; "{index};")?,
        Err(ShimFault::Memory) => return Err(AllocError),
        Err(fault) => format!(in alloc; "{fault};")?,
    };
    out.push_str(text.as_str())
}

fn intern_types(
    fixup: &mut FixupModule,
    alloc: Global,
    out: &mut String,
) -> Result<(), AllocError> {
    show(out, fixup.type_thunk())?;
    show(out, fixup.type_thunk())?;
    show(out, fixup.type_intern(numbers(alloc, 1)?, Seq::new(alloc)))
}

fn import_items(fixup: &mut FixupModule, out: &mut String) -> Result<(), AllocError> {
    let global = GlobalType {
        val_type: ValType::I32,
        mutable: false,
    };
    show(out, fixup.import_func(&ImportedInstance::Main, "f", 0))?;
    show(out, fixup.import_func(&ImportedInstance::Main, "f", 0))?;
    show(out, fixup.import_func(&ImportedInstance::Main, "f", 1))?;
    show(
        out,
        fixup.import_global(&ImportedInstance::Main, "g", global),
    )?;
    show(out, fixup.import_func(&ImportedInstance::Main, "h", 1))
}

/// An import from an adapter that is named as main is.
fn import_from_adapter(
    fixup: &mut FixupModule,
    alloc: Global,
    out: &mut String,
) -> Result<(), AllocError> {
    let adapter = ImportedInstance::Adapter(Text::from_str(alloc, "main")?);
    show(out, fixup.import_func(&adapter, "f", 0))
}

/// What calls of a new module return.
fn answers(alloc: Global) -> Result<String, AllocError> {
    let mut out = String::new(alloc);
    let mut fixup = FixupModule::new(alloc);
    intern_types(&mut fixup, alloc, &mut out)?;
    import_items(&mut fixup, &mut out)?;
    import_from_adapter(&mut fixup, alloc, &mut out)?;
    Ok(out)
}

#[test]
fn types_and_imports_are_found_again(rt: HostRuntime) {
    let out = answers(rt.alloc()).expect(&rt, "memory");
    let expected =
        "0;0;1;0;0;S4 ImportType instance=\"main\" name=\"f\";0;1;S3 InstanceKind name=\"main\";";
    assert_eq!(rt; out.as_str(), expected);
}

/// Adds so many shims of two parameters, named by their numbers.
fn add_shims(fixup: &mut FixupModule, alloc: Global, count: u32) -> Result<(), ShimFault> {
    for number in 0..count {
        let name = format!(in alloc; "{number}")?;
        let ty = FuncType {
            params: numbers(alloc, 2)?,
            results: Seq::new(alloc),
        };
        fixup.add_shim(name.as_str(), ty)?;
    }
    Ok(())
}

/// The module of so many shims.
fn encoded(
    alloc: Global,
    count: u32,
    debug_names: bool,
) -> Result<Option<EncodedFixup>, ShimFault> {
    let mut fixup = FixupModule::new(alloc);
    add_shims(&mut fixup, alloc, count)?;
    fixup.encode(debug_names)
}

/// The bytes of a module. Out of memory is returned; what else refuses, has no bytes.
fn bytes_of(alloc: Global, module: &Module) -> Result<Vec<u8>, AllocError> {
    match module.bytes(alloc) {
        Ok(bytes) => Ok(bytes),
        Err(BuildFault::Memory) => Err(AllocError),
        Err(BuildFault::TooMany { excess: _ }) => Ok(Vec::new(alloc)),
    }
}

/// The bytes of the module of so many shims; none, where there is no module.
fn module_bytes(alloc: Global, count: u32, debug_names: bool) -> Result<Vec<u8>, AllocError> {
    match encoded(alloc, count, debug_names) {
        Ok(None) => Ok(Vec::new(alloc)),
        Ok(Some(fixup)) => bytes_of(alloc, &fixup.module),
        Err(ShimFault::Memory) => Err(AllocError),
        Err(_) => Ok(Vec::new(alloc)),
    }
}

#[test]
fn one_shim_is_filled(rt: HostRuntime) {
    let bytes = module_bytes(rt.alloc(), 1, false).expect(&rt, "memory");
    let expected =
        b"\x00asm\x01\x00\x00\x00\x01\x06\x01\x60\x02\x7f\x7f\x00\x02\x1f\x02\x06actual\x010\x00\x00\x04shim\x08$imports\x01\x70\x01\x01\x01\x09\x07\x01\x00\x41\x00\x0b\x01\x00";
    assert_eq!(rt; bytes.as_slice(), expected.as_slice());
}

#[test]
fn names_follow(rt: HostRuntime) {
    let bytes = module_bytes(rt.alloc(), 1, true).expect(&rt, "memory");
    let expected = b"\x00\x22\x04name\x00\x15\x14wit-component:fixups\x01\x04\x01\x00\x010";
    assert!(rt; bytes.len() == 94 && bytes.ends_with(expected));
}

#[test]
fn twelve_shims_are_filled_in_the_order_of_their_numbers(rt: HostRuntime) {
    let bytes = module_bytes(rt.alloc(), 12, false).expect(&rt, "memory");
    let expected =
        b"\x09\x12\x01\x00\x41\x00\x0b\x0c\x00\x01\x02\x03\x04\x05\x06\x07\x08\x09\x0a\x0b";
    assert!(rt; bytes.ends_with(expected));
}

#[test]
fn without_shims_there_is_no_module(rt: HostRuntime) {
    let bytes = module_bytes(rt.alloc(), 0, true).expect(&rt, "memory");
    assert!(rt; bytes.is_empty());
}

/// The names of the arguments of the module of so many shims.
fn arguments(alloc: Global, fixup: &EncodedFixup) -> Result<String, AllocError> {
    let mut out = String::new(alloc);
    for (name, _) in fixup.instances.iter() {
        out.push_str(name.as_str())?;
        out.push_str(";")?;
    }
    Ok(out)
}

#[test]
fn arguments_are_in_the_order_of_their_first_imports(rt: HostRuntime) {
    let alloc = rt.alloc();
    let Ok(Some(fixup)) = encoded(alloc, 2, false) else {
        let failed: Result<(), AllocError> = Err(AllocError);
        failed.expect(&rt, "memory");
        return;
    };
    let names = arguments(alloc, &fixup).expect(&rt, "memory");
    assert_eq!(rt; names.as_str(), "actual;shim;");
    let shim = Text::from_str(alloc, "shim").expect(&rt, "memory");
    assert!(rt; matches!(fixup.instances.get(&shim), Some(ImportedInstance::Shim)));
}

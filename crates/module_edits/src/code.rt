//! The section of code: bodies that call a function first, and the body of that function.
#![tactic(auto, using(byte_encoding::proofs::Pieces::writing))]

ghost use Rattle.std.specs.Prelude.{◌≡◌, ◌≤◌, ◌+◌, ◌-◌, ◌++◌, ◌^◌, ℕ, Bool, length, map, take};
ghost use Rattle.std.specs.Prelude.{◌||◌, IfOk, IfErr, OnOk, Some, []};
ghost use Rattle.std.specs.BTreeSet.{contains};
ghost use Rattle.std.specs.Ordering.{nat_cmp};
ghost use Rattle.byte_encoding.specs.Encoding.{raw, octet, number, quantity, each, named, sized};
ghost use Rattle.byte_encoding.specs.Encoding.{Encoding, ◌⊕◌};
ghost use Rattle.byte_encoding.specs.Written.{Writes, Refused};
ghost use Rattle.core_parts.specs.Functions.{is_of, is_exported, bodies_of};
ghost use Rattle.module_edits.specs.Additions.{added_view, with_id, call_of, entered, entered_if};
ghost use Rattle.module_edits.specs.Additions.{bodies_from, code_of};

use crate::additions::NewFunction;
use crate::entries::put_blob;
use byte_encoding::{BuildFault, put_bytes, put_count, put_tagged};
use core_parts::{ExportedIndex, function_bodies, instructions_of};
use std::alloc::{AllocError, Global};
use std::collections::BTreeSet;

/// A call of a function, as an instruction.
fn call_of(alloc: Global, function: u32) -> Result<Vec<u8>, BuildFault>
    ensures ok { IfOk result (λ v. v.items ≡ call_of function) }
    ensures refused { IfErr result (Refused []) }
{
    let mut call = Vec::new(alloc);
    put_tagged(&mut call, 0x10, &function)?;
    Ok(call)
}

/// A body with this instruction in front of its code.
fn entered_at(alloc: Global, call: &[u8], body: &[u8], code: &[u8]) -> Result<Vec<u8>, AllocError>
    requires { length code.now ≤ length body.now }
    ensures { IfOk result
        (λ v. v.items ≡ take (length body.now - length code.now) body.now ++ call.now ++ code.now) }
{
    let mut whole = Vec::new(alloc);
    whole.extend_from_slice(&body[..body.len() - code.len()])?;
    whole.extend_from_slice(call)?;
    whole.extend_from_slice(code)?;
    Ok(whole)
}

/// Writes a body, after its size, with this instruction in front of its code.
fn put_entered(out: &mut Vec<u8>, call: &[u8], body: &[u8]) -> Result<(), BuildFault>
    ensures { Writes out.old.items out.new.items result (named (entered call.now body.now)) }
{
    match instructions_of(body) {
        None => put_blob(out, body),
        Some(code) => {
            let whole = entered_at(*out.allocator(), call, body, code)?;
            put_blob(out, whole.as_slice())
        }
    }
}

/// Writes a body after its size.
fn put_body(out: &mut Vec<u8>, calls: bool, call: &[u8], body: &[u8]) -> Result<(), BuildFault>
    ensures { Writes out.old.items out.new.items result
        (named (entered_if calls call.now body.now)) }
{
    if calls {
        put_entered(out, call, body)
    } else {
        put_blob(out, body)
    }
}

/// Adds what this export is of, if it is a function.
fn add_exported(functions: &mut BTreeSet<u128>, export: ExportedIndex) -> Result<(), AllocError>
    ensures { OnOk result ((q : ℕ) →
        contains nat_cmp functions.new q ≡ (contains nat_cmp functions.old q || is_of q export)) }
{
    if export.kind == 0 {
        functions.insert(export.index as u128)?;
    }
    Ok(())
}

/// Adds the functions that are exported.
fn add_all_exported(
    functions: &mut BTreeSet<u128>,
    exports: &[ExportedIndex],
) -> Result<(), AllocError>
    ensures { OnOk result ((q : ℕ) → contains nat_cmp functions.new q
        ≡ (contains nat_cmp functions.old q || is_exported exports.now q)) }
{
    for export in exports {
        add_exported(functions, *export)?;
    }
    Ok(())
}

/// The functions that are exported.
fn exported(alloc: Global, exports: &[ExportedIndex]) -> Result<BTreeSet<u128>, AllocError>
    ensures { IfOk result
        (λ set. (q : ℕ) → contains nat_cmp set q ≡ is_exported exports.now q) }
{
    let mut functions = BTreeSet::new(alloc);
    add_all_exported(&mut functions, exports)?;
    Ok(functions)
}

/// Writes the bodies of the functions from an index on, where `functions` are those that are exported.
fn put_bodies(
    out: &mut Vec<u8>,
    exports: &[ExportedIndex],
    functions: &BTreeSet<u128>,
    call: &[u8],
    first: u32,
    bodies: &[&[u8]],
) -> Result<(), BuildFault>
    requires { (q : ℕ) → contains nat_cmp functions.now q ≡ is_exported exports.now q }
    ensures { Writes out.old.items out.new.items result
        (each named (bodies_from exports.now call.now first (map (λ b. b.now) bodies.now))) }
{
    let mut index = first as u128;
    for body in bodies {
        put_body(out, functions.contains(&index), call, body)?;
        index += 1;
    }
    Ok(())
}

/// Writes the bodies of a module, and that of the new function.
#[tactic(auto, using(byte_encoding::proofs::Pieces::writing, crate::proofs::Bodies::held_length, crate::proofs::Bodies::no_counts))]
fn put_all(
    out: &mut Vec<u8>,
    exports: &[ExportedIndex],
    first: u32,
    new: NewFunction<'_>,
    bodies: &[&[u8]],
) -> Result<(), BuildFault>
    ensures { Writes out.old.items out.new.items result (code_of exports.now first
        (added_view new.entry) [] (Some (map (λ b. b.now) bodies.now))) }
{
    let functions = exported(*out.allocator(), exports)?;
    let call = call_of(*out.allocator(), new.index)?;
    put_count(out, bodies.len() + 1)?;
    put_bodies(out, exports, &functions, call.as_slice(), first, bodies)?;
    put_blob(out, new.body)?;
    Ok(())
}

/// Writes the contents of the section of code.
fn put_code(
    out: &mut Vec<u8>,
    exports: &[ExportedIndex],
    first: u32,
    new: NewFunction<'_>,
    contents: &[u8],
) -> Result<(), BuildFault>
    ensures { Writes out.old.items out.new.items result (code_of exports.now
        first (added_view new.entry) contents.now (bodies_of contents.now)) }
{
    match function_bodies(*out.allocator(), contents)? {
        None => put_bytes(out, contents),
        Some(bodies) => put_all(out, exports, first, new, &bodies),
    }
}

/// Writes the section of code.
pub(crate) fn put_code_section(
    out: &mut Vec<u8>,
    exports: &[ExportedIndex],
    first: u32,
    new: NewFunction<'_>,
    contents: &[u8],
) -> Result<(), BuildFault>
    ensures { Writes out.old.items out.new.items result (with_id 10
        (code_of exports.now first (added_view new.entry) contents.now
        (bodies_of contents.now))) }
{
    let mut buffer = Vec::new(*out.allocator());
    put_code(&mut buffer, exports, first, new, contents)?;
    put_bytes(out, &[10])?;
    put_blob(out, buffer.as_slice())?;
    Ok(())
}

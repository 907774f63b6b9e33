//! The names of operations on streams and futures.

ghost use Rattle.std.specs.Prelude.{◌≡◌, option_map, IfOk};
ghost use Rattle.std.specs.Option.{option_copied};
ghost use Rattle.name_parts.specs.PayloadNames.{with_operation, transfer, cancel, drop_end, operation, may_be_async, index, with_index, parts, payload_name};

use crate::texts::{after, number};
use comp_lists::split_once;
use record_values::{PayloadKind, PayloadOperation};
use std::alloc::{AllocError, Global};

/// The operation of a name, and what follows it.
type Operation<'a> = Option<(PayloadOperation, &'a str)>;

/// A kind, an operation, the index of a stream or future in a function, or none for one without values, and
/// the function.
pub type PayloadName<'a> = (PayloadKind, PayloadOperation, Option<u32>, &'a str);

fn with_operation(operation: PayloadOperation, rest: Option<&str>) -> Operation<'_>
    ensures { option_map (λ o. (o.0, o.1.now)) result ≡ with_operation operation
        (option_copied rest.entry) }
{
    match rest {
        Some(rest) => Some((operation, rest)),
        None => None,
    }
}

fn transfer(text: &str) -> Operation<'_>
    ensures { option_map (λ o. (o.0, o.1.now)) result ≡ transfer text.now }
{
    use PayloadOperation::{New, Read, Write};
    if let Some(rest) = after("new-", text) {
        return Some((New, rest));
    }
    if let Some(rest) = after("read-", text) {
        return Some((Read, rest));
    }
    with_operation(Write, after("write-", text))
}

fn cancel(text: &str) -> Operation<'_>
    ensures { option_map (λ o. (o.0, o.1.now)) result ≡ cancel text.now }
{
    use PayloadOperation::{CancelRead, CancelWrite};
    if let Some(rest) = after("cancel-read-", text) {
        return Some((CancelRead, rest));
    }
    with_operation(CancelWrite, after("cancel-write-", text))
}

fn drop_end(text: &str) -> Operation<'_>
    ensures { option_map (λ o. (o.0, o.1.now)) result ≡ drop_end text.now }
{
    use PayloadOperation::{DropReadable, DropWritable};
    if let Some(rest) = after("drop-readable-", text) {
        return Some((DropReadable, rest));
    }
    with_operation(DropWritable, after("drop-writable-", text))
}

fn operation(text: &str) -> Operation<'_>
    ensures { option_map (λ o. (o.0, o.1.now)) result ≡ operation text.now }
{
    if let Some(found) = transfer(text) {
        return Some(found);
    }
    if let Some(found) = cancel(text) {
        return Some(found);
    }
    drop_end(text)
}

/// Whether there is an asynchronous form of an operation.
pub fn may_be_async(operation: PayloadOperation) -> bool
    ensures { result ≡ may_be_async operation }
{
    match operation {
        PayloadOperation::New => false,
        PayloadOperation::Read => true,
        PayloadOperation::Write => true,
        PayloadOperation::CancelRead => true,
        PayloadOperation::CancelWrite => true,
        PayloadOperation::DropReadable => false,
        PayloadOperation::DropWritable => false,
    }
}

fn index(alloc: Global, text: &str) -> Result<Option<Option<u32>>, AllocError>
    ensures { IfOk result (λ i. i ≡ index text.now) }
{
    if text == "unit" {
        return Ok(Some(None));
    }
    match number(alloc, text)? {
        Some(number) => Ok(Some(Some(number))),
        None => Ok(None),
    }
}

fn with_index<'a>(
    alloc: Global,
    kind: PayloadKind,
    function: &'a str,
    operation: Operation<'_>,
) -> Result<Option<PayloadName<'a>>, AllocError>
    ensures { IfOk result (λ p. option_map (λ n. (n.0, n.1, n.2, n.3.now)) p
        ≡ with_index kind function.now (option_map (λ o. (o.0, o.1.now)) operation.entry)) }
{
    let Some((operation, rest)) = operation else {
        return Ok(None);
    };
    match index(alloc, rest)? {
        Some(index) => Ok(Some((kind, operation, index, function))),
        None => Ok(None),
    }
}

fn parts(
    alloc: Global,
    kind: PayloadKind,
    text: &str,
) -> Result<Option<PayloadName<'_>>, AllocError>
    ensures { IfOk result (λ p. option_map (λ n. (n.0, n.1, n.2, n.3.now)) p
        ≡ parts kind text.now) }
{
    match split_once(text, ']') {
        Some((inside, function)) => with_index(alloc, kind, function, operation(inside)),
        None => Ok(None),
    }
}

/// The parts of the name of an operation on a stream or future.
#[tactic(auto, unfolding(crate::specs::PayloadNames::payload_name))]
pub fn payload_name(alloc: Global, text: &str) -> Result<Option<PayloadName<'_>>, AllocError>
    ensures { IfOk result (λ p. option_map (λ n. (n.0, n.1, n.2, n.3.now)) p
        ≡ payload_name text.now) }
{
    if let Some(rest) = after("[stream-", text) {
        let found = parts(alloc, PayloadKind::Stream, rest)?;
        if found.is_some() {
            return Ok(found);
        }
    }
    match after("[future-", text) {
        Some(rest) => parts(alloc, PayloadKind::Future, rest),
        None => Ok(None),
    }
}

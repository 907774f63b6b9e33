//! Versions, and names of interfaces and of the items of a world.
//!
//! The query is one of these:
//!
//! - `version` and a version: its canonical form and the rest of it;
//! - `whole`, `canonical` or `suffix`, and a namespace, a package, an interface, and an optional version: the whole name, the canonical
//!   one, or the rest of it, each of a copy;
//! - `key` or `canonical-key`, and the index of an interface of those that are given: the name of its key, whole or canonical;
//! - `id` or `canonical-id`, and such an index: the name of the interface;
//! - `plain-key` or `canonical-plain-key`, and a text: the name of that key.
//!
//! Given are the names of interfaces, with `; ` between them, or `_` where one has none. What is
//! absent is printed as `none`, and an empty text as `empty`.

use comp_lists::{Seq, Text};
use semver::Version;
use std::alloc::{AllocError, Global};
use test_cases::{number, word_and_rest};
use wit_data::{
    CanonicalVersion, IdName, Interface, InterfaceId, PackageVersion, Resolve, WorldKey,
    canonical_version,
};
use wit_texts::{empty_interface, resolve_with};

/// The version of a text. All versions in the files are well formed, so the only error is out of memory.
fn version_of(alloc: Global, text: &str) -> Result<Version, AllocError> {
    match Version::parse(alloc, text) {
        Ok(version) => Ok(version),
        Err(_) => Err(AllocError),
    }
}

/// A text that may be absent.
fn text_or_none(text: &Option<Text>) -> &str {
    match text {
        Some(text) => text.as_str(),
        None => "none",
    }
}

fn print_version(alloc: Global, cut: &CanonicalVersion) -> Result<String, AllocError> {
    format!(in alloc; "{} | {}", cut.version.as_str(), text_or_none(&cut.suffix))
}

fn version_answer(alloc: Global, text: &str) -> Result<String, AllocError> {
    let version = version_of(alloc, text)?;
    let cut = canonical_version(alloc, &version)?;
    print_version(alloc, &cut)
}

/// A version, where there is a text.
fn package_version(alloc: Global, text: &str) -> Result<Option<PackageVersion>, AllocError> {
    if text.is_empty() {
        return Ok(None);
    }
    let version = version_of(alloc, text)?;
    Ok(Some(PackageVersion::of(version)))
}

/// A namespace, a package and an interface.
fn path(alloc: Global, text: &str) -> Result<(Text, Text, Text), AllocError> {
    let (namespace, rest) = word_and_rest(text);
    let (package, interface) = word_and_rest(rest);
    let namespace = Text::from_str(alloc, namespace)?;
    let package = Text::from_str(alloc, package)?;
    let interface = Text::from_str(alloc, interface)?;
    Ok((namespace, package, interface))
}

fn id_name_of(path: (Text, Text, Text), version: Option<PackageVersion>) -> IdName {
    let (namespace, package, interface) = path;
    IdName {
        namespace,
        package,
        interface,
        version,
    }
}

/// A namespace, a package, an interface, and an optional version, as one name.
fn id_name(alloc: Global, text: &str) -> Result<IdName, AllocError> {
    let (names, version) = text.split_once("@").unwrap_or((text, ""));
    let path = path(alloc, names)?;
    let version = package_version(alloc, version)?;
    Ok(id_name_of(path, version))
}

fn print_suffix(alloc: Global, name: &IdName) -> Result<String, AllocError> {
    let suffix = name.version_suffix(alloc)?;
    String::from_str(alloc, text_or_none(&suffix))
}

fn print_text(text: Result<Text, AllocError>) -> Result<String, AllocError> {
    match text {
        Ok(text) => Ok(text.into_string()),
        Err(refused) => Err(refused),
    }
}

fn print_name(alloc: Global, question: &str, name: &IdName) -> Result<String, AllocError> {
    match question {
        "whole" => print_text(name.text(alloc)),
        "canonical" => print_text(name.canonical_text(alloc)),
        _ => print_suffix(alloc, name),
    }
}

/// The printed text of a copy of a name.
fn print_copy(alloc: Global, question: &str, name: &IdName) -> Result<String, AllocError> {
    let copy = name.clone(alloc)?;
    let printed = print_name(alloc, question, &copy);
    drop(copy);
    printed
}

fn name_answer(alloc: Global, question: &str, text: &str) -> Result<String, AllocError> {
    let name = id_name(alloc, text)?;
    let printed = print_copy(alloc, question, &name);
    drop(name);
    printed
}

/// An interface of this name, or of none.
fn interface(alloc: Global, text: &str) -> Result<Interface, AllocError> {
    if text == "_" {
        return Ok(empty_interface(alloc, None));
    }
    match id_name(alloc, text) {
        Ok(name) => Ok(empty_interface(alloc, Some(name))),
        Err(refused) => Err(refused),
    }
}

fn push_interface(
    alloc: Global,
    interfaces: &mut Seq<Interface>,
    text: &str,
) -> Result<(), AllocError> {
    let interface = interface(alloc, text)?;
    interfaces.push(interface)?;
    Ok(())
}

fn interfaces(alloc: Global, given: &str) -> Result<Seq<Interface>, AllocError> {
    let mut interfaces = Seq::new(alloc);
    for text in given.split("; ") {
        push_interface(alloc, &mut interfaces, text)?;
    }
    Ok(interfaces)
}

fn resolve(alloc: Global, given: &str) -> Result<Resolve, AllocError> {
    let interfaces = interfaces(alloc, given)?;
    resolve_with(alloc, interfaces, "")
}

/// The text of a name, which may be empty.
fn print_or_empty(alloc: Global, text: Result<Text, AllocError>) -> Result<String, AllocError> {
    match text {
        Ok(text) => {
            if text.is_empty() {
                return String::from_str(alloc, "empty");
            }
            Ok(text.into_string())
        }
        Err(refused) => Err(refused),
    }
}

/// The text of a name, which may be absent.
fn print_or_none(
    alloc: Global,
    text: Result<Option<Text>, AllocError>,
) -> Result<String, AllocError> {
    match text {
        Ok(Some(text)) => Ok(text.into_string()),
        Ok(None) => String::from_str(alloc, "none"),
        Err(refused) => Err(refused),
    }
}

/// A name of an interface or of its key.
fn print_key(
    alloc: Global,
    resolve: &Resolve,
    question: &str,
    index: usize,
) -> Result<String, AllocError> {
    if !resolve.is_sound() || index >= resolve.interfaces.len() {
        return String::from_str(alloc, "unsound");
    }
    let id = InterfaceId { index };
    let key = WorldKey::Interface(id);
    match question {
        "key" => print_or_empty(alloc, resolve.name_world_key(alloc, &key)),
        "canonical-key" => print_or_empty(alloc, resolve.name_canonicalized_world_key(alloc, &key)),
        "id" => print_or_none(alloc, resolve.id_of(alloc, id)),
        _ => print_or_none(alloc, resolve.canonicalized_id_of(alloc, id)),
    }
}

fn key_answer(
    alloc: Global,
    question: &str,
    given: &str,
    text: &str,
) -> Result<String, AllocError> {
    let resolve = resolve(alloc, given)?;
    let printed = print_key(alloc, &resolve, question, number(text));
    drop(resolve);
    printed
}

/// The name of a key that is a text.
fn print_plain_key(
    alloc: Global,
    resolve: &Resolve,
    question: &str,
    text: Text,
) -> Result<String, AllocError> {
    let key = WorldKey::Name(text);
    if !resolve.is_sound() {
        return String::from_str(alloc, "unsound");
    }
    match question {
        "plain-key" => print_or_empty(alloc, resolve.name_world_key(alloc, &key)),
        _ => print_or_empty(alloc, resolve.name_canonicalized_world_key(alloc, &key)),
    }
}

fn plain_key_answer(
    alloc: Global,
    question: &str,
    given: &str,
    text: &str,
) -> Result<String, AllocError> {
    let text = Text::from_str(alloc, text)?;
    let resolve = resolve(alloc, given)?;
    let printed = print_plain_key(alloc, &resolve, question, text);
    drop(resolve);
    printed
}

pub(crate) fn answer(alloc: Global, given: &str, asked: &str) -> Result<String, AllocError> {
    let (question, rest) = word_and_rest(asked);
    match question {
        "version" => version_answer(alloc, rest),
        "whole" | "canonical" | "suffix" => name_answer(alloc, question, rest),
        "key" | "canonical-key" | "id" | "canonical-id" => key_answer(alloc, question, given, rest),
        "plain-key" | "canonical-plain-key" => plain_key_answer(alloc, question, given, rest),
        _ => String::from_str(alloc, "no question"),
    }
}

//! The names under which the functions of an interface are imported, and its types.

ghost use Rattle.std.specs.Prelude.{◌≡◌, ◌<◌, ◌^◌, ◌++◌, IfOk, OnOk, length, map, codes, string_bytes};
ghost use Rattle.std.specs.List.{flat_map};
ghost use Rattle.std.specs.Char.{encode_utf8};
ghost use Rattle.std.specs.Fmt.{decimal};
ghost use Rattle.std.specs.Map.{keys_of};
ghost use Rattle.nested_terms.specs.Naming.{is_free, letter, plain_import_name, type_import_name, IsFirstFree, AreNames};
ghost use Rattle.nested_components.specs.Functions.{functions_of};
ghost use Rattle.nested_components.specs.Growing.{function_entry};
ghost use Rattle.nested_components.specs.Names.{AddsName};

use comp_lists::{Keyed, Seq, Text};
use std::alloc::{AllocError, Global};
use std::fmt::Write;
use wit_data::{Function, FunctionKind, TypeId};

/// The names of the imports of functions, in the order of the functions, and the table of names
/// that are taken, which has these.
pub(crate) struct FunctionNames {
    pub(crate) names: Seq<Text>,
    pub(crate) taken: Keyed<Text, Option<TypeId>>,
}

impl Drop for FunctionNames {
    fn drop(self) {
        let FunctionNames { names: _, taken: _ } = self;
    }
}

impl FunctionNames {
    /// The names.
    fn into_names(self) -> Seq<Text>
        ensures { result ≡ self.names }
    {
        let FunctionNames { names, taken: _ } = self;
        names
    }

    /// The names, and the table.
    pub(crate) fn into_parts(self) -> (Seq<Text>, Keyed<Text, Option<TypeId>>)
        ensures names { result.0 ≡ self.names }
        ensures taken { result.1 ≡ self.taken }
    {
        let FunctionNames { names, taken } = self;
        (names, taken)
    }
}

/// The names under which the functions of an interface are imported, in their order. A name that is taken already is
/// lengthened by numbers, so that none occurs twice.
pub fn import_names(
    alloc: Global,
    functions: &Keyed<Text, Function>,
) -> Result<Seq<Text>, AllocError>
    ensures { IfOk result (λ names. AreNames (functions_of functions.now) names) }
{
    let chosen = choose_names(alloc, functions)?;
    Ok(chosen.into_names())
}

/// The names of the imports of functions, and the table that has them.
pub(crate) fn choose_names(
    alloc: Global,
    functions: &Keyed<Text, Function>,
) -> Result<FunctionNames, AllocError>
    ensures names { IfOk result (λ chosen. AreNames (functions_of functions.now) chosen.names) }
    ensures taken { IfOk result (λ chosen. chosen.taken ≡ map function_entry chosen.names) }
{
    let mut names = Seq::new(alloc);
    let mut taken = Keyed::new(alloc);
    for (_, function) in functions.iter() {
        add_name(alloc, &mut names, &mut taken, function)?;
    }
    Ok(FunctionNames { names, taken })
}

/// Adds the name of one more function.
fn add_name(
    alloc: Global,
    names: &mut Seq<Text>,
    taken: &mut Keyed<Text, Option<TypeId>>,
    function: &Function,
) -> Result<(), AllocError>
    requires same { taken.old ≡ map function_entry names.old }
    ensures added { OnOk result (AddsName names.old names.new (plain_import_name function.now)) }
    ensures same { OnOk result (taken.new ≡ map function_entry names.new) }
{
    let plain = plain_import_name(alloc, function)?;
    let name = first_free(alloc, taken, plain)?;
    names.push(name.clone(alloc)?)?;
    taken.insert(name, None)
}

/// The name of the import of a type of this name, with as few numbers behind it as it takes for it to be free.
pub(crate) fn free_type_name(
    alloc: Global,
    taken: &Keyed<Text, Option<TypeId>>,
    name: &Text,
) -> Result<Text, AllocError>
    ensures { IfOk result
        (λ free. IsFirstFree (keys_of taken.now) (type_import_name name.now) free) }
{
    let plain = type_import_name(alloc, name.as_str())?;
    first_free(alloc, taken, plain)
}

/// The name of the import of a type of this name, before any number.
fn type_import_name(alloc: Global, name: &str) -> Result<Text, AllocError>
    ensures { IfOk result (λ text. text ≡ type_import_name name.now) }
{
    let mut text = String::from_str(alloc, "import-type-")?;
    text.push_str(name)?;
    Ok(Text::from_string(text))
}

/// The name, with as few numbers behind it as it takes for it to be free.
fn first_free(
    alloc: Global,
    taken: &Keyed<Text, Option<TypeId>>,
    name: Text,
) -> Result<Text, AllocError>
    ensures { IfOk result (λ free. IsFirstFree (keys_of taken.now) name free) }
{
    let mut free = name;
    let mut count: u64 = 0;
    while taken.contains_key(&free) {
        free = numbered(free, count)?;
        count += 1;
    }
    Ok(free)
}

/// The name, with a number behind it.
fn numbered(name: Text, number: u64) -> Result<Text, AllocError>
    ensures numbered { IfOk result (λ text. text ≡ name ++ decimal number) }
    ensures short { IfOk result (λ text. length text < 2 ^ 63) }
{
    let mut text = name.into_string();
    write!(text, "{number}")?;
    Ok(Text::from_string(text))
}

/// The name of the import of a function, before any number.
fn plain_import_name(alloc: Global, function: &Function) -> Result<Text, AllocError>
    ensures { IfOk result (λ name. name ≡ plain_import_name function.now) }
{
    if is_free(function.kind) {
        free_name(alloc, function.name.as_str())
    } else {
        method_name(alloc, function.name.as_str())
    }
}

/// Whether a function of this kind belongs to no resource.
fn is_free(kind: FunctionKind) -> bool
    ensures { result ≡ is_free kind }
{
    matches!(
        kind,
        FunctionKind::Freestanding | FunctionKind::AsyncFreestanding
    )
}

/// The name of the import of a function that belongs to no resource.
fn free_name(alloc: Global, name: &str) -> Result<Text, AllocError>
    ensures { IfOk result (λ text. text ≡ codes "import-func-" ++ name.now) }
{
    let mut text = String::from_str(alloc, "import-func-")?;
    text.push_str(name)?;
    Ok(Text::from_string(text))
}

/// The name of the import of a function that belongs to a resource.
fn method_name(alloc: Global, name: &str) -> Result<Text, AllocError>
    ensures { IfOk result (λ text. text ≡ codes "import-" ++ flat_map letter name.now) }
{
    let mut text = String::from_str(alloc, "import-")?;
    put_letters(&mut text, name)?;
    Ok(Text::from_string(text))
}

/// Writes a name without its brackets and dots.
fn put_letters(out: &mut String, name: &str) -> Result<(), AllocError>
    ensures { OnOk result
        (string_bytes out.new ≡ string_bytes out.old ++ flat_map letter name.now) }
{
    for c in name.chars() {
        put_letter(out, c)?;
    }
    Ok(())
}

/// Writes a character of a name: no bracket before it, and a hyphen for a bracket behind it or a dot.
#[tactic(auto, using(crate::proofs::Letters::letters))]
fn put_letter(out: &mut String, c: char) -> Result<(), AllocError>
    ensures { OnOk result
        (string_bytes out.new ≡ string_bytes out.old ++ flat_map letter (encode_utf8 c)) }
{
    if c == '[' {
        Ok(())
    } else if c == ']' || c == '.' {
        out.push('-')
    } else {
        out.push(c)
    }
}

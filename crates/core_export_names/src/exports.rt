//! The roles of core exports, by their names.

ghost use Rattle.std.specs.Prelude.{◌≡◌, IfOk};
ghost use Rattle.comp_lists.specs.Splits.{split_once};
ghost use Rattle.std.specs.Option.{option_copied};
ghost use Rattle.world_names.specs.Labels.{labelled};
ghost use Rattle.core_export_names.specs.ExportNames.{use_role, is_used, used, used_if, as_plain, older_plain, used_of, used_split, used_name, used_name_if, destructor_of, destructor, called_name, helper_name, older_function, standard_plain, standard_in, standard_of, standard_labelled, standard_split, standard_item, standard_function, older_if, memory_named, function_export, export_of_kind, is_wide, export_role};
ghost use Rattle.world_names.specs.Scopes.{root};
ghost use Rattle.name_parts.specs.Texts as texts;
ghost use Rattle.world_names.specs.declared.labels.Side.TheVariants as sides;

use comp_lists::split_once;
use name_parts::{Reading, Refusal, after, any_of_three, before, either};
use record_values::{ExportRole, InterfaceName, PlainExport, TypeName};
use standard_kinds::ExportKind;
use std::alloc::{AllocError, Global};
use wit_data::AbiVariant;
use world_names::{
    Scope, Side, WorldNames, canonical_label, has_function, is_own_resource, labelled,
    of_interface, owned, root,
};

/// What a name means, or out of memory.
type Meaning = Result<Reading<ExportRole>, AllocError>;

/// What an export is for a function or a resource.
#[derive(Clone, Copy, PartialEq, Eq)]
pub(crate) enum Use {
    Called(AbiVariant),
    PostReturn,
    Callback,
    Destructor,
}

// ---- functions and resources of a scope

fn use_role(use_: Use, named: TypeName) -> ExportRole
    ensures { result ≡ use_role use_ named }
{
    match use_ {
        Use::Called(abi) => {
            let TypeName { owner, name } = named;
            ExportRole::Function { owner, name, abi }
        }
        Use::PostReturn => {
            let TypeName { owner, name } = named;
            ExportRole::PostReturn {
                owner,
                function: name,
            }
        }
        Use::Callback => {
            let TypeName { owner, name } = named;
            ExportRole::Callback {
                owner,
                function: name,
            }
        }
        Use::Destructor => ExportRole::Destructor(named),
    }
}

/// Whether a scope has what this is a use of.
fn is_used(
    alloc: Global,
    names: &WorldNames,
    scope: &Scope,
    use_: Use,
    name: &str,
) -> Result<bool, AllocError>
    ensures { IfOk result (λ b. b ≡ is_used names.now scope.now use_ name.now) }
{
    match use_ {
        Use::Called(_) => has_function(alloc, names, scope, name),
        Use::PostReturn => has_function(alloc, names, scope, name),
        Use::Callback => has_function(alloc, names, scope, name),
        Use::Destructor => is_own_resource(alloc, names, scope, name),
    }
}

fn used(alloc: Global, names: &WorldNames, scope: &Scope, use_: Use, name: &str) -> Meaning
    ensures { IfOk result (λ r. r ≡ used names.now scope.now use_ name.now) }
{
    if !is_used(alloc, names, scope, use_, name)? {
        return Ok(Reading::Nothing);
    }
    let named = owned(alloc, scope, name)?;
    Ok(Reading::Means(use_role(use_, named)))
}

fn used_if(
    alloc: Global,
    names: &WorldNames,
    scope: &Scope,
    use_: Use,
    name: Option<&str>,
) -> Meaning
    ensures { IfOk result (λ r. r ≡ used_if names.now scope.now use_ (option_copied name.entry)) }
{
    match name {
        Some(name) => used(alloc, names, scope, use_, name),
        None => Ok(Reading::Nothing),
    }
}

fn used_before(
    alloc: Global,
    names: &WorldNames,
    scope: &Scope,
    use_: Use,
    suffix: &str,
    name: &str,
) -> Meaning
    ensures { IfOk result (λ r. r ≡ used_if names.now scope.now use_
        (texts.before suffix.now name.now)) }
{
    used_if(alloc, names, scope, use_, before(suffix, name))
}

/// What is of the world itself.
fn used_of_root(alloc: Global, names: &WorldNames, use_: Use, name: &str) -> Meaning
    ensures { IfOk result (λ r. r ≡ used names.now (root sides.Exported) use_ name.now) }
{
    let scope = root(Side::Exported);
    used(alloc, names, &scope, use_, name)
}

fn as_plain(plain: Option<PlainExport>) -> Meaning
    ensures { IfOk result (λ r. r ≡ as_plain plain) }
{
    match plain {
        Some(plain) => Ok(Reading::Means(ExportRole::Plain(plain))),
        None => Ok(Reading::Nothing),
    }
}

// ---- the older form

fn older_plain(name: &str) -> Option<PlainExport>
    ensures { result ≡ older_plain name.now }
{
    match name {
        "cabi_realloc" => Some(PlainExport::Realloc),
        "cabi_import_realloc" => Some(PlainExport::ImportRealloc),
        "cabi_export_realloc" => Some(PlainExport::ExportRealloc),
        "cabi_realloc_adapter" => Some(PlainExport::AdapterRealloc),
        "_initialize" => Some(PlainExport::Initialize),
        _ => None,
    }
}

fn older_plain_role(name: &str) -> Meaning
    ensures { IfOk result (λ r. r ≡ as_plain (older_plain name.now)) }
{
    as_plain(older_plain(name))
}

fn used_of(
    alloc: Global,
    names: &WorldNames,
    use_: Use,
    interface: Reading<InterfaceName>,
    name: &str,
) -> Meaning
    ensures { IfOk result (λ r. r ≡ used_of names.now use_ interface name.now) }
{
    match interface {
        Reading::Nothing => Ok(Reading::Nothing),
        Reading::Means(interface) => {
            let scope = of_interface(Side::Exported, interface);
            used(alloc, names, &scope, use_, name)
        }
        Reading::Refused(refusal) => Ok(Reading::Refused(refusal)),
    }
}

/// What is of the exported interface of a label.
fn used_labelled(alloc: Global, names: &WorldNames, use_: Use, label: &str, name: &str) -> Meaning
    ensures { IfOk result (λ r. r ≡ used_of names.now use_
        (labelled names.now sides.Exported label.now) name.now) }
{
    let interface = labelled(alloc, names, Side::Exported, label)?;
    used_of(alloc, names, use_, interface, name)
}

fn used_split(alloc: Global, names: &WorldNames, use_: Use, name: &str) -> Meaning
    ensures { IfOk result (λ r. r ≡ used_split names.now use_ (split_once 35 name.now)) }
{
    match split_once(name, '#') {
        Some((label, function)) => used_labelled(alloc, names, use_, label, function),
        None => Ok(Reading::Nothing),
    }
}

#[tactic(auto, unfolding(crate::specs::ExportNames::used_name))]
fn used_name(alloc: Global, names: &WorldNames, use_: Use, name: &str) -> Meaning
    ensures { IfOk result (λ r. r ≡ used_name names.now use_ name.now) }
{
    either(
        used_of_root(alloc, names, use_, name),
        used_split(alloc, names, use_, name),
    )
}

fn used_name_if(alloc: Global, names: &WorldNames, use_: Use, name: Option<&str>) -> Meaning
    ensures { IfOk result (λ r. r ≡ used_name_if names.now use_ (option_copied name.entry)) }
{
    match name {
        Some(name) => used_name(alloc, names, use_, name),
        None => Ok(Reading::Nothing),
    }
}

fn used_name_after(
    alloc: Global,
    names: &WorldNames,
    use_: Use,
    prefix: &str,
    name: &str,
) -> Meaning
    ensures { IfOk result (λ r. r ≡ used_name_if names.now use_ (texts.after prefix.now name.now)) }
{
    used_name_if(alloc, names, use_, after(prefix, name))
}

fn destructor_of(alloc: Global, names: &WorldNames, label: &str, name: Option<&str>) -> Meaning
    ensures { IfOk result (λ r. r ≡ destructor_of names.now label.now (option_copied name.entry)) }
{
    match name {
        Some(name) => used_labelled(alloc, names, Use::Destructor, label, name),
        None => Ok(Reading::Nothing),
    }
}

fn destructor(alloc: Global, names: &WorldNames, name: &str) -> Meaning
    ensures { IfOk result (λ r. r ≡ destructor names.now (split_once 35 name.now)) }
{
    match split_once(name, '#') {
        Some((label, rest)) => destructor_of(alloc, names, label, after("[dtor]", rest)),
        None => Ok(Reading::Nothing),
    }
}

fn called_name(alloc: Global, names: &WorldNames, name: &str) -> Meaning
    ensures { IfOk result (λ r. r ≡ called_name names.now name.now) }
{
    let callback = Use::Called(AbiVariant::GuestExportAsync);
    let stackful = Use::Called(AbiVariant::GuestExportAsyncStackful);
    any_of_three(
        used_name(alloc, names, Use::Called(AbiVariant::GuestExport), name),
        used_name_after(alloc, names, callback, "[async-lift]", name),
        used_name_after(alloc, names, stackful, "[async-lift-stackful]", name),
    )
}

fn helper_name(alloc: Global, names: &WorldNames, name: &str) -> Meaning
    ensures { IfOk result (λ r. r ≡ helper_name names.now name.now) }
{
    any_of_three(
        used_name_after(alloc, names, Use::PostReturn, "cabi_post_", name),
        used_name_after(alloc, names, Use::Callback, "[callback][async-lift]", name),
        destructor(alloc, names, name),
    )
}

#[tactic(auto, unfolding(crate::specs::ExportNames::older_function))]
fn older_function(alloc: Global, names: &WorldNames, name: &str) -> Meaning
    ensures { IfOk result (λ r. r ≡ older_function names.now name.now) }
{
    any_of_three(
        older_plain_role(name),
        called_name(alloc, names, name),
        helper_name(alloc, names, name),
    )
}

// ---- the standard form

fn standard_plain(name: &str) -> Option<PlainExport>
    ensures { result ≡ standard_plain name.now }
{
    match name {
        "cm32p2_realloc" => Some(PlainExport::Realloc),
        "cm32p2_initialize" => Some(PlainExport::Initialize),
        _ => None,
    }
}

fn standard_plain_role(name: &str) -> Meaning
    ensures { IfOk result (λ r. r ≡ as_plain (standard_plain name.now)) }
{
    as_plain(standard_plain(name))
}

#[tactic(auto, unfolding(crate::specs::ExportNames::standard_in))]
fn standard_in(alloc: Global, names: &WorldNames, scope: &Scope, name: &str) -> Meaning
    ensures { IfOk result (λ r. r ≡ standard_in names.now scope.now name.now) }
{
    let called = Use::Called(AbiVariant::GuestExport);
    any_of_three(
        used(alloc, names, scope, called, name),
        used_before(alloc, names, scope, Use::PostReturn, "_post", name),
        used_before(alloc, names, scope, Use::Destructor, "_dtor", name),
    )
}

fn standard_of(
    alloc: Global,
    names: &WorldNames,
    interface: Reading<InterfaceName>,
    name: &str,
) -> Meaning
    ensures { IfOk result (λ r. r ≡ standard_of names.now interface name.now) }
{
    match interface {
        Reading::Nothing => Ok(Reading::Nothing),
        Reading::Means(interface) => {
            let scope = of_interface(Side::Exported, interface);
            standard_in(alloc, names, &scope, name)
        }
        Reading::Refused(refusal) => Ok(Reading::Refused(refusal)),
    }
}

fn standard_labelled(alloc: Global, names: &WorldNames, label: &str, name: &str) -> Meaning
    ensures { IfOk result (λ r. r ≡ standard_labelled names.now label.now name.now) }
{
    if label.is_empty() {
        let scope = root(Side::Exported);
        return standard_in(alloc, names, &scope, name);
    }
    let interface = canonical_label(alloc, names, Side::Exported, label)?;
    standard_of(alloc, names, interface, name)
}

fn standard_split(alloc: Global, names: &WorldNames, text: &str) -> Meaning
    ensures { IfOk result (λ r. r ≡ standard_split names.now (split_once 124 text.now)) }
{
    match split_once(text, '|') {
        Some((label, name)) => standard_labelled(alloc, names, label, name),
        None => Ok(Reading::Nothing),
    }
}

fn standard_item(alloc: Global, names: &WorldNames, name: &str) -> Meaning
    ensures { IfOk result (λ r. r ≡ standard_item names.now name.now) }
{
    match after("cm32p2|", name) {
        Some(rest) => standard_split(alloc, names, rest),
        None => Ok(Reading::Nothing),
    }
}

#[tactic(auto, unfolding(crate::specs::ExportNames::standard_function))]
fn standard_function(alloc: Global, names: &WorldNames, name: &str) -> Meaning
    ensures { IfOk result (λ r. r ≡ standard_function names.now name.now) }
{
    either(standard_plain_role(name), standard_item(alloc, names, name))
}

// ---- all of it

fn older_if(alloc: Global, names: &WorldNames, rejects_older: bool, name: &str) -> Meaning
    ensures { IfOk result (λ r. r ≡ older_if names.now rejects_older name.now) }
{
    if rejects_older {
        Ok(Reading::Nothing)
    } else {
        older_function(alloc, names, name)
    }
}

fn memory_named(rejects_older: bool, name: &str) -> Reading<ExportRole>
    ensures { result ≡ memory_named rejects_older name.now }
{
    if name == "cm32p2_memory" || (!rejects_older && name == "memory") {
        Reading::Means(ExportRole::Plain(PlainExport::Memory))
    } else {
        Reading::Nothing
    }
}

fn function_export(alloc: Global, names: &WorldNames, rejects_older: bool, name: &str) -> Meaning
    ensures { IfOk result (λ r. r ≡ function_export names.now rejects_older name.now) }
{
    either(
        standard_function(alloc, names, name),
        older_if(alloc, names, rejects_older, name),
    )
}

fn export_of_kind(
    alloc: Global,
    names: &WorldNames,
    rejects_older: bool,
    kind: ExportKind,
    name: &str,
) -> Meaning
    ensures { IfOk result (λ r. r ≡ export_of_kind names.now rejects_older kind name.now) }
{
    match kind {
        ExportKind::Func => function_export(alloc, names, rejects_older, name),
        ExportKind::Memory => Ok(memory_named(rejects_older, name)),
        ExportKind::Table => Ok(Reading::Nothing),
        ExportKind::Global => Ok(Reading::Nothing),
    }
}

#[tactic(auto, unfolding(crate::specs::ExportNames::is_wide))]
fn is_wide(name: &str) -> bool
    ensures { result ≡ is_wide name.now }
{
    after("cm64p2|", name).is_some() || after("cm64p2_", name).is_some()
}

/// What the name of a core export of this kind means in a world (component model, build targets). Where the
/// older form is rejected, its names mean nothing. The only error is out of memory.
#[tactic(auto, unfolding(crate::specs::ExportNames::export_role))]
pub fn export_role(
    alloc: Global,
    names: &WorldNames,
    rejects_older: bool,
    kind: ExportKind,
    name: &str,
) -> Result<Reading<ExportRole>, AllocError>
    ensures { IfOk result (λ r. r ≡ export_role names.now rejects_older kind name.now) }
{
    if is_wide(name) {
        return Ok(Reading::Refused(Refusal::WideMemory));
    }
    export_of_kind(alloc, names, rejects_older, kind, name)
}

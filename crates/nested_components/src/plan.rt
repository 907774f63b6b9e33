//! The names of the imports of a nested component, which are chosen before anything is imported:
//! those of the functions of the interface, those of the types of other interfaces of which it is
//! made, and then those of the resources that it lists.

ghost use Rattle.std.specs.Prelude.{◌≡◌, ◌<◌, length, Some, IsSome, IfOk, OnOk};
ghost use Rattle.std.specs.List.{AllByRecursion, IsDistinct};
ghost use Rattle.std.specs.Map.{keys_of};
ghost use Rattle.std.specs.Str.{bytes_eq};
ghost use Rattle.wit_data.specs.Sound.{IsSound, HasFunction};
ghost use Rattle.wit_types.specs.Settings.{name_at};
ghost use Rattle.nested_components.specs.Types.{IsAtHome};
ghost use Rattle.nested_components.specs.Planning.{HasName, PlansType, PlansTypes, IsPlan};

use crate::names::{choose_names, free_type_name};
use crate::resources::own_resources;
use crate::type_import::TypeImport;
use comp_lists::{Keyed, Seq, Text};
use foreign_types::all_foreign_types;
use std::alloc::{AllocError, Global};
use wit_data::{Function, InterfaceId, Resolve, TypeId};

/// The names of the imports of functions, in the order of the functions, of types of other
/// interfaces, and of the resources of the interface, in the order in which they are imported.
pub(crate) struct ImportNames {
    pub(crate) functions: Seq<Text>,
    pub(crate) foreign: Seq<TypeImport>,
    pub(crate) resources: Seq<TypeImport>,
}

impl Drop for ImportNames {
    fn drop(self) {
        let ImportNames {
            functions: _,
            foreign: _,
            resources: _,
        } = self;
    }
}

impl ImportNames {
    /// The names of the imports of functions.
    pub(crate) fn into_functions(self) -> Seq<Text>
        ensures { result ≡ self.functions }
    {
        let ImportNames {
            functions,
            foreign: _,
            resources: _,
        } = self;
        functions
    }
}

/// The names of imports, and the table of names that are taken, which has these.
pub(crate) struct Plan {
    pub(crate) names: ImportNames,
    pub(crate) taken: Keyed<Text, Option<TypeId>>,
}

impl Drop for Plan {
    fn drop(self) {
        let Plan { names: _, taken: _ } = self;
    }
}

impl Plan {
    /// The names, and the table.
    pub(crate) fn into_parts(self) -> (ImportNames, Keyed<Text, Option<TypeId>>)
        ensures names { result.0 ≡ self.names }
        ensures taken { result.1 ≡ self.taken }
    {
        let Plan { names, taken } = self;
        (names, taken)
    }
}

/// The name of a type that has one.
fn name_of(resolve: &Resolve, id: TypeId) -> &Text
    requires present { id.index < length resolve.now.types }
    requires named { IsSome (name_at resolve.now.types id.index) }
    ensures { name_at resolve.now.types id.index ≡ Some result.now }
{
    match &resolve.types.as_slice()[id.index].name {
        Some(name) => name,
        None => unreachable!(),
    }
}

/// Chooses the name of the import of one type more, and takes it.
fn add_type_name(
    alloc: Global,
    resolve: &Resolve,
    taken: &mut Keyed<Text, Option<TypeId>>,
    imports: &mut Seq<TypeImport>,
    id: TypeId,
) -> Result<(), AllocError>
    requires named { HasName resolve.now.types id }
    ensures { OnOk result
        (PlansType resolve.now.types taken.old taken.new imports.old imports.new id) }
{
    let name = free_type_name(alloc, taken, name_of(resolve, id))?;
    let key = name.clone(alloc)?;
    imports.push(TypeImport { name, id })?;
    taken.insert(key, Some(id))
}

/// Chooses the names of the imports of these types, in their order, and takes them.
fn choose_type_names(
    alloc: Global,
    resolve: &Resolve,
    taken: &mut Keyed<Text, Option<TypeId>>,
    ids: &[TypeId],
) -> Result<Seq<TypeImport>, AllocError>
    requires named { AllByRecursion (HasName resolve.now.types) ids.now }
    ensures { IfOk result (PlansTypes resolve.now.types taken.old taken.new ids.now) }
{
    let mut imports = Seq::new(alloc);
    for id in ids {
        add_type_name(alloc, resolve, taken, &mut imports, *id)?;
    }
    Ok(imports)
}

/// No name is taken twice.
pub(crate) fn taken_apart(taken: &Keyed<Text, Option<TypeId>>)
    ensures { IsDistinct bytes_eq (keys_of taken.now) }
{
    let _ = taken.iter();
}

/// Chooses the names of the imports of an interface that lists these types and has these functions.
pub(crate) fn plan_imports(
    alloc: Global,
    resolve: &Resolve,
    interface: InterfaceId,
    types: &Keyed<Text, TypeId>,
    functions: &Keyed<Text, Function>,
) -> Result<Plan, AllocError>
    requires sound { IsSound resolve.now }
    requires present { AllByRecursion (λ e. HasFunction resolve.now e.1) functions.now }
    requires home { IsAtHome resolve.now.types interface types.now functions.now }
    ensures { IfOk result
        (λ plan. IsPlan resolve.now.types interface types.now functions.now plan.names plan.taken) }
{
    let ids = all_foreign_types(alloc, resolve, interface, types, functions)?;
    let own = own_resources(alloc, resolve, types)?;
    let chosen = choose_names(alloc, functions)?;
    let (names, mut taken) = chosen.into_parts();
    let foreign = choose_type_names(alloc, resolve, &mut taken, ids.as_slice())?;
    let resources = choose_type_names(alloc, resolve, &mut taken, own.as_slice())?;
    taken_apart(&taken);
    Ok(Plan {
        names: ImportNames {
            functions: names,
            foreign,
            resources,
        },
        taken,
    })
}

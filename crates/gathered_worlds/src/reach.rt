//! Which exports of other modules each module of a world may import.

ghost use Rattle.std.specs.Prelude.{◌≡◌, ◌++◌, ◌∷◌, [], None, IfOk, OnOk};
ghost use Rattle.std.specs.Map.{lookup};
ghost use Rattle.std.specs.Str.{bytes_eq};
ghost use Rattle.gathered_worlds.specs.Reach.{names_of, reach_of, others_for};

use comp_lists::{Keyed, Text};
use comp_roles::LibraryInfo;
use record_imports::OtherModules;
use record_merge::Bindgen;
use std::alloc::{AllocError, Global};
use world_values::GatheredAdapter;

/// What main, an adapter that is no library, and a library may import from other modules.
#[derive(Drop)]
pub(crate) struct Reach {
    pub main: OtherModules,
    pub adapter: OtherModules,
    pub library: OtherModules,
}

fn add_name(alloc: Global, names: &mut Keyed<Text, ()>, name: &Text) -> Result<(), AllocError>
    requires { lookup (bytes_eq name.now) names.old ≡ None }
    ensures { OnOk result (names.new ≡ names.old ++ (name.now, tt) ∷ []) }
{
    let name = name.clone(alloc)?;
    names.insert(name, ())?;
    Ok(())
}

/// The names of all adapters.
#[tactic(auto, using(crate::proofs::Names::start, crate::proofs::Names::step, crate::proofs::Names::end, crate::proofs::Names::is_new))]
fn names_of(
    alloc: Global,
    adapters: &Keyed<Text, GatheredAdapter<Bindgen>>,
) -> Result<Keyed<Text, ()>, AllocError>
    ensures { IfOk result (λ names. names ≡ names_of adapters.now) }
{
    let mut names = Keyed::new(alloc);
    for (name, _) in adapters.iter() {
        add_name(alloc, &mut names, name)?;
    }
    Ok(names)
}

/// What the modules may import where these adapters are there. Main may import functions of all of
/// them, a library what main exports as well, and an adapter that is no library only what main
/// exports.
pub(crate) fn reach_of(
    alloc: Global,
    adapters: &Keyed<Text, GatheredAdapter<Bindgen>>,
) -> Result<Reach, AllocError>
    ensures { IfOk result (λ reach. reach ≡ reach_of adapters.now) }
{
    let for_main = names_of(alloc, adapters)?;
    let for_libraries = names_of(alloc, adapters)?;
    Ok(Reach {
        main: OtherModules {
            has_main: false,
            adapters: for_main,
        },
        adapter: OtherModules {
            has_main: true,
            adapters: Keyed::new(alloc),
        },
        library: OtherModules {
            has_main: true,
            adapters: for_libraries,
        },
    })
}

/// That of an adapter.
pub(crate) fn others_for<'a>(reach: &'a Reach, info: &Option<LibraryInfo>) -> &'a OtherModules
    ensures { result.now ≡ others_for reach.now info.now }
{
    match info {
        Some(_) => &reach.library,
        None => &reach.adapter,
    }
}

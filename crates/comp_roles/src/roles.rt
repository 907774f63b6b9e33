//! The roles that exports of a core module are looked up by.

ghost use Rattle.std.specs.Prelude.{◌≡◌};
ghost use Rattle.std.specs.Option.{option_copied};
ghost use Rattle.comp_roles.specs.Lookups.{first_export};

use crate::exports::Export;
use comp_lists::{Keyed, Text};
use wit_data::{TypeId, WorldKey};

/// A role that an export may have.
pub(crate) trait Role {
    ghost use Rattle.std.specs.Prelude.{Bool};
    ghost use Rattle.comp_roles.specs.declared.exports.Export.{Export};

    ghost matching: { Self → Export → Bool };

    fn is(&self, export: &Export) -> bool
        ensures { result ≡ matching self.now export.now };
}

/// The name of the first export with this role.
pub(crate) fn first<'a, R: Role>(exports: &'a Keyed<Text, Export>, role: &R) -> Option<&'a str>
    ensures { option_copied result ≡ first_export (R.matching role.now) exports.now }
{
    for (name, export) in exports.iter() {
        if role.is(export) {
            return Some(name.as_str());
        }
    }
    None
}

/// The function that is called once all modules are linked.
#[derive(Clone, Copy)]
pub(crate) struct Initialize;

impl Role for Initialize {
    ghost use Rattle.comp_roles.specs.Lookups.{is_initialize};

    ghost matching = { λ role. is_initialize };

    fn is(&self, export: &Export) -> bool {
        matches!(export, Export::Initialize)
    }
}

/// The function that is called at the beginning and the end of each task.
#[derive(Clone, Copy)]
pub(crate) struct TaskHook;

impl Role for TaskHook {
    ghost use Rattle.comp_roles.specs.Lookups.{is_task_hook};

    ghost matching = { λ role. is_task_hook };

    fn is(&self, export: &Export) -> bool {
        matches!(export, Export::WasmTaskHook)
    }
}

/// The realloc of all calls that have none of their own.
#[derive(Clone, Copy)]
pub(crate) struct GeneralRealloc;

impl Role for GeneralRealloc {
    ghost use Rattle.comp_roles.specs.Reallocs.{is_general_realloc};

    ghost matching = { λ role. is_general_realloc };

    fn is(&self, export: &Export) -> bool {
        matches!(export, Export::GeneralPurposeRealloc)
    }
}

/// The realloc of all calls of imports.
#[derive(Clone, Copy)]
pub(crate) struct ImportRealloc;

impl Role for ImportRealloc {
    ghost use Rattle.comp_roles.specs.Reallocs.{is_import_realloc};

    ghost matching = { λ role. is_import_realloc };

    fn is(&self, export: &Export) -> bool {
        matches!(export, Export::GeneralPurposeImportRealloc)
    }
}

/// The realloc of all calls of exports.
#[derive(Clone, Copy)]
pub(crate) struct ExportRealloc;

impl Role for ExportRealloc {
    ghost use Rattle.comp_roles.specs.Reallocs.{is_export_realloc};

    ghost matching = { λ role. is_export_realloc };

    fn is(&self, export: &Export) -> bool {
        matches!(export, Export::GeneralPurposeExportRealloc)
    }
}

/// The post-return of the function of a name at a key.
#[derive(Clone, Copy)]
pub(crate) struct PostReturn<'a> {
    pub key: &'a WorldKey,
    pub function: &'a str,
}

impl Role for PostReturn<'_> {
    ghost use Rattle.comp_roles.specs.FunctionExports.{is_post_return};

    ghost matching = { λ role. is_post_return role.key.now role.function.now };

    fn is(&self, export: &Export) -> bool {
        match export {
            Export::WorldFuncPostReturn(key) => self.key == key,
            Export::InterfaceFuncPostReturn(key, name) => {
                self.key == key && self.function == name.as_str()
            }
            _ => false,
        }
    }
}

/// The callback of the function of a name at a key.
#[derive(Clone, Copy)]
pub(crate) struct Callback<'a> {
    pub key: &'a WorldKey,
    pub function: &'a str,
}

impl Role for Callback<'_> {
    ghost use Rattle.comp_roles.specs.FunctionExports.{is_callback};

    ghost matching = { λ role. is_callback role.key.now role.function.now };

    fn is(&self, export: &Export) -> bool {
        match export {
            Export::WorldFuncCallback(key) => self.key == key,
            Export::InterfaceFuncCallback(key, name) => {
                self.key == key && self.function == name.as_str()
            }
            _ => false,
        }
    }
}

/// The destructor of a resource.
#[derive(Clone, Copy)]
pub(crate) struct Destructor {
    pub resource: TypeId,
}

impl Role for Destructor {
    ghost use Rattle.comp_roles.specs.FunctionExports.{is_dtor};

    ghost matching = { λ role. is_dtor role.resource };

    fn is(&self, export: &Export) -> bool {
        match export {
            Export::ResourceDtor(id) => self.resource.index == id.index,
            _ => false,
        }
    }
}

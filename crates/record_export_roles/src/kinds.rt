//! The kinds of roles of core exports, by their names.

ghost use Rattle.std.specs.Prelude.{◌≡◌};
ghost use Rattle.record_export_roles.specs.Kinds.{plain_from, export_from};

use record_values::PlainExport;

/// A kind of export role.
#[derive(Clone, Copy, PartialEq, Eq)]
pub(crate) enum ExportRoleKind {
    WorldFunc,
    InterfaceFunc,
    WorldPostReturn,
    WorldCallback,
    InterfacePostReturn,
    InterfaceCallback,
    Destructor,
    Plain(PlainExport),
}

fn plain(name: &str) -> Option<PlainExport>
    ensures { result ≡ plain_from name.now }
{
    match name {
        "memory" => Some(PlainExport::Memory),
        "realloc" => Some(PlainExport::Realloc),
        "import-realloc" => Some(PlainExport::ImportRealloc),
        "export-realloc" => Some(PlainExport::ExportRealloc),
        "adapter-realloc" => Some(PlainExport::AdapterRealloc),
        "initialize" => Some(PlainExport::Initialize),
        "task-hook" => Some(PlainExport::TaskHook),
        _ => None,
    }
}

/// The kind of export role of this name.
#[tactic(auto, unfolding(crate::specs::Kinds::export_from))]
pub(crate) fn export_kind(name: &str) -> Option<ExportRoleKind>
    ensures { result ≡ export_from name.now }
{
    match name {
        "world-func" => Some(ExportRoleKind::WorldFunc),
        "interface-func" => Some(ExportRoleKind::InterfaceFunc),
        "world-post-return" => Some(ExportRoleKind::WorldPostReturn),
        "world-callback" => Some(ExportRoleKind::WorldCallback),
        "interface-post-return" => Some(ExportRoleKind::InterfacePostReturn),
        "interface-callback" => Some(ExportRoleKind::InterfaceCallback),
        "dtor" => Some(ExportRoleKind::Destructor),
        _ => match plain(name) {
            Some(export) => Some(ExportRoleKind::Plain(export)),
            None => None,
        },
    }
}

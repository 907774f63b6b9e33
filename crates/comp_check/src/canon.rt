//! The items that intrinsics name.

ghost use Rattle.std.specs.Prelude.{◌≡◌, ◌∷◌, ◌++◌, [], List};
ghost use Rattle.comp_bytes.specs.References.{where_some, value_references, options_references, intrinsic_references, type_at};
ghost use Rattle.comp_check.specs.Lacking.{lacking, Finds};

use crate::refers::{check_each, check_optional};
use crate::scope::{Lack, Scopes};
use comp_bytes::{CanonicalOption, ComponentValType, Intrinsic, Space};

#[tactic(auto, using(crate::proofs::Lacks::chained))]
fn check_result_and_options(
    scopes: &Scopes,
    ty: &Option<ComponentValType>,
    options: &[CanonicalOption],
) -> Result<(), Lack>
    ensures { Finds result (lacking scopes.now
        (where_some value_references ty.now ++ options_references options.now)) }
{
    check_optional(scopes, ty)?;
    check_each(scopes, options)
}

#[tactic(auto, using(crate::proofs::Lacks::chained))]
fn check_type_and_options(scopes: &Scopes, ty: u32, options: &[CanonicalOption]) -> Result<(), Lack>
    ensures { Finds result (lacking scopes.now (type_at ty ++ options_references options.now)) }
{
    scopes.check(Space::Type, ty)?;
    check_each(scopes, options)
}

/// Whether the items that an intrinsic names exist.
#[tactic(auto, unfolding(crate::specs::Lacking::lacking))]
pub(crate) fn check_intrinsic(scopes: &Scopes, intrinsic: &Intrinsic) -> Result<(), Lack>
    ensures { Finds result (lacking scopes.now (intrinsic_references intrinsic.now)) }
{
    match intrinsic {
        Intrinsic::ResourceNew(ty)
        | Intrinsic::ResourceDrop(ty)
        | Intrinsic::ResourceRep(ty)
        | Intrinsic::StreamNew(ty)
        | Intrinsic::StreamCancelRead { ty, .. }
        | Intrinsic::StreamCancelWrite { ty, .. }
        | Intrinsic::StreamDropReadable(ty)
        | Intrinsic::StreamDropWritable(ty)
        | Intrinsic::FutureNew(ty)
        | Intrinsic::FutureCancelRead { ty, .. }
        | Intrinsic::FutureCancelWrite { ty, .. }
        | Intrinsic::FutureDropReadable(ty)
        | Intrinsic::FutureDropWritable(ty) => scopes.check(Space::Type, *ty),
        Intrinsic::TaskReturn { result, options } => {
            check_result_and_options(scopes, result, options.as_slice())
        }
        Intrinsic::StreamRead { ty, options }
        | Intrinsic::StreamWrite { ty, options }
        | Intrinsic::FutureRead { ty, options }
        | Intrinsic::FutureWrite { ty, options } => {
            check_type_and_options(scopes, *ty, options.as_slice())
        }
        Intrinsic::ErrorContextNew { options } | Intrinsic::ErrorContextDebugMessage { options } =>
            check_each(scopes, options.as_slice()),
        Intrinsic::WaitableSetWait { memory } | Intrinsic::WaitableSetPoll { memory } => {
            scopes.check(Space::CoreMemory, *memory)
        }
        Intrinsic::TaskCancel
        | Intrinsic::SubtaskCancel { .. }
        | Intrinsic::ContextGet { .. }
        | Intrinsic::ContextSet { .. }
        | Intrinsic::SubtaskDrop
        | Intrinsic::ErrorContextDrop
        | Intrinsic::WaitableSetNew
        | Intrinsic::WaitableSetDrop
        | Intrinsic::WaitableJoin
        | Intrinsic::BackpressureInc
        | Intrinsic::BackpressureDec => Ok(()),
    }
}

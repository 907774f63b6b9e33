//! The built-in functions of streams and futures, by roles.

ghost use Rattle.std.specs.Prelude.{◌≡◌};
ghost use Rattle.std.specs.Option.{option_copied};
ghost use Rattle.built_ins.specs.Payloads.{called_payload, intrinsic_called, is_access};

use comp_bytes::Intrinsic;
use comp_roles::{Import, PayloadInfo};

/// The stream or the future of an import of this role, if it is given a built-in function of one
/// (Canonical ABI: `canon stream.new` and its neighbours).
pub fn called_payload(role: &Import) -> Option<&PayloadInfo>
    ensures { option_copied result ≡ called_payload role.now }
{
    match role {
        Import::StreamNew(info)
        | Import::StreamDropReadable(info)
        | Import::StreamDropWritable(info)
        | Import::FutureNew(info)
        | Import::FutureDropReadable(info)
        | Import::FutureDropWritable(info) => Some(info),
        Import::StreamRead { info, .. }
        | Import::StreamWrite { info, .. }
        | Import::StreamCancelRead { info, .. }
        | Import::StreamCancelWrite { info, .. }
        | Import::FutureRead { info, .. }
        | Import::FutureWrite { info, .. }
        | Import::FutureCancelRead { info, .. }
        | Import::FutureCancelWrite { info, .. } => Some(info),
        _ => None,
    }
}

/// Whether that reads or writes elements, which has options.
pub fn is_access(role: &Import) -> bool
    ensures { result ≡ is_access role.now }
{
    match role {
        Import::StreamRead { .. }
        | Import::StreamWrite { .. }
        | Import::FutureRead { .. }
        | Import::FutureWrite { .. } => true,
        _ => false,
    }
}

/// A function without options, where its type has this index.
pub fn payload_intrinsic(role: &Import, ty: u32) -> Option<Intrinsic>
    ensures { result ≡ intrinsic_called ty role.now }
{
    match role {
        Import::StreamNew(_) => Some(Intrinsic::StreamNew(ty)),
        Import::StreamCancelRead { async_, .. } => Some(Intrinsic::StreamCancelRead {
            ty,
            async_: *async_,
        }),
        Import::StreamCancelWrite { async_, .. } => Some(Intrinsic::StreamCancelWrite {
            ty,
            async_: *async_,
        }),
        Import::StreamDropReadable(_) => Some(Intrinsic::StreamDropReadable(ty)),
        Import::StreamDropWritable(_) => Some(Intrinsic::StreamDropWritable(ty)),
        Import::FutureNew(_) => Some(Intrinsic::FutureNew(ty)),
        Import::FutureCancelRead { async_, .. } => Some(Intrinsic::FutureCancelRead {
            ty,
            async_: *async_,
        }),
        Import::FutureCancelWrite { async_, .. } => Some(Intrinsic::FutureCancelWrite {
            ty,
            async_: *async_,
        }),
        Import::FutureDropReadable(_) => Some(Intrinsic::FutureDropReadable(ty)),
        Import::FutureDropWritable(_) => Some(Intrinsic::FutureDropWritable(ty)),
        _ => None,
    }
}

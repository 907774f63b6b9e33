//! Copies of kinds.

ghost use Rattle.std.specs.Prelude.{◌≡◌, IfOk};
ghost use Rattle.shim_plan.specs.declared.kinds.ShimKind.TheVariants as kinds;

use crate::kinds::ShimKind;
use comp_lists::{Text, TryClone};
use comp_roles::{MainOrAdapter, PayloadFuncKind, PayloadInfo, PayloadType};
use comp_worlds::LoweringKey;
use standard_kinds::StringEncoding;
use std::alloc::{AllocError, Global};
use wit_data::{InterfaceId, Type, WorldKey};

fn copy_function(alloc: Global, function: &LoweringKey) -> Result<LoweringKey, AllocError>
    ensures { IfOk result (λ copy. copy ≡ function.now) }
{
    Ok(LoweringKey {
        name: function.name.clone(alloc)?,
        abi: function.abi,
    })
}

fn copy_payload_type(alloc: Global, ty: &PayloadType) -> Result<PayloadType, AllocError>
    ensures { IfOk result (λ copy. copy ≡ ty.now) }
{
    match ty {
        PayloadType::Typed { id, function } => {
            let function = function.clone(alloc)?;
            Ok(PayloadType::Typed { id: *id, function })
        }
        PayloadType::UnitFuture => Ok(PayloadType::UnitFuture),
        PayloadType::UnitStream => Ok(PayloadType::UnitStream),
    }
}

fn copy_payload(alloc: Global, info: &PayloadInfo) -> Result<PayloadInfo, AllocError>
    ensures { IfOk result (λ copy. copy ≡ info.now) }
{
    let name = info.name.clone(alloc)?;
    let ty = copy_payload_type(alloc, &info.ty)?;
    let key = info.key.try_clone(alloc)?;
    Ok(PayloadInfo {
        name,
        ty,
        key,
        interface: info.interface,
        imported: info.imported,
    })
}

/// The kind of a lowering through a table.
pub(crate) fn copy_lowering(
    alloc: Global,
    interface: &Option<WorldKey>,
    function: &LoweringKey,
    realloc: &MainOrAdapter,
    encoding: StringEncoding,
) -> Result<ShimKind, AllocError>
    ensures { IfOk result
        (λ copy. copy ≡ kinds.IndirectLowering interface.now function.now realloc.now encoding) }
{
    let interface = interface.try_clone(alloc)?;
    let function = copy_function(alloc, function)?;
    let realloc = realloc.clone(alloc)?;
    Ok(ShimKind::IndirectLowering {
        interface,
        function,
        realloc,
        encoding,
    })
}

fn copy_adapter(alloc: Global, adapter: &Text, func: &Text) -> Result<ShimKind, AllocError>
    ensures { IfOk result (λ copy. copy ≡ kinds.Adapter adapter.now func.now) }
{
    let adapter = adapter.clone(alloc)?;
    let func = func.clone(alloc)?;
    Ok(ShimKind::Adapter { adapter, func })
}

fn copy_dtor(alloc: Global, module: &MainOrAdapter, export: &Text) -> Result<ShimKind, AllocError>
    ensures { IfOk result (λ copy. copy ≡ kinds.ResourceDtor «module».now export.now) }
{
    let module = module.clone(alloc)?;
    let export = export.clone(alloc)?;
    Ok(ShimKind::ResourceDtor { module, export })
}

fn copy_realloc(
    alloc: Global,
    module: &MainOrAdapter,
    export: &Text,
) -> Result<ShimKind, AllocError>
    ensures { IfOk result (λ copy. copy ≡ kinds.Realloc «module».now export.now) }
{
    let module = module.clone(alloc)?;
    let export = export.clone(alloc)?;
    Ok(ShimKind::Realloc { module, export })
}

/// The kind of a read or a write.
pub(crate) fn copy_payload_func(
    alloc: Global,
    for_module: &MainOrAdapter,
    info: &PayloadInfo,
    kind: PayloadFuncKind,
    async_: bool,
) -> Result<ShimKind, AllocError>
    ensures { IfOk result (λ copy. copy ≡ kinds.PayloadFunc for_module.now info.now kind async_) }
{
    let for_module = for_module.clone(alloc)?;
    let info = copy_payload(alloc, info)?;
    Ok(ShimKind::PayloadFunc {
        for_module,
        info,
        kind,
        async_,
    })
}

/// The kind of a return from a function that the world exports.
pub(crate) fn copy_task_return(
    alloc: Global,
    interface: Option<InterfaceId>,
    func: &Text,
    returned: Option<Type>,
    for_module: &MainOrAdapter,
    encoding: StringEncoding,
) -> Result<ShimKind, AllocError>
    ensures { IfOk result
        (λ copy. copy ≡ kinds.TaskReturn interface func.now returned for_module.now encoding) }
{
    let func = func.clone(alloc)?;
    let for_module = for_module.clone(alloc)?;
    Ok(ShimKind::TaskReturn {
        interface,
        func,
        result: returned,
        for_module,
        encoding,
    })
}

/// The kind of the debug message of an error context.
pub(crate) fn copy_debug_message(
    alloc: Global,
    for_module: &MainOrAdapter,
    encoding: StringEncoding,
) -> Result<ShimKind, AllocError>
    ensures { IfOk result (λ copy. copy ≡ kinds.ErrorContextDebugMessage for_module.now encoding) }
{
    let for_module = for_module.clone(alloc)?;
    Ok(ShimKind::ErrorContextDebugMessage {
        for_module,
        encoding,
    })
}

impl ShimKind {
    /// An equal kind, memory allowing.
    pub fn clone(&self, alloc: Global) -> Result<ShimKind, AllocError>
        ensures { IfOk result (λ copy. copy ≡ self.now) }
    {
        match self {
            ShimKind::IndirectLowering {
                interface,
                function,
                realloc,
                encoding,
            } => copy_lowering(alloc, interface, function, realloc, *encoding),
            ShimKind::Adapter { adapter, func } => copy_adapter(alloc, adapter, func),
            ShimKind::ResourceDtor { module, export } => copy_dtor(alloc, module, export),
            ShimKind::PayloadFunc {
                for_module,
                info,
                kind,
                async_,
            } => copy_payload_func(alloc, for_module, info, *kind, *async_),
            ShimKind::WaitableSetWait => Ok(ShimKind::WaitableSetWait),
            ShimKind::WaitableSetPoll => Ok(ShimKind::WaitableSetPoll),
            ShimKind::TaskReturn {
                interface,
                func,
                result,
                for_module,
                encoding,
            } => copy_task_return(alloc, *interface, func, *result, for_module, *encoding),
            ShimKind::ErrorContextNew { encoding } => Ok(ShimKind::ErrorContextNew {
                encoding: *encoding,
            }),
            ShimKind::ErrorContextDebugMessage {
                for_module,
                encoding,
            } => copy_debug_message(alloc, for_module, *encoding),
            ShimKind::Realloc { module, export } => copy_realloc(alloc, module, export),
        }
    }
}

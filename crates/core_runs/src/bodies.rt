//! The bodies of shims, stubs, wrappers, start functions and thread-local cells.
//!
//! Core standard, structure: functions, instructions. Each call returns the value of
//! `specs/Bodies.antt`, and fails only with out of memory.

ghost use Rattle.std.specs.Prelude.{◌≡◌, ◌∷◌, ◌++◌, [], map, flat_map, IfOk, OnOk};
ghost use Rattle.core_runs.specs.Bodies as bodies;
ghost use Rattle.core_runs.specs.Shims.{ShimBySlot, ShimByGlobal};
ghost use Rattle.core_runs.specs.Wrappers.{WrapperOf};

use crate::bracket::{AfterHook, Bracket, TaskHook};
use crate::start::{GlobalFill, StartStep};
use comp_lists::Seq;
use core_bytes::{Body, Instruction, LocalRun};
use core_types::ValType;
use std::alloc::{AllocError, Global};

/// A shim in the table form, of so many parameters: it calls, by a type index, the function in a slot of table 0.
/// Where the slot holds a function of that type, it acts as that function.
pub fn table_shim_body(
    alloc: Global,
    params: u32,
    position: u32,
    type_index: u32,
) -> Result<Body, AllocError>
    ensures exact { IfOk result (λ made. made ≡ bodies.table_shim params position type_index) }
    ensures forwards { IfOk result (λ made. ShimBySlot params made type_index position) }
{
    let mut code = Vec::new(alloc);
    put_gets(&mut code, params)?;
    put(&mut code, Instruction::I32Const(position.cast_signed()))?;
    put(
        &mut code,
        Instruction::CallIndirect {
            type_index,
            table: 0,
        },
    )?;
    Ok(plain(alloc, code))
}

/// A shim in the reference form, of so many parameters: it calls, by a type index, the function in a
/// global. Where the global holds a function of that type, it acts as that function.
pub fn ref_shim_body(
    alloc: Global,
    params: u32,
    global: u32,
    type_index: u32,
) -> Result<Body, AllocError>
    ensures exact { IfOk result (λ made. made ≡ bodies.ref_shim params global type_index) }
    ensures forwards { IfOk result (λ made. ShimByGlobal params made type_index global) }
{
    let mut code = Vec::new(alloc);
    put_gets(&mut code, params)?;
    put(&mut code, Instruction::GlobalGet(global))?;
    put(&mut code, Instruction::ReturnCallRef(type_index))?;
    Ok(plain(alloc, code))
}

/// The stub that a global of the reference form holds before it is filled: it traps.
pub fn stub_body(alloc: Global) -> Result<Body, AllocError>
    ensures { IfOk result (λ made. made ≡ bodies.stub) }
{
    let mut code = Vec::new(alloc);
    put(&mut code, Instruction::Unreachable)?;
    Ok(plain(alloc, code))
}

/// A wrapper of a function of so many parameters: it calls the hook, the function with all of its
/// arguments, and the hook again, as its bracket says, and returns the function's results. A bracket
/// that reads a code is for a function whose one result is an `i32`.
pub fn wrapper_body(
    alloc: Global,
    params: u32,
    bracket: Bracket,
    hook: u32,
    target: u32,
) -> Result<Body, AllocError>
    ensures exact { IfOk result (λ made. made ≡ bodies.wrapper params bracket hook target) }
    ensures wraps { IfOk result (λ made. WrapperOf params made bracket hook target) }
{
    let mut code = Vec::new(alloc);
    put_before(&mut code, hook, bracket.before)?;
    put_gets(&mut code, params)?;
    put(&mut code, Instruction::Call(target))?;
    put_after(&mut code, hook, bracket.after, params)?;
    let locals = wrapper_locals(alloc, bracket.after)?;
    Ok(Body {
        locals,
        instructions: Seq::from_vec(code),
    })
}

/// A start function: all fills first, and then the steps, each in order.
#[tactic(auto, using(crate::proofs::Growing::steps_joined))]
pub fn start_body(
    alloc: Global,
    fills: &[GlobalFill],
    steps: &[StartStep],
) -> Result<Body, AllocError>
    ensures { IfOk result
        (λ made. made ≡ bodies.start (map bodies.fill_step fills.now ++ steps.now)) }
{
    let mut code = Vec::new(alloc);
    put_fills(&mut code, fills)?;
    put_steps(&mut code, steps)?;
    Ok(plain(alloc, code))
}

/// The function that reads a thread-local cell, which is the global of this index.
pub fn tls_get_body(alloc: Global, cell: u32) -> Result<Body, AllocError>
    ensures { IfOk result (λ made. made ≡ bodies.tls_get cell) }
{
    let mut code = Vec::new(alloc);
    put(&mut code, Instruction::GlobalGet(cell))?;
    Ok(plain(alloc, code))
}

/// The function that sets a thread-local cell, which is the global of this index, to its one parameter.
pub fn tls_set_body(alloc: Global, cell: u32) -> Result<Body, AllocError>
    ensures { IfOk result (λ made. made ≡ bodies.tls_set cell) }
{
    let mut code = Vec::new(alloc);
    put(&mut code, Instruction::LocalGet(0))?;
    put(&mut code, Instruction::GlobalSet(cell))?;
    Ok(plain(alloc, code))
}

/// A body with no local variables.
fn plain(alloc: Global, code: Vec<Instruction>) -> Body
    ensures { result ≡ bodies.plain code.items }
{
    Body {
        locals: Seq::new(alloc),
        instructions: Seq::from_vec(code),
    }
}

/// One more instruction.
fn put(code: &mut Vec<Instruction>, instruction: Instruction) -> Result<(), AllocError>
    ensures { OnOk result (code.new.items ≡ code.old.items ++ instruction ∷ []) }
{
    code.push(instruction)?;
    Ok(())
}

/// The parameters, in order.
#[tactic(auto, using(crate::proofs::Growing::gets_more))]
fn put_gets(code: &mut Vec<Instruction>, count: u32) -> Result<(), AllocError>
    ensures { OnOk result (code.new.items ≡ code.old.items ++ bodies.gets count) }
{
    for position in 0..count {
        put(code, Instruction::LocalGet(position))?;
    }
    Ok(())
}

/// One call of the hook.
fn put_hook(code: &mut Vec<Instruction>, hook: u32, moment: TaskHook) -> Result<(), AllocError>
    ensures { OnOk result (code.new.items ≡ code.old.items ++ bodies.hook_call hook moment) }
{
    put(code, Instruction::I32Const(moment.number()))?;
    put(code, Instruction::Call(hook))
}

/// The call of the hook before, where there is one.
fn put_before(
    code: &mut Vec<Instruction>,
    hook: u32,
    before: Option<TaskHook>,
) -> Result<(), AllocError>
    ensures { OnOk result (code.new.items ≡ code.old.items ++ bodies.hook_calls hook before) }
{
    match before {
        None => Ok(()),
        Some(moment) => put_hook(code, hook, moment),
    }
}

/// What follows the call of a function of so many parameters.
fn put_after(
    code: &mut Vec<Instruction>,
    hook: u32,
    after: AfterHook,
    params: u32,
) -> Result<(), AllocError>
    ensures { OnOk result (code.new.items ≡ code.old.items ++ bodies.after_code hook after params) }
{
    match after {
        AfterHook::Nothing => Ok(()),
        AfterHook::Always(moment) => put_hook(code, hook, moment),
        AfterHook::ByStatus => {
            put(code, Instruction::LocalSet(params))?;
            put(code, Instruction::I32Const(TaskHook::AsyncBlock.number()))?;
            put(code, Instruction::I32Const(TaskHook::AsyncFinish.number()))?;
            put(code, Instruction::LocalGet(params))?;
            put(code, Instruction::Select)?;
            put(code, Instruction::Call(hook))?;
            put(code, Instruction::LocalGet(params))
        }
    }
}

/// The local variables of a wrapper: one for the code, where it is read.
fn wrapper_locals(alloc: Global, after: AfterHook) -> Result<Seq<LocalRun>, AllocError>
    ensures { IfOk result (λ runs. runs ≡ bodies.wrapper_locals after) }
{
    match after {
        AfterHook::Nothing => Ok(Seq::new(alloc)),
        AfterHook::Always(_) => Ok(Seq::new(alloc)),
        AfterHook::ByStatus => one_local(alloc),
    }
}

/// One local variable, an `i32`.
fn one_local(alloc: Global) -> Result<Seq<LocalRun>, AllocError>
    ensures { IfOk result (λ runs. runs ≡ bodies.one_local) }
{
    let mut runs = Vec::new(alloc);
    runs.push(LocalRun {
        count: 1,
        val_type: ValType::I32,
    })?;
    Ok(Seq::from_vec(runs))
}

/// The sum of two globals.
fn put_sum(code: &mut Vec<Instruction>, base: u32, offset: u32) -> Result<(), AllocError>
    ensures { OnOk result (code.new.items ≡ code.old.items ++ bodies.sum_code base offset) }
{
    put(code, Instruction::GlobalGet(base))?;
    put(code, Instruction::GlobalGet(offset))?;
    put(code, Instruction::I32Add)
}

/// The fills of a start function, in order.
fn put_fills(code: &mut Vec<Instruction>, fills: &[GlobalFill]) -> Result<(), AllocError>
    ensures { OnOk result (code.new.items
        ≡ code.old.items ++ flat_map bodies.start_step (map bodies.fill_step fills.now)) }
{
    for fill in fills {
        put_step(
            code,
            StartStep::Fill {
                global: fill.global,
                function: fill.function,
            },
        )?;
    }
    Ok(())
}

/// The steps of a start function, in order.
fn put_steps(code: &mut Vec<Instruction>, steps: &[StartStep]) -> Result<(), AllocError>
    ensures { OnOk result
        (code.new.items ≡ code.old.items ++ flat_map bodies.start_step steps.now) }
{
    for step in steps {
        put_step(code, *step)?;
    }
    Ok(())
}

/// One step of a start function.
fn put_step(code: &mut Vec<Instruction>, step: StartStep) -> Result<(), AllocError>
    ensures { OnOk result (code.new.items ≡ code.old.items ++ bodies.start_step step) }
{
    match step {
        StartStep::Fill { global, function } => {
            put(code, Instruction::RefFunc(function))?;
            put(code, Instruction::GlobalSet(global))
        }
        StartStep::Thunk(function) => put(code, Instruction::Call(function)),
        StartStep::Hook { hook, moment } => put_hook(code, hook, moment),
        StartStep::AddressToGlobal {
            base,
            offset,
            global,
        } => {
            put_sum(code, base, offset)?;
            put(code, Instruction::GlobalSet(global))
        }
        StartStep::AddressToMemory {
            base,
            offset,
            address,
        } => {
            put(code, Instruction::I32Const(address.cast_signed()))?;
            put_sum(code, base, offset)?;
            put(code, Instruction::I32Store)
        }
    }
}

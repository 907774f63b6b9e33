//! A world from its declarations.

ghost use Rattle.std.specs.Prelude.{◌≡◌};
ghost use Rattle.wit_packages.specs.Steps.{declaration_step};
ghost use Rattle.wit_packages.specs.Worlds.{Gives, at_declaration, declarations_from, empty, wit, world_of};

use crate::fault::{PackageFault, StepFault};
use crate::state::State;
use crate::steps::declaration_step;
use comp_lists::{Keyed, Seq};
use package_syntax::Declaration;
use record_values::Wit;
use std::alloc::Global;

/// Reads the declaration at a position.
fn placed_step(
    alloc: Global,
    state: &mut State,
    position: usize,
    declaration: &Declaration,
) -> Result<(), PackageFault>
    ensures { Gives (λ _. state.new) result (at_declaration position
        (declaration_step state.old declaration.now)) }
{
    match declaration_step(alloc, state, declaration) {
        Ok(()) => Ok(()),
        Err(StepFault::Memory) => Err(PackageFault::Memory),
        Err(StepFault::Refused(wrong)) => Err(PackageFault::Declaration {
            declaration: position,
            wrong,
        }),
    }
}

/// What the declarations say together.
fn state_of(alloc: Global, declarations: &[Declaration]) -> Result<State, PackageFault>
    ensures { Gives (λ s. s) result (declarations_from 0 declarations.now empty) }
{
    let mut state = State {
        scope: Seq::new(alloc),
        instances: Seq::new(alloc),
        interfaces: Keyed::new(alloc),
        imports: Keyed::new(alloc),
        exports: Keyed::new(alloc),
    };
    for (position, declaration) in declarations.iter().enumerate() {
        placed_step(alloc, &mut state, position, declaration)?;
    }
    Ok(state)
}

fn wit(state: State) -> Wit
    ensures { result ≡ wit state }
{
    let State {
        scope: _,
        instances: _,
        interfaces,
        imports,
        exports,
    } = state;
    Wit {
        interfaces,
        imports,
        exports,
    }
}

/// The world of these declarations.
#[tactic(auto, unfolding(crate::specs::Worlds::world_of))]
pub(crate) fn world_of(alloc: Global, declarations: &[Declaration]) -> Result<Wit, PackageFault>
    ensures { Gives (λ w. w) result (world_of declarations.now) }
{
    let state = state_of(alloc, declarations)?;
    Ok(wit(state))
}

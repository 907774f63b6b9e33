//! The core instances of a component: that of the module of shims, those of the user modules, and that of the fixup.
//!
//! User modules and what they call need one another in a circle: lowerings name main's memory and
//! reallocs of modules, and modules are given lowerings. So they are given shims where a lowering
//! names exports; and the fixup, which is instantiated last, puts the lowerings behind the shims
//! (component model, explainer: core instances). [`encode_core_instantiation`] adds all these
//! instances, or those of the user modules alone where there are no shims.
//!
//! In reading order: `modules` (the core modules), `plan` (the shims), `users` (the instances of
//! the user modules), `fixup` (the fixup's module and instance), `instances` (all of them, in
//! order, with the types of exported interfaces between them). `specs/Instances.antt` says what is
//! added.
#![tactic(auto)]

mod fixup;
mod instances;
mod modules;
mod plan;
mod users;

pub use instances::encode_core_instantiation;
pub use modules::encode_core_modules;

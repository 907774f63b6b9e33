//! References to items by index, one kind of value after the other.

ghost use Rattle.std.specs.Prelude.{◌≡◌, ◌∷◌, [], List};
ghost use Rattle.std.specs.List.{flat_map};
ghost use Rattle.comp_bytes.specs.References.{Reference, where_some, value_references, description_references, option_references, own, type_at, core_func_at};
ghost use Rattle.comp_bytes.specs.Spaces.{kind_space, sort_space};
ghost use Rattle.comp_bytes.specs.declared.space.Space.TheVariants as spaces;
ghost use Rattle.comp_check.specs.Lacking.{lacking, Finds};

use crate::scope::{Lack, Scopes};
use comp_bytes::{
    Argument, CanonicalOption, Case, ComponentValType, CoreArgument, CoreInlineExport, Description,
    Field, Space, space_of_kind,
};

/// A value that names items by index.
pub(crate) trait Refers {
    ghost references: { Self → List Reference };

    /// Whether the items that it names exist.
    fn check(&self, scopes: &Scopes) -> Result<(), Lack>
        ensures { Finds result (lacking scopes.now (references self.now)) };
}

/// Whether the items that each of these names exist.
pub(crate) fn check_each<T: Refers>(scopes: &Scopes, items: &[T]) -> Result<(), Lack>
    ensures { Finds result (lacking scopes.now (flat_map T.references items.now)) }
{
    for item in items {
        item.check(scopes)?;
    }
    Ok(())
}

#[tactic(auto, unfolding(crate::specs::Lacking::lacking))]
pub(crate) fn check_optional<T: Refers>(scopes: &Scopes, value: &Option<T>) -> Result<(), Lack>
    ensures { Finds result (lacking scopes.now (where_some T.references value.now)) }
{
    match value {
        None => Ok(()),
        Some(value) => value.check(scopes),
    }
}

impl Refers for ComponentValType {
    ghost references = { value_references };

    #[tactic(auto, unfolding(crate::specs::Lacking::lacking))]
    fn check(&self, scopes: &Scopes) -> Result<(), Lack> {
        match self {
            ComponentValType::Primitive(_) => Ok(()),
            ComponentValType::Defined(index) => scopes.check(Space::Type, *index),
        }
    }
}

impl Refers for Field {
    ghost references = { λ f. value_references f.ty };

    fn check(&self, scopes: &Scopes) -> Result<(), Lack> {
        self.ty.check(scopes)
    }
}

impl Refers for Case {
    ghost references = { λ c. where_some value_references c.ty };

    fn check(&self, scopes: &Scopes) -> Result<(), Lack> {
        check_optional(scopes, &self.ty)
    }
}

impl Refers for Description {
    ghost references = { description_references };

    #[tactic(auto, unfolding(crate::specs::Lacking::lacking))]
    fn check(&self, scopes: &Scopes) -> Result<(), Lack> {
        match self {
            Description::Func(index) => scopes.check(Space::Type, *index),
            Description::TypeEqual(index) => scopes.check(Space::Type, *index),
            Description::SubResource => Ok(()),
            Description::Instance(index) => scopes.check(Space::Type, *index),
        }
    }
}

impl Refers for CanonicalOption {
    ghost references = { option_references };

    #[tactic(auto, unfolding(crate::specs::Lacking::lacking))]
    fn check(&self, scopes: &Scopes) -> Result<(), Lack> {
        match self {
            CanonicalOption::Utf8
            | CanonicalOption::Utf16
            | CanonicalOption::CompactUtf16
            | CanonicalOption::Async => Ok(()),
            CanonicalOption::Memory(memory) => scopes.check(Space::CoreMemory, *memory),
            CanonicalOption::Realloc(func) => scopes.check(Space::CoreFunc, *func),
            CanonicalOption::PostReturn(func) => scopes.check(Space::CoreFunc, *func),
            CanonicalOption::Callback(func) => scopes.check(Space::CoreFunc, *func),
        }
    }
}

impl Refers for CoreArgument {
    ghost references = { λ a. own spaces.CoreInstance a.instance ∷ [] };

    fn check(&self, scopes: &Scopes) -> Result<(), Lack> {
        scopes.check(Space::CoreInstance, self.instance)
    }
}

impl Refers for CoreInlineExport {
    ghost references = { λ e. own (kind_space e.kind) e.index ∷ [] };

    fn check(&self, scopes: &Scopes) -> Result<(), Lack> {
        scopes.check(space_of_kind(self.kind), self.index)
    }
}

impl Refers for Argument {
    ghost references = { λ a. own (sort_space a.sort) a.index ∷ [] };

    fn check(&self, scopes: &Scopes) -> Result<(), Lack> {
        scopes.check(self.sort.space(), self.index)
    }
}

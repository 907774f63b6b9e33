//! Unnamed types: equal ones of one scope are one type.

ghost use Rattle.std.specs.Prelude.{◌≡◌, None, length, IfOk, OnOk};
ghost use Rattle.std.specs.Map.{lookup};
ghost use Rattle.wit_data.specs.contracts.types.TypeDefKindPartialEq.TheImpl as kinds_eq;
ghost use Rattle.record_resolve.specs.Sharing.{with_type, shared_by, shared, scoped};

use crate::making::Making;
use comp_lists::{Keyed, Text, TryClone};
use std::alloc::{AllocError, Global};
use std::mem;
use wit_data::{TypeDef, TypeDefKind, TypeId, TypeOwner};

/// The unnamed types of a scope by their kinds.
pub(crate) type Unnamed = Keyed<TypeDefKind, TypeId>;

impl Making {
    /// One type more.
    pub(crate) fn push_type(
        &mut self,
        name: Option<Text>,
        kind: TypeDefKind,
        owner: TypeOwner,
    ) -> Result<TypeId, AllocError>
        ensures number { IfOk result (λ id. id.index ≡ length self.old.types) }
        ensures pushed { OnOk result
            (self.new ≡ with_type name kind owner self.old.unnamed self.old) }
    {
        let id = TypeId {
            index: self.types.len(),
        };
        self.types.push(TypeDef { name, kind, owner })?;
        Ok(id)
    }

    /// The unnamed type of this kind, which is made where the scope does not have it.
    #[tactic(auto, unfolding(crate::specs::Sharing::shared))]
    pub(crate) fn share(&mut self, alloc: Global, kind: TypeDefKind) -> Result<TypeId, AllocError>
        ensures { IfOk result (λ id. (id, self.new) ≡ shared kind self.old) }
    {
        match self.unnamed.get(&kind).copied() {
            Some(id) => Ok(id),
            None => self.add_unnamed(alloc, kind),
        }
    }

    /// A new unnamed type, of a kind that the scope does not have.
    fn add_unnamed(&mut self, alloc: Global, kind: TypeDefKind) -> Result<TypeId, AllocError>
        requires { lookup (kinds_eq.eq-value.it kind) self.old.unnamed ≡ None }
        ensures { IfOk result (λ id. (id, self.new) ≡ shared_by kind self.old None) }
    {
        let key = kind.try_clone(alloc)?;
        let id = self.push_type(None, kind, TypeOwner::None)?;
        self.unnamed.insert(key, id)?;
        Ok(id)
    }

    /// Continues in a scope with these unnamed types, and returns those of the scope before.
    pub(crate) fn change_scope(&mut self, unnamed: Unnamed) -> Unnamed
        ensures before { result ≡ self.old.unnamed }
        ensures scope { self.new ≡ scoped unnamed self.old }
    {
        mem::replace(&mut self.unnamed, unnamed)
    }
}

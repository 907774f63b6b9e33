//! The types of streams and futures that core imports are of.
//!
//! Canonical ABI: `canon stream.new`, `canon future.new` and their neighbours; component model, WIT:
//! `stream`, `future`.
#![tactic(auto, using(crate::proofs::Growth::growing))]

ghost use Rattle.std.specs.Prelude.{◌≡◌, None, IfOk, IfErr};
ghost use Rattle.comp_inventories.specs.Inventories.{scope_of};
ghost use Rattle.comp_terms.specs.Planned.{payload_tree};
ghost use Rattle.comp_trees.specs.DefinedScopes.{Denotes};
ghost use Rattle.comp_trees.specs.DefinedTrees.{OfValues};
ghost use Rattle.comp_trees.specs.Trees.{Absent, StreamOf, FutureOf};
ghost use Rattle.comp_worlds.specs.Encodable.{IsEncodable};
ghost use Rattle.comp_worlds.specs.Payloads.{IsPayloadType, scope_if, payload_scope};
ghost use Rattle.comp_links.specs.Lists.{type_of_world};
ghost use Rattle.interface_needs.specs.RootNeeds.{IsTypeFor, IsPayloadFor};
ghost use Rattle.root_imports.specs.Met.{IsSuppliedFor};
ghost use Rattle.root_imports.specs.RootScopes.{RootGrows, is_full, AreTablesRight, ArePassed};
ghost use Rattle.wit_types.specs.Denoting.{IsCause};

use crate::root_scope::RootScope;
use byte_encoding::BuildFault;
use comp_bytes::ComponentValType;
use comp_worlds::{ComponentWorld, PayloadInfo, PayloadType};
use wit_data::{InterfaceId, Type, TypeId};
use wit_types::{encode_unit_future, encode_unit_stream, encode_valtype};

/// The exported interface whose types the type of a stream or a future is made of, if it is one of a
/// function of such an interface.
fn scope_of_type(info: &PayloadInfo) -> Option<InterfaceId>
    ensures { result ≡ scope_if info.now.imported info.now.interface }
{
    if info.imported { None } else { info.interface }
}

impl RootScope<'_, ComponentWorld> {
    /// The index of a type that is a stream or a future: of one that an exported interface may be made
    /// of; or, where no interface is given, of one that the component uses at its root. It is defined,
    /// where it is not yet.
    fn typed_payload(
        &mut self,
        interface: Option<InterfaceId>,
        id: TypeId,
    ) -> Result<u32, BuildFault>
        requires valid { IsEncodable self.old.world.now }
        requires payload { IsPayloadType self.old.world.now.resolve.types id }
        requires of { IsTypeFor self.old.world.now interface id }
        requires passed { ArePassed self.old.world.now self.old.met }
        requires supplied { IsSuppliedFor self.old.world.now self.old.met interface }
        requires tables { AreTablesRight self.old.world.now self.old.met self.old.instances
            self.old.items.defs self.old.maps }
        ensures denotes { IfOk result (λ index. Denotes (scope_of self.new.items.defs) index
            (type_of_world self.old.world.now id)) }
        ensures world { self.new.world ≡ self.old.world }
        ensures met { self.new.met ≡ self.old.met }
        ensures instances { self.new.instances ≡ self.old.instances }
        ensures grows { RootGrows self.old.world.now self.old.items self.new.items }
        ensures tables { AreTablesRight self.old.world.now self.old.met self.new.instances
            self.new.items.defs self.new.maps }
        ensures cause { IfErr result (IsCause is_full self.new.items.defs) }
    {
        let world = self.world;
        let alloc = self.items.allocator();
        self.interface = interface;
        let value = encode_valtype(alloc, self, &world.resolve, &Type::Id(id))?;
        match value {
            ComponentValType::Defined(index) => Ok(index),
            ComponentValType::Primitive(_) => unreachable!(),
        }
    }

    /// The index of a new type of streams that carry nothing.
    fn unit_stream(&mut self) -> Result<u32, BuildFault>
        requires tables { AreTablesRight self.old.world.now self.old.met self.old.instances
            self.old.items.defs self.old.maps }
        ensures denotes { IfOk result (λ index. Denotes (scope_of self.new.items.defs) index
            (OfValues (StreamOf Absent))) }
        ensures world { self.new.world ≡ self.old.world }
        ensures met { self.new.met ≡ self.old.met }
        ensures instances { self.new.instances ≡ self.old.instances }
        ensures grows { RootGrows self.old.world.now self.old.items self.new.items }
        ensures tables { AreTablesRight self.old.world.now self.old.met self.new.instances
            self.new.items.defs self.new.maps }
        ensures cause { IfErr result (IsCause is_full self.new.items.defs) }
    {
        self.interface = None;
        encode_unit_stream(self)
    }

    /// The index of a new type of futures that carry nothing.
    fn unit_future(&mut self) -> Result<u32, BuildFault>
        requires tables { AreTablesRight self.old.world.now self.old.met self.old.instances
            self.old.items.defs self.old.maps }
        ensures denotes { IfOk result (λ index. Denotes (scope_of self.new.items.defs) index
            (OfValues (FutureOf Absent))) }
        ensures world { self.new.world ≡ self.old.world }
        ensures met { self.new.met ≡ self.old.met }
        ensures instances { self.new.instances ≡ self.old.instances }
        ensures grows { RootGrows self.old.world.now self.old.items self.new.items }
        ensures tables { AreTablesRight self.old.world.now self.old.met self.new.instances
            self.new.items.defs self.new.maps }
        ensures cause { IfErr result (IsCause is_full self.new.items.defs) }
    {
        self.interface = None;
        encode_unit_future(self)
    }

    /// The index of the type of the stream or the future that a core import is of. It is defined, where
    /// it is not yet; one that carries nothing has a type of its own each time.
    pub fn payload_type(&mut self, info: &PayloadInfo) -> Result<u32, BuildFault>
        requires valid { IsEncodable self.old.world.now }
        requires of { IsPayloadFor self.old.world.now (payload_scope info.now) info.now.ty }
        requires passed { ArePassed self.old.world.now self.old.met }
        requires supplied { IsSuppliedFor self.old.world.now self.old.met (payload_scope info.now) }
        requires tables { AreTablesRight self.old.world.now self.old.met self.old.instances
            self.old.items.defs self.old.maps }
        ensures denotes { IfOk result (λ index. Denotes (scope_of self.new.items.defs) index
            (OfValues (payload_tree self.old.world.now info.now.ty))) }
        ensures world { self.new.world ≡ self.old.world }
        ensures met { self.new.met ≡ self.old.met }
        ensures instances { self.new.instances ≡ self.old.instances }
        ensures grows { RootGrows self.old.world.now self.old.items self.new.items }
        ensures tables { AreTablesRight self.old.world.now self.old.met self.new.instances
            self.new.items.defs self.new.maps }
        ensures cause { IfErr result (IsCause is_full self.new.items.defs) }
    {
        match &info.ty {
            PayloadType::Typed { id, .. } => {
                let interface = scope_of_type(info);
                self.typed_payload(interface, *id)
            }
            PayloadType::UnitStream => self.unit_stream(),
            PayloadType::UnitFuture => self.unit_future(),
        }
    }
}

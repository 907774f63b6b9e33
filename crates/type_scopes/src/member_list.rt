//! The members of an instance type that is being built.

ghost use Rattle.std.specs.Prelude.{◌≡◌, ◌++◌, ◌∷◌, [], IfOk, IfErr, OnOk, OnErr, true};
ghost use Rattle.comp_bytes.specs.declared.types.Member.TheVariants as members;
ghost use Rattle.comp_bytes.specs.declared.types.Description.TheVariants as descriptions;
ghost use Rattle.wit_types.specs.Denoting.{IsCause};
ghost use Rattle.comp_trees.specs.Members.{makes_type};
ghost use Rattle.type_scopes.specs.Members.{types_in, is_full};

use byte_encoding::{BuildFault, next_count};
use comp_bytes::{Description, ExternName, Member};
use comp_lists::Seq;
use std::alloc::{AllocError, Global};
use std::marker::Model;

/// The members of an instance type, with the number of type indices that they make.
pub struct MemberList {
    members: Seq<Member>,
    type_count: u32,
}

impl Drop for MemberList {
    fn drop(self) {
        let MemberList {
            members: _,
            type_count: _,
        } = self;
    }
}

impl Model for MemberList {
    ghost use Rattle.std.specs.Prelude.{List, ◌≡◌};
    ghost use Rattle.comp_bytes.specs.declared.types.Member.{Member};
    ghost use Rattle.type_scopes.specs.Members.{types_in};

    ghost Value = { List Member };

    ghost view = { λ l. l.members };

    ghost invariant = { λ l. l.type_count ≡ types_in l.members };
}

impl MemberList {
    /// No member.
    pub fn new(alloc: Global) -> MemberList
        ensures { result ≡ [] }
    {
        MemberList {
            members: Seq::new(alloc),
            type_count: 0,
        }
    }

    /// Adds a member that makes a type index, and returns that index.
    pub fn add_type(&mut self, member: Member) -> Result<u32, BuildFault>
        requires { makes_type member ≡ true }
        ensures index { IfOk result (λ index. index ≡ types_in self.old) }
        ensures ok { OnOk result (self.new ≡ self.old ++ member ∷ []) }
        ensures err { OnErr result (self.new ≡ self.old) }
        ensures cause { IfErr result (IsCause is_full self.new) }
    {
        let index = self.type_count;
        let count = next_count(index)?;
        self.members.push(member)?;
        self.type_count = count;
        Ok(index)
    }

    /// Adds an export of a function of the type with an index.
    pub fn add_function(&mut self, name: ExternName, index: u32) -> Result<(), AllocError>
        ensures ok { OnOk result
            (self.new ≡ self.old ++ members.Export name (descriptions.Func index) ∷ []) }
        ensures err { OnErr result (self.new ≡ self.old) }
    {
        let description = Description::Func(index);
        self.members.push(Member::Export { name, description })?;
        Ok(())
    }

    /// The members.
    pub fn into_members(self) -> Seq<Member>
        ensures { result ≡ self }
    {
        let MemberList {
            members,
            type_count: _,
        } = self;
        members
    }
}

//! A warning as a value.

use comp_lists::{Seq, Text};

/// A rule that validators of components have, and this encoder hasn't.
#[derive(Clone, Copy, PartialEq, Eq)]
pub enum WarningKind {
    /// A name isn't in kebab case (component model, explainer: `plainname`, `interfacename`).
    NotKebab,
    /// A name is that of an earlier one of its list.
    NameTwice,
    /// A name differs from an earlier one of its list in the case of letters alone, or in that the one is that of
    /// a method and the other that of a static function (component model, explainer: strongly-unique).
    NameCase,
    /// A resource is the type of a value, which only a handle of it can be.
    ResourceValue,
    /// A function's result holds a borrowed handle.
    BorrowResult,
    /// A constructor's result is neither an owned handle of its resource nor a result with one.
    ConstructorResult,
    /// A method's first parameter isn't a borrowed handle of its resource under the name `self`.
    MethodSelf,
    /// A record, a variant, an enum or flags without a name are part of a type.
    UnnamedType,
    /// A stream has characters for its items.
    CharStream,
    /// Nothing describes the component of a module that imports nothing, so that it is empty.
    NoRecord,
    /// A role is that of a core import or export that the module lacks.
    FieldMissing,
    /// A post-return is that of a function which no core export is.
    PostReturnAlone,
}

/// A rule that is broken, and the names that lead to the place, from the outermost on.
#[derive(Drop)]
pub struct Warning {
    pub kind: WarningKind,
    pub path: Seq<Text>,
}

//! Copies of functions.

ghost use Rattle.std.specs.Prelude.{◌≡◌, IfOk};

use comp_lists::Seq;
use std::alloc::{AllocError, Global};
use wit_data::{Function, Param};

fn copy_params(alloc: Global, params: &[Param]) -> Result<Seq<Param>, AllocError>
    ensures { IfOk result (λ ps. ps ≡ params.now) }
{
    let mut copied = Seq::new(alloc);
    for param in params {
        copied.push(Param {
            name: param.name.clone(alloc)?,
            ty: param.ty,
        })?;
    }
    Ok(copied)
}

/// An equal function, unless memory runs out.
pub(crate) fn copy_function(alloc: Global, function: &Function) -> Result<Function, AllocError>
    ensures { IfOk result (λ f. f ≡ function.now) }
{
    Ok(Function {
        name: function.name.clone(alloc)?,
        kind: function.kind,
        params: copy_params(alloc, function.params.as_slice())?,
        result: function.result,
    })
}

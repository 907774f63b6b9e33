//! Types that get a name.
//!
//! Component model, binary format: `externdesc`, `typebound`.

ghost use Rattle.std.specs.Prelude.{◌≡◌, slice_get, IfOk, ◌∷◌, []};
ghost use Rattle.package_types.specs.Types.{Gives};
ghost use Rattle.package_types.specs.Named.{other_name, meaning_by, resource, plain_name};

use crate::fault::{Cause, TypeFault};
use crate::scopes::{Entry, Facts};
use crate::sizes::{above, simple};
use comp_bytes::ExternName;
use comp_lists::{Seq, Text, TryClone};
use record_values::{Node, TypeName};
use std::alloc::{AllocError, Global};

/// The nodes of a named type, and what is known of its name.
#[derive(Drop)]
pub struct Meaning {
    pub nodes: Seq<Node>,
    pub facts: Facts,
}

fn alone(alloc: Global, node: Node) -> Result<Seq<Node>, AllocError>
    ensures { IfOk result (λ ns. ns ≡ node ∷ []) }
{
    let mut nodes = Seq::new(alloc);
    nodes.push(node)?;
    Ok(nodes)
}

/// Another name for a named type.
fn other_name(alloc: Global, name: &TypeName, facts: Facts) -> Result<Meaning, TypeFault>
    ensures { Gives (λ m. m) result (other_name name.now facts) }
{
    let size = above(facts.size)?;
    let nodes = alone(alloc, Node::Named(name.try_clone(alloc)?))?;
    let is_resource = facts.is_resource;
    Ok(Meaning {
        nodes,
        facts: Facts { size, is_resource },
    })
}

/// The type of a name that equals the type at an index.
pub fn meaning_of(alloc: Global, scope: &[Entry], index: u32) -> Result<Meaning, TypeFault>
    ensures { Gives (λ m. m) result (meaning_by (slice_get scope.now index)) }
{
    match scope.get(index as usize) {
        Some(Entry::Name { name, facts }) => other_name(alloc, name, *facts),
        Some(Entry::Type { nodes, size }) => {
            let nodes = nodes.clone(alloc)?;
            let size = *size;
            let is_resource = false;
            Ok(Meaning {
                nodes,
                facts: Facts { size, is_resource },
            })
        }
        _ => Err(TypeFault::Refused(Cause::Index)),
    }
}

/// A new resource. The only error is out of memory.
pub fn resource(alloc: Global) -> Result<Meaning, AllocError>
    ensures { IfOk result (λ m. m ≡ resource) }
{
    let nodes = alone(alloc, Node::Resource)?;
    let size = simple();
    let is_resource = true;
    Ok(Meaning {
        nodes,
        facts: Facts { size, is_resource },
    })
}

/// The name of an import or an export, which has one part.
pub fn plain_name(alloc: Global, name: &ExternName) -> Result<Text, TypeFault>
    ensures { Gives (λ n. n) result (plain_name name.now) }
{
    match &name.version_suffix {
        None => Ok(name.name.clone(alloc)?),
        Some(_) => Err(TypeFault::Refused(Cause::VersionSuffix)),
    }
}

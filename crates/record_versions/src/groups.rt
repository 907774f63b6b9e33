//! Which imported interface becomes which.

ghost use Rattle.std.specs.Prelude.{◌≡◌, [], ◌++◌, Ok, IfOk, OnOk};
ghost use Rattle.std.specs.Map.{lookup};
ghost use Rattle.std.specs.Str.{bytes_eq};
ghost use Rattle.std.specs.Option.{option_copied};
ghost use Rattle.json_paths.specs.Faults.{Gives};
ghost use Rattle.indexmap.specs.IndexMap.{insert_entry};
ghost use Rattle.record_versions.specs.Compatible.{compatible};
ghost use Rattle.record_values.specs.Interfaces.{interfaces_after};
ghost use Rattle.record_versions.specs.Groups.{candidate_by, candidate, candidates, is_newest, with_candidate, greatest_after, with_rename, renames_after, renames_of, renames};

use crate::compatible::{Compatible, compatible_of};
use comp_lists::{Keyed, Seq, Text, TryClone};
use indexmap::IndexMap;
use json_paths::Failure;
use record_values::{InterfaceName, Interfaces, Item, ItemKey, Wit, interfaces_among};
use std::alloc::{AllocError, Global};
use std::marker::Model;

/// Interfaces with those that they become.
pub(crate) type Renames = Keyed<InterfaceName, InterfaceName>;

/// An imported interface that has a canonical id.
#[derive(Debug, Drop)]
pub struct Candidate {
    pub name: InterfaceName,
    pub compatible: Compatible,
}

fn copy_compatible(alloc: Global, compatible: &Compatible) -> Result<Compatible, AllocError>
    ensures { IfOk result (λ c. c ≡ compatible.now) }
{
    Ok(Compatible {
        canonical: compatible.canonical.clone(alloc)?,
        major: compatible.major,
        minor: compatible.minor,
        patch: compatible.patch,
    })
}

fn copy_candidate(alloc: Global, candidate: &Candidate) -> Result<Candidate, AllocError>
    ensures { IfOk result (λ c. c ≡ candidate.now) }
{
    Ok(Candidate {
        name: candidate.name.try_clone(alloc)?,
        compatible: copy_compatible(alloc, &candidate.compatible)?,
    })
}

fn named_candidate(alloc: Global, name: &InterfaceName) -> Result<Seq<Candidate>, Failure>
    ensures { Gives (λ cs. cs) result (Ok (candidate_by name.now (compatible name.now))) }
{
    let mut candidates = Seq::new(alloc);
    match compatible_of(alloc, name)? {
        Some(compatible) => {
            let name = name.try_clone(alloc)?;
            candidates.push(Candidate { name, compatible })?;
            Ok(candidates)
        }
        None => Ok(candidates),
    }
}

fn candidate_of(alloc: Global, item: &Item) -> Result<Seq<Candidate>, Failure>
    ensures { Gives (λ cs. cs) result (Ok (candidate item.now)) }
{
    match item {
        Item::Interface(name) => named_candidate(alloc, name),
        Item::Function(_) => Ok(Seq::new(alloc)),
        Item::Type(_) => Ok(Seq::new(alloc)),
    }
}

/// Adds an import, where it is an interface that has a canonical id.
fn add_found(alloc: Global, found: &mut Seq<Candidate>, item: &Item) -> Result<(), Failure>
    ensures { Gives (λ _. found.new) result (Ok (found.old ++ candidate item.now)) }
{
    let more = candidate_of(alloc, item)?;
    Ok(found.append(more)?)
}

/// The imported interfaces that have a canonical id, in order.
fn candidates(alloc: Global, imports: &Keyed<ItemKey, Item>) -> Result<Seq<Candidate>, Failure>
    ensures { Gives (λ cs. cs) result (Ok (candidates imports.now)) }
{
    let mut found = Seq::new(alloc);
    for (_key, item) in imports.iter() {
        add_found(alloc, &mut found, item)?;
    }
    Ok(found)
}

/// The interface of greatest version by canonical id.
#[derive(Drop)]
pub struct Greatest {
    map: IndexMap<Text, Candidate>,
}

impl Model for Greatest {
    ghost use Rattle.record_versions.specs.Groups as groups;

    ghost Value = { groups.Greatest };

    ghost view = { λ t. t.map.entries };
}

impl Greatest {
    fn new(alloc: Global) -> Greatest
        ensures { result ≡ [] }
    {
        Greatest {
            map: IndexMap::new(alloc),
        }
    }

    /// The interface of greatest version that has this canonical id.
    pub fn get(&self, canonical: &Text) -> Option<&Candidate>
        ensures { option_copied result ≡ lookup (bytes_eq canonical.now) self.now }
    {
        self.map.get(canonical)
    }

    fn put(&mut self, canonical: Text, candidate: Candidate) -> Result<(), AllocError>
        ensures { OnOk result (self.new ≡ insert_entry bytes_eq self.old canonical candidate) }
    {
        self.map.insert(canonical, candidate)?;
        Ok(())
    }

    fn is_newest(&self, candidate: &Candidate) -> bool
        ensures { result
            ≡ is_newest (lookup (bytes_eq candidate.now.compatible.canonical) self.now)
            candidate.now }
    {
        match self.get(&candidate.compatible.canonical) {
            Some(other) => candidate.compatible.is_newer(&other.compatible),
            None => true,
        }
    }
}

fn add_candidate(
    alloc: Global,
    greatest: &mut Greatest,
    candidate: &Candidate,
) -> Result<(), AllocError>
    ensures { OnOk result (greatest.new ≡ with_candidate greatest.old candidate.now) }
{
    if greatest.is_newest(candidate) {
        let canonical = candidate.compatible.canonical.clone(alloc)?;
        greatest.put(canonical, copy_candidate(alloc, candidate)?)
    } else {
        Ok(())
    }
}

fn greatest_of(alloc: Global, candidates: &[Candidate]) -> Result<Greatest, AllocError>
    ensures { IfOk result (λ t. t ≡ greatest_after [] candidates.now) }
{
    let mut greatest = Greatest::new(alloc);
    for candidate in candidates {
        add_candidate(alloc, &mut greatest, candidate)?;
    }
    Ok(greatest)
}

/// The imported interface of greatest version by canonical id. The only refusal is out of memory.
pub fn greatest_imports(alloc: Global, imports: &Keyed<ItemKey, Item>) -> Result<Greatest, Failure>
    ensures { Gives (λ t. t) result (Ok (greatest_after [] (candidates imports.now))) }
{
    let candidates = candidates(alloc, imports)?;
    Ok(greatest_of(alloc, candidates.as_slice())?)
}

fn add_rename(
    alloc: Global,
    exported: &Interfaces,
    renames: &mut Renames,
    name: &InterfaceName,
    greatest: Option<&Candidate>,
) -> Result<(), AllocError>
    ensures { OnOk result (renames.new
        ≡ with_rename exported.now renames.old name.now (option_copied greatest.entry)) }
{
    match greatest {
        Some(greatest) => {
            if *name == greatest.name || exported.contains_key(name) {
                Ok(())
            } else {
                let name = name.try_clone(alloc)?;
                renames.insert_if_absent(name, greatest.name.try_clone(alloc)?)
            }
        }
        None => Ok(()),
    }
}

fn renames_after(
    alloc: Global,
    exported: &Interfaces,
    greatest: &Greatest,
    candidates: &[Candidate],
) -> Result<Renames, AllocError>
    ensures { IfOk result (λ rs. rs ≡ renames_after exported.now greatest.now [] candidates.now) }
{
    let mut renames = Keyed::new(alloc);
    for candidate in candidates {
        let found = greatest.get(&candidate.compatible.canonical);
        add_rename(alloc, exported, &mut renames, &candidate.name, found)?;
    }
    Ok(renames)
}

/// What these interfaces become, in their order.
fn renames_among(
    alloc: Global,
    exported: &Interfaces,
    candidates: &[Candidate],
) -> Result<Renames, AllocError>
    ensures { IfOk result (λ rs. rs ≡ renames_of exported.now candidates.now) }
{
    let greatest = greatest_of(alloc, candidates)?;
    renames_after(alloc, exported, &greatest, candidates)
}

/// What the imported interfaces become, where these are exported.
fn renames_except(
    alloc: Global,
    exported: &Interfaces,
    imports: &Keyed<ItemKey, Item>,
) -> Result<Renames, Failure>
    ensures { Gives (λ rs. rs) result (Ok (renames_of exported.now (candidates imports.now))) }
{
    let candidates = candidates(alloc, imports)?;
    Ok(renames_among(alloc, exported, candidates.as_slice())?)
}

/// What the imported interfaces become, in their order: of those of one canonical id each becomes the
/// one of greatest version, and one that is also exported is kept. The only refusal is out of memory.
#[tactic(auto, unfolding(crate::specs::Groups::renames))]
pub fn renames(alloc: Global, wit: &Wit) -> Result<Keyed<InterfaceName, InterfaceName>, Failure>
    ensures { Gives (λ rs. rs) result (Ok (renames wit.now)) }
{
    let exported = interfaces_among(alloc, &wit.exports)?;
    renames_except(alloc, &exported, &wit.imports)
}

//! The new order: each time the first interface, in the old order, whose uses are itself or taken.
//!
//! One that uses an interface that is not taken waits for that one, and is tried again, from that use
//! on, once it is taken. So the time is linear in the number of interfaces and their uses, up to a
//! logarithm.

ghost use Rattle.std.specs.Prelude.{◌≡◌, true, false, ◌||◌, ◌&&◌, ℕ, ◌<◌, List, take, length, replicate, [], nat_eq, nat_lt, IfOk, OnOk, if◌then◌else◌, MatchBool, Some, None};
ghost use Rattle.std.specs.BTreeSet.{contains};
ghost use Rattle.std.specs.List.{list_any, slice_get};
ghost use Rattle.std.specs.Option.{option_copied};
ghost use Rattle.std.specs.Ordering.{nat_cmp};
ghost use Rattle.record_values.specs.Names.{is_same_interface};
ghost use Rattle.record_values.specs.declared.names.InterfaceName.{InterfaceName};
ghost use Rattle.record_versions.specs.Order.{is_taken, all_taken, is_ready, first_ready, with_taken, taken_anew};
ghost use Rattle.record_versions.specs.Taking.{waits, Lacks, IsAway, Keeps};
ghost use Rattle.record_versions.specs.declared.order.Waiting.{Waiting};

use crate::order::{Taken, Waiting};
use comp_lists::{Keyed, Seq, TryClone};
use record_values::InterfaceName;
use std::alloc::{AllocError, Global};
use std::collections::{BTreeSet, HashMap};

/// The positions of interfaces that wait, by the name of one that they use and that is not taken.
type Parked = HashMap<InterfaceName, Seq<usize>>;

/// Which interfaces are to be tried, and which wait until another one is taken, by their positions.
#[derive(Drop)]
struct Trials {
    to_try: BTreeSet<usize>,
    parked: Parked,
    /// For each, how many of its uses, from the first on, are known to be itself or taken.
    checked: Vec<usize>,
}

/// Whether a use is the interface itself or taken.
fn is_at_hand(taken: &Taken, own: &InterfaceName, name: &InterfaceName) -> bool
    ensures { result ≡ (is_same_interface name.now own.now || is_taken taken.now name.now) }
{
    *name == *own || taken.contains_key(name)
}

/// The position of the first use, from this one on, that is neither the interface itself nor taken.
fn first_lacking(taken: &Taken, waiting: &Waiting, from: usize) -> usize
    requires { all_taken taken.now waiting.now.name (take from waiting.now.uses) ≡ true }
    ensures known { all_taken taken.now waiting.now.name (take result waiting.now.uses) ≡ true }
    ensures lacking { (name : InterfaceName)
        → slice_get waiting.now.uses result ≡ Some name
        → (is_taken taken.now name ≡ false) × Lacks name waiting.now }
{
    let uses = waiting.uses.as_slice();
    for position in from..uses.len() {
        if !is_at_hand(taken, &waiting.name, &uses[position]) {
            return position;
        }
    }
    uses.len()
}

/// Removes the positions of those that wait for this one.
fn unpark(alloc: Global, parked: &mut Parked, name: &InterfaceName) -> Seq<usize>
    ensures positions { (q : ℕ) → list_any (nat_eq q) result ≡ waits parked.old name.now q }
    ensures waits { (m : InterfaceName) (q : ℕ)
        → waits parked.new m q
        ≡ (if is_same_interface name.now m then false else waits parked.old m q) }
{
    match parked.remove(name) {
        Some(positions) => positions,
        None => Seq::new(alloc),
    }
}

/// Adds the position of one that waits for this one.
fn park(
    alloc: Global,
    parked: &mut Parked,
    name: &InterfaceName,
    position: usize,
) -> Result<(), AllocError>
    ensures { OnOk result ((m : InterfaceName) (q : ℕ)
        → waits parked.new m q
        ≡ ((is_same_interface name.now m && nat_eq q position) || waits parked.old m q)) }
{
    let name_copy = name.try_clone(alloc)?;
    let mut positions = unpark(alloc, parked, name);
    positions.push(position)?;
    parked.insert(name_copy, positions)?;
    Ok(())
}

/// Adds these to the ones to be tried.
fn try_all(to_try: &mut BTreeSet<usize>, positions: &[usize]) -> Result<(), AllocError>
    ensures { OnOk result ((q : ℕ)
        → contains nat_cmp to_try.new q
        ≡ (contains nat_cmp to_try.old q || list_any (nat_eq q) positions.now)) }
{
    for position in positions {
        to_try.insert(*position)?;
    }
    Ok(())
}

/// Adds those that wait for this one to the ones to be tried.
fn wake(
    alloc: Global,
    to_try: &mut BTreeSet<usize>,
    parked: &mut Parked,
    name: &InterfaceName,
) -> Result<(), AllocError>
    ensures to_try { OnOk result ((q : ℕ)
        → contains nat_cmp to_try.new q
        ≡ (contains nat_cmp to_try.old q || waits parked.old name.now q)) }
    ensures waits { OnOk result ((m : InterfaceName) (q : ℕ)
        → waits parked.new m q
        ≡ (if is_same_interface name.now m then false else waits parked.old m q)) }
{
    let positions = unpark(alloc, parked, name);
    try_all(to_try, positions.as_slice())
}

impl Trials {
    /// All are to be tried.
    fn new(alloc: Global, count: usize) -> Result<Trials, AllocError>
        ensures checked { IfOk result (λ t. t.checked.items ≡ replicate count 0) }
        ensures to_try { IfOk result (λ t. (q : ℕ) → contains nat_cmp t.to_try q ≡ nat_lt q count) }
        ensures waits { IfOk result
            (λ t. (m : InterfaceName) (q : ℕ) → waits t.parked m q ≡ false) }
    {
        let mut to_try = BTreeSet::new(alloc);
        for position in 0..count {
            to_try.insert(position)?;
        }
        Ok(Trials {
            to_try,
            parked: HashMap::new(alloc),
            checked: vec![in alloc; 0; count]?,
        })
    }

    /// Whether an interface is ready. If it uses an interface that is not taken, it waits for that.
    fn try_at(
        &mut self,
        alloc: Global,
        taken: &Taken,
        all: &[Waiting],
        position: usize,
    ) -> Result<bool, AllocError>
        requires kept { Keeps all.now taken.now self.old }
        requires below { position < length all.now }
        ensures kept { OnOk result (Keeps all.now taken.now self.new) }
        ensures same { OnOk result (self.new.to_try ≡ self.old.to_try) }
        ensures ready { IfOk result (λ ready. (w : Waiting)
            → slice_get all.now position ≡ Some w
            → MatchBool ready (is_ready taken.now w ≡ true)
            (IsAway taken.now (waits self.new.parked) position w)) }
    {
        let waiting = &all[position];
        if taken.contains_key(&waiting.name) {
            return Ok(false);
        }
        let lacking = first_lacking(taken, waiting, self.checked[position]);
        self.checked[position] = lacking;
        match waiting.uses.as_slice().get(lacking) {
            Some(name) => {
                park(alloc, &mut self.parked, name, position)?;
                Ok(false)
            }
            None => Ok(true),
        }
    }

    /// The first that is ready. It is kept among those to be tried until it is taken.
    fn first_ready<'w>(
        &mut self,
        alloc: Global,
        taken: &Taken,
        all: &'w [Waiting],
    ) -> Result<Option<&'w Waiting>, AllocError>
        requires { Keeps all.now taken.now self.old }
        ensures kept { OnOk result (Keeps all.now taken.now self.new) }
        ensures first { IfOk result (λ w. option_copied w ≡ first_ready taken.now all.now) }
    {
        while let Some(first) = self.to_try.first() {
            let position = *first;
            if self.try_at(alloc, taken, all, position)? {
                return Ok(Some(&all[position]));
            }
            self.to_try.remove(&position);
        }
        Ok(None)
    }

    /// Takes one, and wakes those that wait for it.
    fn take(
        &mut self,
        alloc: Global,
        taken: &mut Taken,
        waiting: &Waiting,
    ) -> Result<(), AllocError>
        ensures taken { OnOk result (taken.new ≡ with_taken taken.old waiting.now) }
        ensures kept { OnOk result
            ((all : List Waiting) → Keeps all taken.old self.old → Keeps all taken.new self.new) }
    {
        wake(alloc, &mut self.to_try, &mut self.parked, &waiting.name)?;
        let name = waiting.name.try_clone(alloc)?;
        let key = waiting.key.try_clone(alloc)?;
        taken.insert_if_absent(name, key)?;
        Ok(())
    }
}

/// Takes all, each time the first whose uses are itself or taken. Returns whether all could be taken.
fn take_each(
    alloc: Global,
    all: &[Waiting],
    trials: &mut Trials,
    taken: &mut Taken,
) -> Result<bool, AllocError>
    requires { Keeps all.now taken.old trials.old }
    ensures { IfOk result
        (λ whole. (if whole then Some taken.new else None) ≡ taken_anew all.now taken.old all.now) }
{
    for _waiting in all {
        match trials.first_ready(alloc, taken, all)? {
            Some(waiting) => trials.take(alloc, taken, waiting)?,
            None => return Ok(false),
        }
    }
    Ok(true)
}

/// All taken, where that is possible. The only refusal is out of memory.
pub(crate) fn take_anew(alloc: Global, all: &[Waiting]) -> Result<Option<Taken>, AllocError>
    ensures { IfOk result (λ t. t ≡ taken_anew all.now [] all.now) }
{
    let mut taken = Keyed::new(alloc);
    let mut trials = Trials::new(alloc, all.len())?;
    if take_each(alloc, all, &mut trials, &mut taken)? {
        Ok(Some(taken))
    } else {
        Ok(None)
    }
}

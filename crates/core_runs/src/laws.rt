//! What the bodies do: each function's contract is a law, and its body does nothing.

ghost use Rattle.core_runs.specs.LawsOfInstances.{InstancesDefine, ShimsTrapAtFirst, SegmentsFill, FilledShimsForward};
ghost use Rattle.core_runs.specs.LawsOfRefInstances.{RefShimsAreUnfilled, RefShimsTrapAtFirst, FilledRefShimsForward};
ghost use Rattle.core_runs.specs.LawsOfStarts.{StartsAct, StartsFillFirst, DeedsAreTraced, FilledThroughout, NumbersAreRead, CellsAreSet, AddressesAreSums, DeedsAreNotStuck};
ghost use Rattle.core_runs.specs.Cells.{GettersRead, SettersWrite, TlsIsOneCell};
ghost use Rattle.core_runs.specs.LawsOfShims.{TableShimsForward, EmptyTableShimsTrap, RefShimsForward, StubsTrap, EmptyRefShimsTrap};
ghost use Rattle.core_runs.specs.LawsOfWrappers.{WrappersAct, ExpectedShapes, CallbacksAct, TargetsAreMet, ExpectedIsNotStuck};

/// A filled shim of the table form acts as the function in its slot: it passes on all parameters and
/// returns all results.
pub fn table_shims_forward()
    ensures { TableShimsForward }
{}

/// A shim of the table form whose slot is empty traps, with no event.
pub fn empty_table_shims_trap()
    ensures { EmptyTableShimsTrap }
{}

/// A shim of the reference form acts as the function that its global holds.
pub fn ref_shims_forward()
    ensures { RefShimsForward }
{}

/// A stub traps, with no event.
pub fn stubs_trap()
    ensures { StubsTrap }
{}

/// A shim of the reference form whose global still holds a stub traps, with no event.
pub fn empty_ref_shims_trap()
    ensures { EmptyRefShimsTrap }
{}

/// A wrapper acts as its bracket and its target say, whatever the arguments and the answers.
pub fn wrappers_act()
    ensures { WrappersAct }
{}

/// What is expected of a bracketed target, shape by shape.
pub fn expected_shapes()
    ensures { ExpectedShapes }
{}

/// A wrapper that reads a code calls hook 5 where it is 0, and otherwise hook 4, and returns the code.
pub fn callbacks_act()
    ensures { CallbacksAct }
{}

/// What is expected of a target is met by itself, by its wrapper, and through shims up to a depth of four.
pub fn targets_are_met()
    ensures { TargetsAreMet }
{}

/// A start function does the deeds that its steps mean, in order.
pub fn starts_act()
    ensures { StartsAct }
{}

/// A start function that begins with fills continues where all is filled and nothing else has changed:
/// fills make no event.
pub fn starts_fill_first()
    ensures { StartsFillFirst }
{}

/// Deeds make exactly their events, in order; a run that ends early has made those of the first few.
pub fn deeds_are_traced()
    ensures { DeedsAreTraced }
{}

/// After the fills everything is filled from the first event on, also in a run that ends early.
pub fn filled_throughout()
    ensures { FilledThroughout }
{}

/// A global of a generated module is read as it is, and one of a user takes an answer, with no event.
pub fn numbers_are_read()
    ensures { NumbersAreRead }
{}

/// A thread-local cell that a start function sets holds the number, with no event.
pub fn cells_are_set()
    ensures { CellsAreSet }
{}

/// An address is initialised to the sum of two globals: in a global, or in memory 0.
pub fn addresses_are_sums()
    ensures { AddressesAreSums }
{}

/// A function of a thread-local cell that reads it returns what it holds, with no event, and changes nothing.
pub fn getters_read()
    ensures { GettersRead }
{}

/// A function of a thread-local cell that sets it changes nothing else, with no event.
pub fn setters_write()
    ensures { SettersWrite }
{}

/// Over every list of calls the functions that read a thread-local cell, and those that set it, are
/// one cell, with no event.
pub fn tls_is_one_cell()
    ensures { TlsIsOneCell }
{}

/// What is expected of a bracketed target is never stuck.
pub fn expected_is_not_stuck()
    ensures { ExpectedIsNotStuck }
{}

/// Before their table is filled the shims of an instance trap, with no event, whatever else is instantiated.
pub fn shims_trap_at_first()
    ensures { ShimsTrapAtFirst }
{}

/// An element segment of another instance fills the table of the shims, from slot 0 on.
pub fn segments_fill()
    ensures { SegmentsFill }
{}

/// Where the slots of the table hold these functions, each shim of the instance acts as its function.
pub fn filled_shims_forward()
    ensures { FilledShimsForward }
{}

/// Deeds that can be done are never stuck.
pub fn deeds_are_not_stuck()
    ensures { DeedsAreNotStuck }
{}

/// An instance has the functions of its module, and they are kept, whatever is instantiated after it.
pub fn instances_define()
    ensures { InstancesDefine }
{}

/// Where an instance of shims in the reference form is made, each global holds its stub, and a start
/// function that begins with fills can fill them.
pub fn ref_shims_are_unfilled()
    ensures { RefShimsAreUnfilled }
{}

/// Before its global is filled each shim of that instance traps, with no event, whatever else is instantiated.
pub fn ref_shims_trap_at_first()
    ensures { RefShimsTrapAtFirst }
{}

/// Where the global of a shim of that instance holds a function, the shim acts as that function.
pub fn filled_ref_shims_forward()
    ensures { FilledRefShimsForward }
{}

//! Steps of start functions.

use crate::bracket::TaskHook;

/// A global of the module that gets a reference to one of its functions, by their indices.
#[derive(Clone, Copy, PartialEq, Eq, Debug)]
pub struct GlobalFill {
    pub global: u32,
    pub function: u32,
}

/// A step of a start function, with indices of its module.
#[derive(Clone, Copy, PartialEq, Eq, Debug)]
pub enum StartStep {
    /// A global gets a reference to a function.
    Fill {
        global: u32,
        function: u32,
    },
    /// A function with no parameters and no results is called.
    Thunk(u32),
    /// A task hook is called.
    Hook {
        hook: u32,
        moment: TaskHook,
    },
    /// A global gets the sum of two others, all `i32`: the base of a library in memory, and the offset
    /// of an item from it.
    AddressToGlobal {
        base: u32,
        offset: u32,
        global: u32,
    },
    /// The same sum is stored at an address of memory 0.
    AddressToMemory {
        base: u32,
        offset: u32,
        address: u32,
    },
}

//! Task hooks: the moments at which one is called, and which ones are called round a function.
//!
//! A task hook is a function of one `i32` that reports to a host at which point of a task the guest is.

ghost use Rattle.std.specs.Prelude.{◌≡◌, pos, Some};
ghost use Rattle.core_runs.specs.Hooks.{hook_number, around, bracket_of};
ghost use Rattle.core_runs.specs.declared.bracket.AfterHook.TheVariants.{Always, ByStatus};

/// The moments at which a task hook is called, by the numbers that it is given.
#[derive(Clone, Copy, PartialEq, Eq, Debug)]
pub enum TaskHook {
    SyncStart = 0,
    SyncFinish = 1,
    AsyncStart = 2,
    AsyncResume = 3,
    AsyncBlock = 4,
    AsyncFinish = 5,
    InitializeStart = 6,
    InitializeFinish = 7,
    ResourceDtorStart = 8,
    ResourceDtorFinish = 9,
    ReallocStart = 12,
    ReallocFinish = 13,
}

impl TaskHook {
    /// The number that the hook is given.
    pub fn number(self) -> i32
        ensures { result ≡ pos (hook_number self) }
    {
        self as i32
    }
}

/// Which hook comes after a call: none, one, or one by the code that the call returns: `AsyncFinish`
/// where it is 0, and otherwise `AsyncBlock`.
#[derive(Clone, Copy, PartialEq, Eq, Debug)]
pub enum AfterHook {
    Nothing,
    Always(TaskHook),
    ByStatus,
}

/// The hooks round a wrapped function.
#[derive(Clone, Copy, PartialEq, Eq, Debug)]
pub struct Bracket {
    pub before: Option<TaskHook>,
    pub after: AfterHook,
}

/// What is wrapped where there is a task hook. An entry is the core function of a lift; one with a
/// post-return is still running when its results are read, and ends with the post-return.
#[derive(Clone, Copy, PartialEq, Eq, Debug)]
pub enum Bracketed {
    SyncEntry,
    SyncEntryWithPostReturn,
    PostReturn,
    AsyncEntryWithCallback,
    Callback,
    StackfulEntry,
    Destructor,
    Realloc,
}

impl Bracketed {
    /// The hooks round it.
    pub fn bracket(self) -> Bracket
        ensures { result ≡ bracket_of self }
    {
        match self {
            Bracketed::SyncEntry => between(TaskHook::SyncStart, TaskHook::SyncFinish),
            Bracketed::SyncEntryWithPostReturn => Bracket {
                before: Some(TaskHook::SyncStart),
                after: AfterHook::Nothing,
            },
            Bracketed::PostReturn => Bracket {
                before: None,
                after: AfterHook::Always(TaskHook::SyncFinish),
            },
            Bracketed::AsyncEntryWithCallback => by_status(TaskHook::AsyncStart),
            Bracketed::Callback => by_status(TaskHook::AsyncResume),
            Bracketed::StackfulEntry => between(TaskHook::AsyncStart, TaskHook::AsyncFinish),
            Bracketed::Destructor => {
                between(TaskHook::ResourceDtorStart, TaskHook::ResourceDtorFinish)
            }
            Bracketed::Realloc => between(TaskHook::ReallocStart, TaskHook::ReallocFinish),
        }
    }
}

/// A hook before the call, and one after it.
fn between(first: TaskHook, last: TaskHook) -> Bracket
    ensures { result ≡ around (Some first) (Always last) }
{
    Bracket {
        before: Some(first),
        after: AfterHook::Always(last),
    }
}

/// A hook before the call, and one after it by the code that it returns.
fn by_status(first: TaskHook) -> Bracket
    ensures { result ≡ around (Some first) ByStatus }
{
    Bracket {
        before: Some(first),
        after: AfterHook::ByStatus,
    }
}

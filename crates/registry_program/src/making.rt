//! Where a new store is made, by what stands at its name and at that of its log.

ghost use Rattle.std.specs.Prelude.{MatchBool};
ghost use Rattle.registry_program.specs.Making.{HasNoCommit, IsBlankFile, IsReasonFor};

/// The least length of a log that may hold a commit: its header has 32 bytes, and the header of
/// a frame has 24.
const LEAST_LOG: u64 = 56;

/// What stands at a name in a folder.
#[derive(Clone, Copy, Debug, PartialEq, Eq)]
pub enum Standing {
    /// Nothing.
    Nothing,
    /// A file, with the number of its bytes.
    File(u64),
    /// A link, a folder or a device.
    Other,
}

/// What is done before the store at a name is opened that may be made.
#[derive(Clone, Copy, Debug, PartialEq, Eq)]
pub enum Making {
    /// A new store is made.
    Make,
    /// What stands there stays as it is, for the engine to open.
    Leave,
    /// Nothing is made or opened: the log may hold commits of a file that is gone, and the engine
    /// would drop them.
    Refuse,
}

/// Returns whether a store may be made at a name where this stands: nothing, or a file without
/// bytes.
pub fn is_blank(standing: Standing) -> bool
    ensures { MatchBool result (IsBlankFile standing) (IsBlankFile standing → ⊥) }
{
    match standing {
        Standing::Nothing => true,
        Standing::File(length) => length == 0,
        Standing::Other => false,
    }
}

/// Returns whether what stands at the name of a log holds no commit.
fn has_no_commit(standing: Standing) -> bool
    ensures { MatchBool result (HasNoCommit standing) (HasNoCommit standing → ⊥) }
{
    match standing {
        Standing::Nothing => true,
        Standing::File(length) => length < LEAST_LOG,
        Standing::Other => false,
    }
}

/// Returns what is done before a store is opened that may be made, by what stands at its name and
/// at that of its log. A new store never takes the place of a file with bytes, a link, a folder or a
/// device.
pub fn making_of(store: Standing, log: Standing) -> Making
    ensures { IsReasonFor store log result }
{
    if !is_blank(store) {
        return Making::Leave;
    }
    if has_no_commit(log) {
        Making::Make
    } else {
        Making::Refuse
    }
}

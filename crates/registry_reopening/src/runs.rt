//! A run whose replies go to a list.

ghost use Rattle.std.specs.Prelude.{◌≡◌, ◌≢◌, ◌≤◌, ◌⊎◌, true, false, [], length, drop, Some, None, IfSome};
ghost use Rattle.sqlite.specs.State.{HasCleanDisk};
ghost use Rattle.registry_rules.specs.History.{History};
ghost use Rattle.registry_rules.specs.Run.{Legal, after};
ghost use Rattle.registry_store.specs.Promise.{Endures, NotesForeign, is_poisoned, poisoned_by, state_of};
ghost use Rattle.registry_store.specs.Run.{HasAnsweredNone, NameOneOrganisation};
ghost use Rattle.registry_reopening.specs.Runs.{EndsRun};

use registry_rules::{Reply, Request};
use registry_store::{Fault, Registry, RunStop};
use sqlite::Alter;
use std::alloc::Global;

/// The replies of a run, and the fault that ended it early, if any.
#[derive(Drop)]
pub struct RunEnd {
    /// The replies, in the order of the requests.
    pub replies: Vec<Reply>,
    /// The fault that ended the run early, if any.
    pub fault: Option<Fault>,
}

/// Acts on the requests in order, from the first unanswered one on, up to the first fault.
///
/// Takes room for all replies first. If out of memory there, it acts on no request, the fault
/// is `Fault::NoMemory` and the registry is not poisoned. After any other fault, reopen the files
/// and go on with `answered` increased by the number of replies.
pub fn run_from<S: Alter>(
    alloc: Global,
    registry: &mut Registry<S>,
    requests: &[Request],
    answered: usize,
) -> RunEnd
    requires { answered ≤ length requests.now }
    ensures when_poisoned { is_poisoned registry.old ≡ true → (result.fault ≡ Some Fault.Poisoned) × (result.replies.items ≡ []) × (registry.new ≡ registry.old) }
    ensures only_poisoned { result.fault ≡ Some Fault.Poisoned → is_poisoned registry.old ≡ true }
    ensures never_taken { result.fault ≢ Some Fault.Taken }
    ensures run { (h : History) → HasAnsweredNone registry.old h (drop answered requests.now) → HasCleanDisk (state_of registry.new)
        → EndsRun registry.new h (drop answered requests.now) result.replies.items result.fault }

    // A fault poisons the registry. If it does not, memory ran out before the first request.
    ensures ends { IfSome result.fault (λ fault. (is_poisoned registry.new ≡ true) ⊎ ((fault ≡ Fault.NoMemory) × (result.replies.items ≡ []) × (registry.new ≡ registry.old))) }
    ensures keeps_fault { is_poisoned registry.old ≡ false → IfSome result.fault (λ fault. (poisoned_by registry.new ≡ Some fault) ⊎ ((fault ≡ Fault.NoMemory) × (result.replies.items ≡ []) × (registry.new ≡ registry.old))) }
    ensures goes_on { result.fault ≡ None → is_poisoned registry.new ≡ false }
    ensures notes { NotesForeign registry.old registry.new result.fault }

    // A law of histories, for the one after the run: no number has two owners.
    ensures one_owner { (h : History) → Legal h → NameOneOrganisation (after h requests.now) }
    ensures nothing_left { answered ≡ length requests.now → is_poisoned registry.old ≡ false → (result.fault ≡ None) × (result.replies.items ≡ []) × (registry.new ≡ registry.old) }
    ensures endures { Endures (state_of registry.old) (state_of registry.new) }
{
    if registry.is_poisoned() {
        return RunEnd {
            replies: Vec::new(alloc),
            fault: Some(Fault::Poisoned),
        };
    }
    let Ok(mut replies) = Vec::with_capacity(alloc, requests.len() - answered) else {
        return RunEnd {
            replies: Vec::new(alloc),
            fault: Some(Fault::NoMemory),
        };
    };
    match registry.run_to(requests, answered, &mut replies) {
        Ok(()) => RunEnd {
            replies,
            fault: None,
        },
        Err(RunStop::Fault(fault)) => RunEnd {
            replies,
            fault: Some(fault),
        },
        // There is room for each reply, so this does not occur.
        Err(RunStop::Cut(_)) => RunEnd {
            replies,
            fault: Some(Fault::NoMemory),
        },
    }
}

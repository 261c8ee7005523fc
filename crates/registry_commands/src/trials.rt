//! Runs request lines over a registry in memory, founded anew each time.

ghost use Rattle.std.specs.Prelude.{◌≡◌, ◌⊎◌, ◌&&◌, ◌∷◌, [], ℕ, List, nat_le, codes, IfErr, IfOk};
ghost use Rattle.byte_streams.specs.Streams.{MayGive};
ghost use Rattle.usbnum_core.specs.Spans.{spans_have};
ghost use Rattle.registry_rules.specs.Texts.{AreSorted};
ghost use Rattle.registry_rules.specs.declared.founding.Founding.{Founding};
ghost use Rattle.registry_rules.specs.History.{founded};
ghost use Rattle.registry_store.specs.Promise.{Represents};
ghost use Rattle.registry_commands.specs.Ends.{ReceivesNothing, ends_of, output_of};
ghost use Rattle.registry_commands.specs.Failures.{IsOfInput, IsTooLong, PrintsFailure, TellsFailedReads};
ghost use Rattle.registry_commands.specs.Lines.{requests_in};
ghost use Rattle.registry_commands.specs.Trial.{IsOfStart, IsTrial, IsTrialOf};

use crate::apply::apply_lines;
use crate::messages::{Failure, fail, failure_of};
use crate::status::ExitStatus;
use byte_streams::{Sink, Source};
use registry_rules::{Curators, Founding, Licences};
use registry_store::Registry;
use sqlite::{Connection, MemStore};
use std::alloc::Global;
use usbnum_core::{NoMemory, Pid, Span, Spans, Text, TextRule, Vid};

/// Returns one of the trial's texts, which all obey their rules.
fn text<R: TextRule>(alloc: Global, text: &str) -> Result<Text<R>, NoMemory>
    ensures { IfOk result (λ own. own ≡ text.now) }
{
    match Text::new(alloc, text.as_bytes())? {
        Some(text) => Ok(text),
        None => Err(NoMemory),
    }
}

fn curators(alloc: Global) -> Result<Curators, NoMemory>
    ensures { IfOk result (AreSorted (codes "cora" ∷ [])) }
{
    let slugs = vec![in alloc; text(alloc, "cora")?]?;
    match Curators::new(slugs) {
        Some(curators) => Ok(curators),
        None => unreachable!(),
    }
}

fn licences(alloc: Global) -> Result<Licences, NoMemory>
    ensures { IfOk result (AreSorted (codes "MIT" ∷ codes "GPL-3.0-only" ∷ [])) }
{
    let titles = vec![in alloc; text(alloc, "MIT")?, text(alloc, "GPL-3.0-only")?]?;
    match Licences::new(titles) {
        Some(licences) => Ok(licences),
        None => unreachable!(),
    }
}

fn fixed(alloc: Global) -> Result<Spans, NoMemory>
    ensures { IfOk result (λ fixed. (n : ℕ) → spans_have fixed n ≡ (nat_le 1 n && nat_le n 16)) }
{
    let mut fixed = Spans::new(alloc);
    let (Some(first), Some(last)) = (Pid::new(1), Pid::new(16)) else {
        unreachable!();
    };
    let Some(span) = Span::new(first, last) else {
        unreachable!();
    };
    fixed.add(span)?;
    Ok(fixed)
}

/// Returns the founding of a trial.
pub fn trial_founding(alloc: Global) -> Result<Founding, NoMemory>
    ensures { IfOk result IsTrial }
{
    let Some(vendor) = Vid::new(0x1209) else {
        unreachable!();
    };
    Ok(Founding {
        vendor,
        name: text(alloc, "Shared products")?,
        curators: curators(alloc)?,
        licences: licences(alloc)?,
        fixed: fixed(alloc)?,
    })
}

/// Founds the registry of a trial in memory.
fn found_trial(alloc: Global) -> Result<Registry<MemStore>, Failure>
    ensures ok { IfOk result (λ it. (founding : Founding) × IsTrial founding × Represents it (founded founding)) }
    ensures err { IfErr result (λ failure. (failure ≡ Failure.Store) ⊎ (failure ≡ Failure.Memory)) }
{
    let Ok(founding) = trial_founding(alloc) else {
        return Err(Failure::Memory);
    };
    let Ok(conn) = Connection::open_in_memory(alloc) else {
        return Err(Failure::Memory);
    };
    match Registry::found(alloc, conn, &founding) {
        Ok(registry) => Ok(registry),
        Err((fault, conn)) => {
            drop(conn.into_store());
            Err(failure_of(fault))
        }
    }
}

/// Founds a registry in memory, acts on the request lines of a source as `apply_lines` does, and
/// returns the exit status. The registry is gone afterwards.
pub fn trial<R: Source, W: Sink, E: Sink>(
    alloc: Global,
    source: &mut R,
    output: &mut W,
    errors: &mut E,
) -> ExitStatus
    ensures { (bytes : List ℕ) × MayGive (R.remaining source.old) bytes
        × IsTrialOf (IsOfInput (R.failures source.old) (R.failures source.new) bytes) (requests_in bytes) (ends_of W.Sink E.Sink output.old output.new errors.old errors.new result)
        × (IsTooLong bytes → (result ≡ ExitStatus.Failed) × ReceivesNothing (output_of W.Sink output.old output.new) × PrintsFailure (IsOfStart (IsOfInput (R.failures source.old) (R.failures source.new) bytes)) (output_of E.Sink errors.old errors.new))
        × TellsFailedReads (result ≡ ExitStatus.Failed) (output_of E.Sink errors.old errors.new) (R.failures source.old) (R.failures source.new) bytes }
{
    let mut registry = match found_trial(alloc) {
        Ok(registry) => registry,
        Err(failure) => return fail(errors, failure),
    };
    let status = apply_lines(alloc, source, 0, &mut registry, output, errors);
    drop(registry.into_connection().into_store());
    status
}

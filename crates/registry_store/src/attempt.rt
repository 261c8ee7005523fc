//! One request in one transaction.

ghost use Rattle.std.specs.Prelude.{◌≡◌, ◌≢◌, ◌⊎◌, true, false, IsTrue, IfOk, IfErr, OnOk, OnErr, Err, List, ℕ};
ghost use Rattle.sqlite.specs.State.{HasCleanDisk, Survives};
ghost use Rattle.sqlite.specs.Held.{state};
ghost use Rattle.table_laws.specs.Inside.{CommitsNothing, GoesOn};
ghost use Rattle.registry_rules.specs.History.{History};
ghost use Rattle.registry_rules.specs.Verdict.{verdict, kept_under};
ghost use Rattle.registry_rules.specs.declared.deed.Deed.{Deed};
ghost use Rattle.registry_rules.specs.declared.verdict.Verdict.TheVariants as verdicts;
ghost use Rattle.registry_rules.specs.Reply.{act_text};
ghost use Rattle.registry_rules.specs.Run.{Legal, after_one, reply_to};
ghost use Rattle.registry_rules.specs.TotalsOf.{AreTotalsOf};
ghost use Rattle.registry_tables.specs.Calls.{KeepsAll};
ghost use Rattle.registry_tables.specs.Finds.{Finds, ReadsHistoryOpen};
ghost use Rattle.registry_tables.specs.Rows.{HoldsRows, newest};
ghost use Rattle.registry_store.specs.Promise.{IsLegalWith, IsAt};
ghost use Rattle.registry_store.specs.Attempt.{AddsNoDeed, Answered, AsksIfNew, CommitsOne, IfNew, ShowsAfter, Wrote, WroteRows, new_answer};
ghost use Rattle.registry_store.specs.Witness.{Hears, WasSeen};

use crate::witness::Witness;
use registry_rules::{
    Deed, KeptReply, Reply, ReplyText, Request, Totals, Verdict, changes, judge, reply_text,
    settled,
};
use registry_tables::{Summary, TableFault, commit, facts_for, keep_reply, kept_reply, store};
use sqlite::{Alter, Connection, Transaction};
use std::alloc::Global;
use usbnum_core::NoMemory;

/// Returns the verdict on a request whose key and caller alone do not decide it.
fn judged_by_facts<S: Alter>(
    alloc: Global,
    tx: &mut Transaction<'_, S>,
    totals: &Totals,
    request: &Request,
    kept: Option<KeptReply>,
) -> Result<Verdict, TableFault>
    ensures reads { ReadsHistoryOpen S.Store tx.old.conn tx.new.conn result (λ h found. kept ≡ kept_under h request.now.caller request.now.key → AreTotalsOf h totals.now → found ≡ verdict h request.now) }
{
    let facts = facts_for(alloc, tx, totals, request, kept)?;
    let Ok(verdict) = judge(alloc, &facts, request) else {
        return Err(TableFault::NoMemory);
    };
    Ok(verdict)
}

/// Returns the verdict on a request, from the row of its key, and from other rows only if that row
/// and the caller do not decide it.
pub(crate) fn judged<S: Alter>(
    alloc: Global,
    tx: &mut Transaction<'_, S>,
    totals: &Totals,
    request: &Request,
) -> Result<Verdict, TableFault>
    ensures same_reference { tx.new.conn.ghost_name ≡ tx.old.conn.ghost_name }
    ensures found { HasCleanDisk (state S.Store tx.new.conn.now) → IsTrue (state S.Store tx.old.conn.now).in_transaction
        → Finds (state S.Store tx.old.conn.now) (state S.Store tx.new.conn.now) result (λ h found. AreTotalsOf h totals.now → found ≡ verdict h request.now) }
    ensures survives { CommitsNothing (state S.Store tx.old.conn.now) (state S.Store tx.new.conn.now) }
{
    let kept = kept_reply(alloc, tx, request)?;
    match settled(alloc, kept.as_ref(), totals.founding(), request) {
        Ok(Some(verdict)) => Ok(verdict),
        Ok(None) => judged_by_facts(alloc, tx, totals, request, kept),
        Err(NoMemory) => Err(TableFault::NoMemory),
    }
}

/// Writes the rows of a deed and its reply in the transaction, then asks the witness, and then updates
/// the summary. If the witness did not see the request, the summary is as before. After a fault the
/// totals may be those after the deed.
fn write<S: Alter, W: Witness>(
    alloc: Global,
    tx: &mut Transaction<'_, S>,
    summary: &mut Summary,
    request: &Request,
    deed: &Deed,
    reply: &ReplyText,
    witness: &mut W,
) -> Result<Result<(), W::Why>, TableFault>
    requires { reply.now ≡ act_text deed.now.act }
    ensures same_reference { tx.new.conn.ghost_name ≡ tx.old.conn.ghost_name }
    ensures ok { HasCleanDisk (state S.Store tx.new.conn.now) → IsTrue (state S.Store tx.old.conn.now).in_transaction → IsTrue (state S.Store tx.old.conn.now).is_open
        → IfOk result (λ it. OnOk it (Wrote (state S.Store tx.old.conn.now) (state S.Store tx.new.conn.now) summary.old summary.new request.now deed.now)) }
    ensures goes_on { HasCleanDisk (state S.Store tx.new.conn.now) → IsTrue (state S.Store tx.old.conn.now).in_transaction → IsTrue (state S.Store tx.old.conn.now).is_open
        → OnOk result (GoesOn (state S.Store tx.old.conn.now) (state S.Store tx.new.conn.now)) }
    ensures unseen { IfOk result (λ it. OnErr it (summary.new ≡ summary.old)) }
    ensures heard { Hears W.saw W.missed witness.old witness.new request.now (act_text deed.now.act) result }
    // The rows are written once the witness is asked.
    ensures late { HasCleanDisk (state S.Store tx.new.conn.now) → IsTrue (state S.Store tx.old.conn.now).in_transaction → IsTrue (state S.Store tx.old.conn.now).is_open
        → (witness.new ≡ witness.old) ⊎ WroteRows (state S.Store tx.old.conn.now) (state S.Store tx.new.conn.now) summary.old request.now deed.now }
    ensures kind { result ≢ Err TableFault.Foreign }
    ensures survives { CommitsNothing (state S.Store tx.old.conn.now) (state S.Store tx.new.conn.now) }
{
    let Ok(changes) = changes(alloc, deed) else {
        return Err(TableFault::NoMemory);
    };
    store(alloc, tx, changes.as_slice())?;
    let head = keep_reply(alloc, tx, &summary.head, request, &deed.act, reply)?;
    if let Err(why) = witness.see(request, reply) {
        return Ok(Err(why));
    }
    let Ok(()) = summary.totals.carry(deed) else {
        return Err(TableFault::NoMemory);
    };
    summary.head = head;
    Ok(Ok(()))
}

/// The reply to a request, and whether the request is accepted and new, so that there are rows to commit.
#[derive(Drop)]
struct Answer {
    reply: Reply,
    is_new: bool,
}

/// Writes the rows of a deed and its reply in the transaction, asks the witness, and returns the
/// reply, or why the witness did not see it. After a fault the totals may be those after the deed.
fn accept<S: Alter, W: Witness>(
    alloc: Global,
    tx: &mut Transaction<'_, S>,
    summary: &mut Summary,
    request: &Request,
    deed: &Deed,
    witness: &mut W,
) -> Result<Result<Answer, W::Why>, TableFault>
    ensures same_reference { tx.new.conn.ghost_name ≡ tx.old.conn.ghost_name }
    ensures ok { HasCleanDisk (state S.Store tx.new.conn.now) → IsTrue (state S.Store tx.old.conn.now).in_transaction → IsTrue (state S.Store tx.old.conn.now).is_open
        → IfOk result (λ it. OnOk it (Wrote (state S.Store tx.old.conn.now) (state S.Store tx.new.conn.now) summary.old summary.new request.now deed.now)) }
    ensures goes_on { HasCleanDisk (state S.Store tx.new.conn.now) → IsTrue (state S.Store tx.old.conn.now).in_transaction → IsTrue (state S.Store tx.old.conn.now).is_open
        → OnOk result (GoesOn (state S.Store tx.old.conn.now) (state S.Store tx.new.conn.now)) }
    ensures unseen { IfOk result (λ it. OnErr it (summary.new ≡ summary.old)) }
    ensures heard { Hears W.saw W.missed witness.old witness.new request.now (act_text deed.now.act) result }
    // The rows are written once the witness is asked.
    ensures late { HasCleanDisk (state S.Store tx.new.conn.now) → IsTrue (state S.Store tx.old.conn.now).in_transaction → IsTrue (state S.Store tx.old.conn.now).is_open
        → (witness.new ≡ witness.old) ⊎ WroteRows (state S.Store tx.old.conn.now) (state S.Store tx.new.conn.now) summary.old request.now deed.now }
    ensures answer { IfOk result (λ it. IfOk it (λ answer. answer ≡ new_answer deed.now)) }
    ensures kind { result ≢ Err TableFault.Foreign }
    ensures survives { CommitsNothing (state S.Store tx.old.conn.now) (state S.Store tx.new.conn.now) }
{
    let Ok(reply) = reply_text(alloc, deed) else {
        return Err(TableFault::NoMemory);
    };
    match write(alloc, tx, summary, request, deed, &reply, witness)? {
        Ok(()) => Ok(Ok(Answer {
            reply: Reply::Done(reply),
            is_new: true,
        })),
        Err(why) => Ok(Err(why)),
    }
}

/// Judges a request in the transaction. If it is accepted and new, writes the rows of its deed and its
/// reply, and asks the witness. After a fault the totals may be those after the deed.
fn act_on<S: Alter, W: Witness>(
    alloc: Global,
    tx: &mut Transaction<'_, S>,
    summary: &mut Summary,
    request: &Request,
    witness: &mut W,
) -> Result<Result<Answer, W::Why>, TableFault>
    ensures same_reference { tx.new.conn.ghost_name ≡ tx.old.conn.ghost_name }
    ensures ok { HasCleanDisk (state S.Store tx.new.conn.now) → IsTrue (state S.Store tx.old.conn.now).in_transaction
        → IfOk result (λ it. IfOk it (Answered (state S.Store tx.old.conn.now) (state S.Store tx.new.conn.now) summary.old summary.new request.now)) }
    ensures goes_on { HasCleanDisk (state S.Store tx.new.conn.now) → IsTrue (state S.Store tx.old.conn.now).in_transaction
        → OnOk result (GoesOn (state S.Store tx.old.conn.now) (state S.Store tx.new.conn.now)) }
    ensures unseen { IfOk result (λ it. OnErr it (summary.new ≡ summary.old)) }
    ensures missed { IfOk result (λ it. IfErr it (λ why. (text : List ℕ) × W.missed witness.old witness.new request.now text why)) }
    ensures seen { IfOk result (λ it. IfOk it (IfNew (WasSeen W.saw witness.old witness.new request.now))) }
    ensures asked { HasCleanDisk (state S.Store tx.new.conn.now) → IsTrue (state S.Store tx.old.conn.now).in_transaction
        → AsksIfNew witness.old witness.new (state S.Store tx.old.conn.now) summary.old request.now (λ deed. Hears W.saw W.missed witness.old witness.new request.now (act_text deed.act) result) }
    ensures late { HasCleanDisk (state S.Store tx.new.conn.now) → IsTrue (state S.Store tx.old.conn.now).in_transaction
        → (witness.new ≡ witness.old) ⊎ ShowsAfter (state S.Store tx.old.conn.now) (state S.Store tx.new.conn.now) summary.old request.now }
    ensures foreign { HasCleanDisk (state S.Store tx.new.conn.now) → IsTrue (state S.Store tx.old.conn.now).in_transaction
        → result ≡ Err TableFault.Foreign → IsTrue (state S.Store tx.old.conn.now).is_open × ((h : History) → Legal h → ¬ HoldsRows newest (state S.Store tx.old.conn.now).now h) }
    ensures survives { CommitsNothing (state S.Store tx.old.conn.now) (state S.Store tx.new.conn.now) }
{
    match judged(alloc, tx, &summary.totals, request)? {
        Verdict::Kept(text) => Ok(Ok(Answer {
            reply: Reply::Done(text),
            is_new: false,
        })),
        Verdict::Refused(refusal) => Ok(Ok(Answer {
            reply: Reply::Refused(refusal),
            is_new: false,
        })),
        Verdict::New(deed) => accept(alloc, tx, summary, request, &deed, witness),
    }
}

/// Acts on one request in one transaction: one commit if the request is accepted, new and seen by the
/// witness, otherwise none.
pub(crate) fn attempt<S: Alter, W: Witness>(
    alloc: Global,
    conn: &mut Connection<S>,
    summary: &mut Summary,
    request: &Request,
    witness: &mut W,
) -> Result<Result<Reply, W::Why>, TableFault>
    requires { conn.old.in_transaction ≡ false }
    ensures idle { conn.new.in_transaction ≡ false }
    ensures answered { HasCleanDisk (state S.Store conn.new) → IfOk result (λ it. IfOk it (λ reply. (h : History) → IsLegalWith summary.old h → IsAt newest (state S.Store conn.old) h
        → (reply ≡ reply_to h request.now) × IsLegalWith summary.new (after_one h request.now) × IsAt newest (state S.Store conn.new) (after_one h request.now))) }
    ensures open { HasCleanDisk (state S.Store conn.new) → IfOk result (λ it. OnOk it ((h : History) (deed : Deed) → IsLegalWith summary.old h → IsAt newest (state S.Store conn.old) h
        → verdict h request.now ≡ verdicts.New deed → IsTrue (state S.Store conn.new).is_open)) }
    ensures foreign { HasCleanDisk (state S.Store conn.new) → result ≡ Err TableFault.Foreign → (h : History) → IsLegalWith summary.old h → IsAt newest (state S.Store conn.old) h → ⊥ }
    ensures survives { Survives (state S.Store conn.old) (state S.Store conn.new) (CommitsOne (state S.Store conn.old) summary.old request.now (WasSeen W.saw witness.old witness.new request.now)) }
    ensures no_deed { (h : History) → IsLegalWith summary.old h → IsAt newest (state S.Store conn.old) h → AddsNoDeed h request.now → CommitsNothing (state S.Store conn.old) (state S.Store conn.new) }

    // The witness is asked about a new request alone, and once.
    ensures asked { HasCleanDisk (state S.Store conn.new) → (h : History) → IsLegalWith summary.old h → IsAt newest (state S.Store conn.old) h
        → (witness.new ≡ witness.old) ⊎ ((deed : Deed) × (verdict h request.now ≡ verdicts.New deed) × Hears W.saw W.missed witness.old witness.new request.now (act_text deed.act) result) }
    ensures seen { HasCleanDisk (state S.Store conn.new) → IfOk result (λ it. OnOk it ((h : History) (deed : Deed) → IsLegalWith summary.old h → IsAt newest (state S.Store conn.old) h
        → verdict h request.now ≡ verdicts.New deed → W.saw witness.old witness.new request.now (act_text deed.act))) }

    // What was not seen leaves all as it was.
    ensures missed { IfOk result (λ it. IfErr it (λ why. (text : List ℕ) × W.missed witness.old witness.new request.now text why)) }
    ensures unseen { IfOk result (λ it. OnErr it ((summary.new ≡ summary.old) × CommitsNothing (state S.Store conn.old) (state S.Store conn.new))) }
    ensures stays { HasCleanDisk (state S.Store conn.new) → IfOk result (λ it. OnErr it (KeepsAll (state S.Store conn.old) (state S.Store conn.new))) }
{
    // For the proof only: the schema that the connection shows.
    let _schema = conn.schema();
    let mut tx = conn.transaction();
    let answer = match act_on(alloc, &mut tx, summary, request, witness)? {
        Ok(answer) => answer,
        Err(why) => return Ok(Err(why)),
    };
    if !answer.is_new {
        return Ok(Ok(answer.reply));
    }
    commit(tx)?;
    Ok(Ok(answer.reply))
}

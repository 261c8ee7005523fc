//! The checks of each kind of order, and its act if they pass.

ghost use Rattle.std.specs.Prelude.{◌≡◌, Ok};
ghost use Rattle.registry_rules.specs.Gives.{Gives};
ghost use Rattle.registry_rules.specs.OnFacts.{outcome_on};
ghost use Rattle.registry_rules.specs.Verdict.{new_petition};
ghost use Rattle.registry_rules.specs.declared.order.Order.TheVariants as orders;

use crate::checks::{
    check_curator, check_held, check_held_by_any, check_keeper, check_keeper_or_curator,
    check_known_keeper, check_licence, check_number, check_owned, check_petition, check_vendor,
    check_wanted, number_name,
};
use crate::importing::import;
use crate::limits::{MOST_LICENCES, MOST_OPEN, MOST_ORGS, MOST_PETITIONS, MOST_VENDORS};
use crate::span_checks::{release, reserve};
use crate::{
    Act, AddLicence, AddVendor, Amend, AmendOrg, Ask, Card, Correct, CorrectOrg, Decline, Enrol,
    Facts, Grant, HandOver, Order, Org, Petition, PetitionState, Refusal, Rejection, Return,
    Revoke, Withdraw,
};
use std::alloc::Global;
use usbnum_core::{Number, Slug, Vid};

/// Checks the order, and returns its act.
pub(crate) fn act_of(
    alloc: Global,
    facts: &Facts<'_>,
    caller: &Slug,
    order: &Order,
) -> Result<Act, Rejection<Refusal>>
    ensures { Gives result (outcome_on facts.now caller.now order.now) }
{
    match order {
        Order::Enrol(it) => enrol(facts, caller, it),
        Order::AmendOrg(it) => amend_org(facts, caller, it),
        Order::Ask(it) => ask(facts, caller, it),
        Order::Grant(it) => grant(facts, caller, it),
        Order::Decline(it) => decline(facts, caller, it),
        Order::Withdraw(it) => withdraw(facts, caller, it),
        Order::Amend(it) => amend(facts, caller, it),
        Order::Return(it) => give_back(facts, caller, it),
        Order::Reserve(it) => reserve(facts, caller, it),
        Order::Release(it) => release(facts, caller, it),
        Order::Import(it) => import(alloc, facts, caller, it),
        Order::AddVendor(it) => add_vendor(facts, caller, it),
        Order::AddLicence(it) => add_licence(facts, caller, it),
        Order::HandOver(it) => hand_over(facts, caller, it),
        Order::Correct(it) => correct(facts, caller, it),
        Order::CorrectOrg(it) => correct_org(facts, caller, it),
        Order::Revoke(it) => revoke(facts, caller, it),
    }
}

#[tactic(auto, unfolding(crate::specs::OnFacts::outcome_on))]
pub(crate) fn enrol(facts: &Facts<'_>, caller: &Slug, it: &Enrol) -> Result<Act, Rejection<Refusal>>
    ensures { Gives result (outcome_on facts.now caller.now (orders.Enrol it.now)) }
{
    if facts.org.is_some() {
        return Err(Rejection::Refused(Refusal::OrgTaken));
    }
    if facts.orgs >= MOST_ORGS {
        return Err(Rejection::Refused(Refusal::Full));
    }
    Ok(Act::Enrolled(Org {
        slug: it.org.clone()?,
        title: it.title.clone()?,
        site: it.site.clone()?,
        keeper: caller.clone()?,
    }))
}

#[tactic(auto, unfolding(crate::specs::OnFacts::outcome_on))]
pub(crate) fn amend_org(
    facts: &Facts<'_>,
    caller: &Slug,
    it: &AmendOrg,
) -> Result<Act, Rejection<Refusal>>
    ensures { Gives result (outcome_on facts.now caller.now (orders.AmendOrg it.now)) }
{
    let Some(org) = &facts.org else {
        return Err(Rejection::Refused(Refusal::NoOrg));
    };
    check_keeper(org, caller)?;
    Ok(Act::OrgAmended(Org {
        slug: org.slug.clone()?,
        title: it.title.clone()?,
        site: it.site.clone()?,
        keeper: org.keeper.clone()?,
    }))
}

fn new_petition(vid: Vid, it: &Ask) -> Result<Petition, Rejection<Refusal>>
    ensures { Gives result (Ok (new_petition vid it.now.org it.now.want it.now.title it.now.terms)) }
{
    Ok(Petition {
        vid,
        org: it.org.clone()?,
        want: it.want,
        title: it.title.clone()?,
        terms: it.terms.clone()?,
        state: PetitionState::Open,
    })
}

#[tactic(auto, unfolding(crate::specs::OnFacts::outcome_on))]
pub(crate) fn ask(facts: &Facts<'_>, caller: &Slug, it: &Ask) -> Result<Act, Rejection<Refusal>>
    ensures { Gives result (outcome_on facts.now caller.now (orders.Ask it.now)) }
{
    let vid = facts.vendor;
    let Some(known) = &facts.org else {
        return Err(Rejection::Refused(Refusal::NoOrg));
    };
    check_keeper(known, caller)?;
    check_vendor(facts, vid)?;
    check_licence(facts.founding, &it.terms.licence)?;
    if facts.open_count >= MOST_OPEN {
        return Err(Rejection::Refused(Refusal::TooManyOpen));
    }
    if facts.petitions >= MOST_PETITIONS {
        return Err(Rejection::Refused(Refusal::Full));
    }
    check_wanted(facts, vid, it.want, &it.org)?;
    Ok(Act::Asked {
        id: facts.petitions + 1,
        petition: new_petition(vid, it)?,
    })
}

#[tactic(auto, unfolding(crate::specs::OnFacts::outcome_on))]
pub(crate) fn grant(facts: &Facts<'_>, caller: &Slug, it: &Grant) -> Result<Act, Rejection<Refusal>>
    ensures { Gives result (outcome_on facts.now caller.now (orders.Grant it.now)) }
{
    check_curator(facts.founding, caller)?;
    let petition = check_petition(facts)?;
    let Some(pid) = it.number.or(petition.want).or(facts.least) else {
        return Err(Rejection::Refused(Refusal::NoneFree));
    };
    let number = Number {
        vid: petition.vid,
        pid,
    };
    check_number(facts, number, &petition.org)?;
    Ok(Act::Granted {
        id: it.petition,
        petition: petition.clone()?,
        name: number_name(facts.founding, &number),
    })
}

#[tactic(auto, unfolding(crate::specs::OnFacts::outcome_on))]
pub(crate) fn decline(
    facts: &Facts<'_>,
    caller: &Slug,
    it: &Decline,
) -> Result<Act, Rejection<Refusal>>
    ensures { Gives result (outcome_on facts.now caller.now (orders.Decline it.now)) }
{
    check_curator(facts.founding, caller)?;
    let petition = check_petition(facts)?;
    Ok(Act::Declined {
        id: it.petition,
        petition: petition.clone()?,
        reason: it.reason.clone()?,
    })
}

#[tactic(auto, unfolding(crate::specs::OnFacts::outcome_on))]
pub(crate) fn withdraw(
    facts: &Facts<'_>,
    caller: &Slug,
    it: &Withdraw,
) -> Result<Act, Rejection<Refusal>>
    ensures { Gives result (outcome_on facts.now caller.now (orders.Withdraw it.now)) }
{
    if facts.petition.is_none() {
        return Err(Rejection::Refused(Refusal::NoPetition));
    }
    check_known_keeper(facts, caller)?;
    let petition = check_petition(facts)?;
    Ok(Act::Withdrawn {
        id: it.petition,
        petition: petition.clone()?,
    })
}

#[tactic(auto, unfolding(crate::specs::OnFacts::outcome_on))]
pub(crate) fn amend(facts: &Facts<'_>, caller: &Slug, it: &Amend) -> Result<Act, Rejection<Refusal>>
    ensures { Gives result (outcome_on facts.now caller.now (orders.Amend it.now)) }
{
    let number = Number {
        vid: facts.vendor,
        pid: it.number,
    };
    check_held(facts, &number, caller)?;
    check_licence(facts.founding, &it.terms.licence)?;
    Ok(Act::CardAmended {
        name: number_name(facts.founding, &number),
        card: Card {
            title: it.title.clone()?,
            terms: Some(it.terms.clone()?),
        },
    })
}

#[tactic(auto, unfolding(crate::specs::OnFacts::outcome_on))]
pub(crate) fn give_back(
    facts: &Facts<'_>,
    caller: &Slug,
    it: &Return,
) -> Result<Act, Rejection<Refusal>>
    ensures { Gives result (outcome_on facts.now caller.now (orders.Return it.now)) }
{
    let number = Number {
        vid: facts.vendor,
        pid: it.number,
    };
    check_held(facts, &number, caller)?;
    let name = number_name(facts.founding, &number);
    Ok(Act::Returned { name })
}

#[tactic(auto, unfolding(crate::specs::OnFacts::outcome_on))]
pub(crate) fn add_vendor(
    facts: &Facts<'_>,
    caller: &Slug,
    it: &AddVendor,
) -> Result<Act, Rejection<Refusal>>
    ensures { Gives result (outcome_on facts.now caller.now (orders.AddVendor it.now)) }
{
    check_curator(facts.founding, caller)?;
    if facts.vendors.contains(it.vendor) {
        return Err(Rejection::Refused(Refusal::VendorTaken));
    }
    if facts.vendors.len() >= MOST_VENDORS {
        return Err(Rejection::Refused(Refusal::Full));
    }
    Ok(Act::VendorAdded {
        vendor: it.vendor,
        name: it.name.clone()?,
    })
}

#[tactic(auto, unfolding(crate::specs::OnFacts::outcome_on))]
pub(crate) fn add_licence(
    facts: &Facts<'_>,
    caller: &Slug,
    it: &AddLicence,
) -> Result<Act, Rejection<Refusal>>
    ensures { Gives result (outcome_on facts.now caller.now (orders.AddLicence it.now)) }
{
    check_curator(facts.founding, caller)?;
    if facts.founding.licences.contains(&it.licence) {
        return Err(Rejection::Refused(Refusal::LicenceTaken));
    }
    if facts.founding.licences.len() >= MOST_LICENCES {
        return Err(Rejection::Refused(Refusal::Full));
    }
    Ok(Act::LicenceAdded {
        licence: it.licence.clone()?,
    })
}

#[tactic(auto, unfolding(crate::specs::OnFacts::outcome_on))]
pub(crate) fn hand_over(
    facts: &Facts<'_>,
    caller: &Slug,
    it: &HandOver,
) -> Result<Act, Rejection<Refusal>>
    ensures { Gives result (outcome_on facts.now caller.now (orders.HandOver it.now)) }
{
    let Some(org) = &facts.org else {
        return Err(Rejection::Refused(Refusal::NoOrg));
    };
    check_keeper_or_curator(facts.founding, org, caller)?;
    Ok(Act::HandedOver(Org {
        slug: org.slug.clone()?,
        title: org.title.clone()?,
        site: org.site.clone()?,
        keeper: it.keeper.clone()?,
    }))
}

#[tactic(auto, unfolding(crate::specs::OnFacts::outcome_on))]
pub(crate) fn correct(
    facts: &Facts<'_>,
    caller: &Slug,
    it: &Correct,
) -> Result<Act, Rejection<Refusal>>
    ensures { Gives result (outcome_on facts.now caller.now (orders.Correct it.now)) }
{
    check_curator(facts.founding, caller)?;
    let number = Number {
        vid: facts.vendor,
        pid: it.number,
    };
    check_owned(facts, &number)?;
    check_licence(facts.founding, &it.terms.licence)?;
    Ok(Act::CardCorrected {
        name: number_name(facts.founding, &number),
        card: Card {
            title: it.title.clone()?,
            terms: Some(it.terms.clone()?),
        },
    })
}

#[tactic(auto, unfolding(crate::specs::OnFacts::outcome_on))]
pub(crate) fn correct_org(
    facts: &Facts<'_>,
    caller: &Slug,
    it: &CorrectOrg,
) -> Result<Act, Rejection<Refusal>>
    ensures { Gives result (outcome_on facts.now caller.now (orders.CorrectOrg it.now)) }
{
    check_curator(facts.founding, caller)?;
    let Some(org) = &facts.org else {
        return Err(Rejection::Refused(Refusal::NoOrg));
    };
    Ok(Act::OrgCorrected(Org {
        slug: org.slug.clone()?,
        title: it.title.clone()?,
        site: it.site.clone()?,
        keeper: org.keeper.clone()?,
    }))
}

#[tactic(auto, unfolding(crate::specs::OnFacts::outcome_on))]
pub(crate) fn revoke(
    facts: &Facts<'_>,
    caller: &Slug,
    it: &Revoke,
) -> Result<Act, Rejection<Refusal>>
    ensures { Gives result (outcome_on facts.now caller.now (orders.Revoke it.now)) }
{
    check_curator(facts.founding, caller)?;
    let number = Number {
        vid: facts.vendor,
        pid: it.number,
    };
    check_held_by_any(facts, &number)?;
    let name = number_name(facts.founding, &number);
    Ok(Act::Revoked { name })
}

//! Keys, and what a registry finds under each.

use registry_store::Registry;
use sqlite::Alter;
use std::alloc::Global;
use std::test::Fail;
use store_visits::values::slug;
use usbnum_core::{Number, Pid, Slug, Time, Vid};

/// Keys to look up, some of which exist.
#[derive(Drop)]
pub(crate) struct Keys {
    numbers: Vec<Number>,
    petitions: [u32; 4],
    slugs: Vec<Slug>,
}

/// Returns the keys.
pub(crate) fn some_keys(alloc: Global) -> Result<Keys, Fail> {
    let mut numbers = Vec::new(alloc);
    for (vid, pid) in [
        (0x1209, 0x10),
        (0x1209, 0x11),
        (0x1209, 0x12),
        (0x1209, 0x20ff),
        (0x1209, 0x2100),
        (0x1000, 1),
        (0x1000, 2),
        (0xcafe, 1),
    ] {
        numbers.push(Number {
            vid: Vid::new(vid).ok_or("no vendor")?,
            pid: Pid::new(pid).ok_or("no product")?,
        })?;
    }
    let mut slugs = Vec::new(alloc);
    slugs.push(slug(alloc, "acme")?)?;
    slugs.push(slug(alloc, "bolt")?)?;
    slugs.push(slug(alloc, "clock")?)?;
    Ok(Keys {
        numbers,
        petitions: [1, 2, 3, u32::MAX],
        slugs,
    })
}

fn add_number<S: Alter>(registry: &mut Registry<S>, vid: Vid, pid: Pid, text: &mut String) -> bool {
    let Ok(vendor) = registry.has_vendor(vid) else {
        return false;
    };
    let Ok(reserved) = registry.is_reserved(Number { vid, pid }) else {
        return false;
    };
    match registry.entry(Number { vid, pid }) {
        Ok(Some(entry)) => {
            let (org, held, title) = (&entry.org, entry.held, &entry.card.title);
            writeln!(text, "{vid}:{pid} {vendor} {reserved} {org} {held} {title}").is_ok()
        }
        Ok(None) => writeln!(text, "{vid}:{pid} {vendor} {reserved}").is_ok(),
        Err(_) => false,
    }
}

fn add_petition<S: Alter>(registry: &mut Registry<S>, id: u32, text: &mut String) -> bool {
    match registry.petition(id) {
        Ok(Some(petition)) => {
            let (vid, org, title) = (petition.vid, &petition.org, &petition.title);
            writeln!(text, "{id} {vid} {org} {title}").is_ok()
        }
        Ok(None) => writeln!(text, "{id}").is_ok(),
        Err(_) => false,
    }
}

fn add_reason<S: Alter>(registry: &mut Registry<S>, id: u32, text: &mut String) -> bool {
    match registry.reason(id) {
        Ok(Some(reason)) => writeln!(text, "declined: {reason}").is_ok(),
        Ok(None) => true,
        Err(_) => false,
    }
}

fn add_time(what: &str, time: Option<&Time>, text: &mut String) -> bool {
    match time {
        Some(time) => writeln!(text, "{what}: {time}").is_ok(),
        None => true,
    }
}

fn add_times<S: Alter>(registry: &mut Registry<S>, id: u32, text: &mut String) -> bool {
    match registry.petition_times(id) {
        Ok(times) => {
            add_time("opened", times.opened.as_ref(), text)
                && add_time("closed", times.closed.as_ref(), text)
        }
        Err(_) => false,
    }
}

fn add_org<S: Alter>(registry: &mut Registry<S>, slug: &Slug, text: &mut String) -> bool {
    match registry.org(slug) {
        Ok(Some(org)) => {
            let (title, keeper) = (&org.title, &org.keeper);
            writeln!(text, "{slug} {title}, {keeper}").is_ok()
        }
        Ok(None) => writeln!(text, "{slug}").is_ok(),
        Err(_) => false,
    }
}

/// Looks up each key, and adds what is found.
pub(crate) fn look_up<S: Alter>(
    registry: &mut Registry<S>,
    keys: &Keys,
    text: &mut String,
) -> bool {
    for number in &keys.numbers {
        if !add_number(registry, number.vid, number.pid, text) {
            return false;
        }
    }
    for id in keys.petitions {
        if !(add_petition(registry, id, text)
            && add_reason(registry, id, text)
            && add_times(registry, id, text))
        {
            return false;
        }
    }
    for slug in &keys.slugs {
        if !add_org(registry, slug, text) {
            return false;
        }
    }
    true
}

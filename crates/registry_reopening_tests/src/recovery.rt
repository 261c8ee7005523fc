//! A run, and the opening of the files that a crash left.

use registry_reopening::{Unopened, leave, open_files, run_and_recover};
use registry_rules::Request;
use registry_store::Registry;
use sqlite::{FileStore, Files};
use sqlite_disk::Disk;
use std::alloc::Global;
use std::process::Abort;
use std::test::Fail;
use store_visits::images::{Image, PLAIN, Stop, files_of};
use store_visits::listing::write_listing;
use store_visits::starts::{Start, image_at, plain_over};
use store_visits::steps::ENROL;
use store_visits::values::{founding, lines_of, requests_of};
use store_visits::visits::{Seen, unseen};

// Notes the lists of the registry that was found, if any.
fn note<D: Disk + Drop>(recovered: Result<Registry<FileStore<D>>, Unopened<D>>, seen: &mut Seen) {
    if let Ok(mut registry) = recovered {
        seen.is_open = write_listing(&mut registry, &mut seen.lists);
        drop(leave(registry));
    }
}

fn recover_in<D: Disk + Drop>(
    alloc: Global,
    first: Registry<FileStore<D>>,
    requests: &[Request],
    found: Files<D>,
    seen: &mut Seen,
) {
    if found.may_be_used() {
        let (abandoned, recovered) = run_and_recover(alloc, first, requests, found, PLAIN);
        seen.replies = abandoned.run.replies;
        note(recovered, seen);
    } else {
        drop(found);
        drop(leave(first));
    }
}

// Acts on the requests over files with these contents, and opens files with the other contents.
fn recover_over<D: Disk + Drop>(
    alloc: Global,
    files: Files<D>,
    requests: &[Request],
    found: Files<D>,
    seen: &mut Seen,
) {
    if !files.may_be_used() {
        return;
    }
    if let Ok(first) = open_files(alloc, files, PLAIN) {
        recover_in(alloc, first, requests, found, seen);
    }
}

fn recovered(
    alloc: Global,
    image: &Image,
    requests: &[Request],
    found: &Image,
) -> Result<Seen, Fail> {
    let mut seen = unseen(alloc);
    let files = files_of(alloc, image, Stop::NEVER)?;
    let found = files_of(alloc, found, Stop::NEVER)?;
    recover_over(alloc, files, requests, found, &mut seen);
    Ok(seen)
}

// The files are found as a process leaves them that stopped after the run.
#[test]
fn a_run_is_found_in_the_files_that_it_left(rt: HostRuntime) -> Result<(), Fail> {
    let alloc = rt.alloc();
    let founding = founding(alloc)?;
    let requests = requests_of(alloc, &[ENROL])?;
    let image = image_at(alloc, Start::Closed, &founding, &[])?;
    let found = image_at(alloc, Start::WithLog, &founding, requests.as_slice())?;
    let plain = image_at(alloc, Start::Closed, &founding, &[])?;
    let plain = plain_over(alloc, plain, requests.as_slice())?;
    let seen = recovered(alloc, &image, requests.as_slice(), &found)?;
    let mut text = lines_of(alloc, seen.replies.as_slice())?;
    text.push_str(seen.lists.as_str())?;
    let mut wanted = String::new(alloc);
    wanted.push_str(plain.replies.as_str())?;
    wanted.push_str(plain.lists.last().ok_or("no lists")?.as_str())?;
    assert_eq!(rt; text.as_str(), wanted.as_str());
    Ok(())
}

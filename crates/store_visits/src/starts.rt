//! What files hold when a test begins, and the run that its own is compared with.

use crate::images::{COPYING, Fate, Image, Stop, Stops, nothing};
use crate::values::lines_of;
use crate::visits::{Entry, Seen, Visit, Visited, carry_out};
use registry_rules::{Founding, Request};
use std::alloc::Global;
use std::test::Fail;

/// What files hold.
#[derive(Clone, Copy)]
pub enum Start {
    Nothing,
    /// A registry that acted on requests and was closed.
    Closed,
    /// The same as a process leaves it, with the requests in the log.
    WithLog,
    /// The same as a process leaves it that stopped at the last call before the second reply, with
    /// part of its commit.
    WithPart,
    /// A store that these statements make.
    Older(&'static [&'static str]),
}

fn founded(alloc: Global, founding: &Founding) -> Result<Image, Fail> {
    let mut founds = Visit::of(Entry::Found(founding), &[]);
    founds.closes = true;
    Ok(carry_out(alloc, &nothing(alloc), Stop::NEVER, &founds)?.left)
}

fn made(alloc: Global, batches: &[&str]) -> Result<Image, Fail> {
    let mut makes = Visit::of(Entry::Make(batches), &[]);
    makes.closes = true;
    Ok(carry_out(alloc, &nothing(alloc), Stop::NEVER, &makes)?.left)
}

fn after(
    alloc: Global,
    founding: &Founding,
    requests: &[Request],
    closes: bool,
) -> Result<Image, Fail> {
    let mut acts = Visit::of(Entry::Open, requests);
    acts.closes = closes;
    Ok(carry_out(alloc, &founded(alloc, founding)?, Stop::NEVER, &acts)?.left)
}

fn with_part(alloc: Global, founding: &Founding, requests: &[Request]) -> Result<Image, Fail> {
    let image = founded(alloc, founding)?;
    let acts = Visit::of(Entry::Open, requests);
    let mut left = nothing(alloc);
    let mut stop = Stop {
        file: Stops::Log,
        fate: Fate::Exit,
        calls: 0,
    };
    for step in [64, 32, 16, 8, 4, 2, 1] {
        let further = Stop {
            calls: stop.calls.saturating_add(step),
            ..stop
        };
        let visited = carry_out(alloc, &image, further, &acts)?;
        if visited.seen.replies.len() < 2 {
            stop = further;
            left = visited.left;
        }
    }
    Ok(left)
}

/// Returns what files hold that a registry with this founding left, or a store was made in.
pub fn image_at(
    alloc: Global,
    start: Start,
    founding: &Founding,
    before: &[Request],
) -> Result<Image, Fail> {
    match start {
        Start::Nothing => Ok(nothing(alloc)),
        Start::Closed => after(alloc, founding, before, true),
        Start::WithLog => after(alloc, founding, before, false),
        Start::WithPart => with_part(alloc, founding, before),
        Start::Older(batches) => made(alloc, batches),
    }
}

/// A run without stops.
#[derive(Drop)]
pub struct Plain {
    /// The lists of the registry before the first request, and after each.
    pub lists: Vec<String>,
    /// The replies as lines.
    pub replies: String,
    pub rows: String,
}

/// Opens the files, shows them, and acts on the requests from the first unanswered one on.
pub fn go_on(
    alloc: Global,
    image: &Image,
    requests: &[Request],
    answered: usize,
) -> Result<Visited, Fail> {
    let mut looks = Visit::of(Entry::Open, requests);
    looks.options = COPYING;
    looks.looks = true;
    looks.answered = answered;
    carry_out(alloc, image, Stop::NEVER, &looks)
}

/// Returns the results of a run over files with these contents, which do not stop.
pub fn plain_over(alloc: Global, image: Image, requests: &[Request]) -> Result<Plain, Fail> {
    let mut image = image;
    let mut lists = Vec::new(alloc);
    let mut all = String::new(alloc);
    let mut last = String::new(alloc);
    for count in 0..=requests.len() {
        let (acted, _) = requests.split_at(usize::min(count.saturating_add(1), requests.len()));
        let Visited { seen, left, .. } = go_on(alloc, &image, acted, count)?;
        let Seen {
            lists: listed,
            replies,
            rows,
            ..
        } = seen;
        lists.push(listed)?;
        all.push_str(lines_of(alloc, replies.as_slice())?.as_str())?;
        last = rows;
        image = left;
    }
    Ok(Plain {
        lists,
        replies: all,
        rows: last,
    })
}

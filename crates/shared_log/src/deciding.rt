//! What a log does with an append, and what it shows of its lines.

ghost use Rattle.std.specs.Prelude.{◌≡◌, ◌≤◌, ◌++◌, ℕ, List, [], false, drop, length, slice_get, IfNone, IfOk, IfSome, OnErr};
ghost use Rattle.shared_log.specs.Calls.{AppendMeans, IsLogHead, IsLogPage};

use crate::answers::{AppendAnswer, HeadAnswer, PageAnswer};
use crate::line::{Line, Lines};
use std::alloc::Global;
use usbnum_core::NoMemory;

// Returns line n, if it is there.
fn line_at(lines: &[Line], n: usize) -> Result<Option<Line>, NoMemory>
    ensures same { IfOk result (λ found. found ≡ slice_get lines.now n) }
    ensures past { IfOk result (λ found. IfNone found (length lines.now ≤ n)) }
{
    match lines.get(n) {
        Some(line) => Ok(Some(line.clone()?)),
        None => Ok(None),
    }
}

// Puts a line behind the others, if it is the next one. If memory runs out, the lines stay as they were.
#[tactic(auto, using(crate::proofs::CallLemmas::was_appended, crate::proofs::CallLemmas::was_taken, crate::proofs::CallLemmas::was_behind))]
pub(crate) fn decide(
    alloc: Global,
    lines: &mut Lines,
    n: u32,
    line: &[u8],
) -> Result<AppendAnswer, NoMemory>
    ensures ok { IfOk result (λ answer. AppendMeans n line.now answer lines.old lines.new) }
    ensures err { OnErr result (lines.new ≡ lines.old) }
{
    let place = n as usize;
    if let Some(taken) = line_at(lines.as_slice(), place)? {
        return Ok(AppendAnswer::Taken(taken));
    }
    if lines.len() < place {
        return Ok(AppendAnswer::Behind);
    }
    lines.push(Line::new(line.to_vec(alloc)?))?;
    Ok(AppendAnswer::Appended)
}

// Returns the lines from n on.
fn lines_after(lines: &[Line], n: usize) -> &[Line]
    ensures { result.now ≡ drop n lines.now }
{
    if n <= lines.len() {
        &lines[n..]
    } else {
        &lines[lines.len()..]
    }
}

// Returns the first of the lines, up to so many, and whether there are more.
fn first_of(alloc: Global, lines: &[Line], most: usize) -> Result<PageAnswer, NoMemory>
    ensures { IfOk result (λ page. (rest : List (List ℕ)) × (lines.now ≡ page.lines ++ rest) × (page.more ≡ false → rest ≡ [])) }
{
    let mut page = Lines::new(alloc);
    for line in lines {
        if page.len() >= most {
            return Ok(PageAnswer {
                lines: page,
                more: true,
            });
        }
        page.push(line.clone()?)?;
    }
    Ok(PageAnswer {
        lines: page,
        more: false,
    })
}

// Returns the lines from n on, or the first of them, up to so many.
pub(crate) fn page_of(
    alloc: Global,
    lines: &Lines,
    n: u32,
    most: usize,
) -> Result<PageAnswer, NoMemory>
    ensures { IfOk result (λ page. IsLogPage n page lines.now) }
{
    first_of(alloc, lines_after(lines.as_slice(), n as usize), most)
}

// Returns the number of lines and the last one, or None if there are 2^32 or more.
pub(crate) fn head_of(lines: &Lines) -> Result<Option<HeadAnswer>, NoMemory>
    ensures { IfOk result (λ found. IfSome found (λ head. IsLogHead head lines.now)) }
{
    let Ok(count) = u32::try_from(lines.len()) else {
        return Ok(None);
    };
    let last = match lines.as_slice().last() {
        Some(line) => Some(line.clone()?),
        None => None,
    };
    Ok(Some(HeadAnswer { count, last }))
}

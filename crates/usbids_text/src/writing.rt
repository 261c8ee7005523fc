//! Writes a document as text.
ghost use Rattle.std.specs.Prelude.{◌≡◌, ◌<◌, ◌-◌, ◌∷◌, [], ◌++◌, codes, drop, Some};
ghost use Rattle.usbnum_core.specs.Number.{lower_hex_digit, digits_of};
ghost use Rattle.byte_streams.specs.Streams.{Writes};
ghost use Rattle.usbids_text.specs.Gathering.{Gathers};
ghost use Rattle.usbids_text.specs.Entries.{leaf_line, mid_line, top_line, leaves_lines, mids_lines, tops_lines};
ghost use Rattle.usbids_text.specs.Writing.{code_text, gap, line_text, entry_text, lines_text, stamp_text, title, head_text, written};
ghost use Rattle.usbids_text.specs.Documents.{IsTextOf};

use crate::document::{Document, Leaf, Mid, Top};
use crate::gather::{Waiting, gather, gather_three, pour};
use crate::kind::Kind;
use crate::stamp::Stamp;
use arrayvec::ArrayVec;
use byte_streams::{Broken, Sink};
use std::error::Error;
use std::fmt;

/// The sink failed, after it took a prefix of the text.
#[derive(Clone, Copy, Debug, PartialEq, Eq)]
pub struct WriteFault;

impl fmt::Display for WriteFault {
    ghost output = { λ fault. Some (codes "the list could not be written") };

    fn fmt<W: fmt::Write>(&self, f: &mut fmt::Formatter<W>) -> fmt::Result {
        f.write_str("the list could not be written")
    }
}

impl Error for WriteFault {}

const TITLE: &[u8] = b"# List of USB numbers in the syntax of usb.ids\n";

fn lower_digit(value: u16) -> u8
    requires { value < 16 }
    ensures { result ≡ lower_hex_digit value }
{
    let value = value as u8;
    if value < 10 {
        b'0' + value
    } else {
        b'a' + (value - 10)
    }
}

fn four_digits(code: u16) -> [u8; 4]
    ensures { result ≡ digits_of code }
{
    [
        lower_digit(code / 4096),
        lower_digit(code / 256 % 16),
        lower_digit(code / 16 % 16),
        lower_digit(code % 16),
    ]
}

// Returns this number of digits, the last of the four.
fn last_digits(all: &[u8; 4], digits: u8) -> &[u8]
    ensures { result.now ≡ drop (4 - digits) all.now }
{
    &all[4usize.saturating_sub(usize::from(digits))..]
}

fn gap(name: &[u8]) -> &'static [u8]
    ensures { result.now ≡ gap name.now }
{
    match name {
        [] => b"",
        _ => b"  ",
    }
}

// One line: two parts before the code, the code in its digits, and the name.
fn put_line<W: Sink>(
    sink: &mut W,
    waiting: &mut Waiting,
    tag: &[u8],
    space: &[u8],
    code: u16,
    digits: u8,
    name: &[u8],
) -> Result<(), Broken>
    ensures { Gathers (W.contents sink.old) waiting.old.bytes.items (W.contents sink.new) waiting.new.bytes.items (W.failures sink.old) (W.failures sink.new) result (line_text (tag.now ++ space.now) digits code name.now ++ 10 ∷ []) }
{
    let all = four_digits(code);
    gather_three(sink, waiting, tag, space, last_digits(&all, digits))?;
    gather_three(sink, waiting, gap(name), name, b"\n")
}

fn put_leaf<W: Sink>(sink: &mut W, waiting: &mut Waiting, leaf: &Leaf) -> Result<(), Broken>
    ensures { Gathers (W.contents sink.old) waiting.old.bytes.items (W.contents sink.new) waiting.new.bytes.items (W.failures sink.old) (W.failures sink.new) result (lines_text (leaves_lines (leaf.now ∷ []))) }
{
    put_line(
        sink,
        waiting,
        b"\t\t",
        b"",
        leaf.code(),
        leaf.digits(),
        leaf.name(),
    )
}

fn put_leaves<W: Sink>(sink: &mut W, waiting: &mut Waiting, leaves: &[Leaf]) -> Result<(), Broken>
    ensures { Gathers (W.contents sink.old) waiting.old.bytes.items (W.contents sink.new) waiting.new.bytes.items (W.failures sink.old) (W.failures sink.new) result (lines_text (leaves_lines leaves.now)) }
{
    for leaf in leaves {
        put_leaf(sink, waiting, leaf)?;
    }
    Ok(())
}

fn put_mid_line<W: Sink>(sink: &mut W, waiting: &mut Waiting, mid: &Mid) -> Result<(), Broken>
    ensures { Gathers (W.contents sink.old) waiting.old.bytes.items (W.contents sink.new) waiting.new.bytes.items (W.failures sink.old) (W.failures sink.new) result (entry_text (mid_line mid.now)) }
{
    put_line(
        sink,
        waiting,
        b"\t",
        b"",
        mid.code(),
        mid.digits(),
        mid.name(),
    )
}

fn put_mid<W: Sink>(sink: &mut W, waiting: &mut Waiting, mid: &Mid) -> Result<(), Broken>
    ensures { Gathers (W.contents sink.old) waiting.old.bytes.items (W.contents sink.new) waiting.new.bytes.items (W.failures sink.old) (W.failures sink.new) result (lines_text (mids_lines (mid.now ∷ []))) }
{
    put_mid_line(sink, waiting, mid)?;
    put_leaves(sink, waiting, mid.leaves())
}

fn put_mids<W: Sink>(sink: &mut W, waiting: &mut Waiting, mids: &[Mid]) -> Result<(), Broken>
    ensures { Gathers (W.contents sink.old) waiting.old.bytes.items (W.contents sink.new) waiting.new.bytes.items (W.failures sink.old) (W.failures sink.new) result (lines_text (mids_lines mids.now)) }
{
    for mid in mids {
        put_mid(sink, waiting, mid)?;
    }
    Ok(())
}

fn put_top_line<W: Sink>(sink: &mut W, waiting: &mut Waiting, top: &Top) -> Result<(), Broken>
    ensures { Gathers (W.contents sink.old) waiting.old.bytes.items (W.contents sink.new) waiting.new.bytes.items (W.failures sink.old) (W.failures sink.new) result (entry_text (top_line top.now)) }
{
    match top.kind() {
        Kind::Vendor => put_line(
            sink,
            waiting,
            b"",
            b"",
            top.code(),
            top.digits(),
            top.name(),
        ),
        Kind::Tagged(tag) => {
            put_line(
                sink,
                waiting,
                tag.as_bytes(),
                b" ",
                top.code(),
                top.digits(),
                top.name(),
            )
        }
    }
}

fn put_top<W: Sink>(sink: &mut W, waiting: &mut Waiting, top: &Top) -> Result<(), Broken>
    ensures { Gathers (W.contents sink.old) waiting.old.bytes.items (W.contents sink.new) waiting.new.bytes.items (W.failures sink.old) (W.failures sink.new) result (lines_text (tops_lines (top.now ∷ []))) }
{
    put_top_line(sink, waiting, top)?;
    put_mids(sink, waiting, top.mids())
}

fn put_tops<W: Sink>(sink: &mut W, waiting: &mut Waiting, tops: &[Top]) -> Result<(), Broken>
    ensures { Gathers (W.contents sink.old) waiting.old.bytes.items (W.contents sink.new) waiting.new.bytes.items (W.failures sink.old) (W.failures sink.new) result (lines_text (tops_lines tops.now)) }
{
    for top in tops {
        put_top(sink, waiting, top)?;
    }
    Ok(())
}

#[tactic(auto, unfolding(crate::specs::Writing::stamp_text))]
fn put_stamp<W: Sink>(sink: &mut W, waiting: &mut Waiting, stamp: &Stamp) -> Result<(), Broken>
    ensures { Gathers (W.contents sink.old) waiting.old.bytes.items (W.contents sink.new) waiting.new.bytes.items (W.failures sink.old) (W.failures sink.new) result (stamp_text (Some stamp.now)) }
{
    gather_three(sink, waiting, b"# Version: ", &stamp.date(b'.'), b"\n")?;
    gather_three(
        sink,
        waiting,
        b"# Date:    ",
        &stamp.date(b'-'),
        &stamp.time(),
    )
}

#[tactic(auto, unfolding(crate::specs::Writing::stamp_text))]
fn put_stamps<W: Sink>(
    sink: &mut W,
    waiting: &mut Waiting,
    stamp: Option<Stamp>,
) -> Result<(), Broken>
    ensures { Gathers (W.contents sink.old) waiting.old.bytes.items (W.contents sink.new) waiting.new.bytes.items (W.failures sink.old) (W.failures sink.new) result (stamp_text stamp) }
{
    match stamp {
        Some(stamp) => put_stamp(sink, waiting, &stamp),
        None => gather(sink, waiting, b""),
    }
}

#[tactic(auto, unfolding(crate::specs::Writing::title))]
fn put_title<W: Sink>(sink: &mut W, waiting: &mut Waiting) -> Result<(), Broken>
    ensures { Gathers (W.contents sink.old) waiting.old.bytes.items (W.contents sink.new) waiting.new.bytes.items (W.failures sink.old) (W.failures sink.new) result (title ++ 10 ∷ []) }
{
    gather(sink, waiting, TITLE)
}

fn put_head<W: Sink>(
    sink: &mut W,
    waiting: &mut Waiting,
    stamp: Option<Stamp>,
) -> Result<(), Broken>
    ensures { Gathers (W.contents sink.old) waiting.old.bytes.items (W.contents sink.new) waiting.new.bytes.items (W.failures sink.old) (W.failures sink.new) result (head_text stamp) }
{
    put_title(sink, waiting)?;
    put_stamps(sink, waiting, stamp)?;
    gather(sink, waiting, b"\n")
}

fn put_all_lines<W: Sink>(
    sink: &mut W,
    waiting: &mut Waiting,
    document: &Document,
    stamp: Option<Stamp>,
) -> Result<(), Broken>
    ensures { Gathers (W.contents sink.old) waiting.old.bytes.items (W.contents sink.new) waiting.new.bytes.items (W.failures sink.old) (W.failures sink.new) result (written document.now stamp) }
{
    put_head(sink, waiting, stamp)?;
    put_tops(sink, waiting, document.tops())
}

/// Writes the text of the document: a title, the stamp if there is one, an empty line, and a line
/// for each entry in the order of the list: a tab for each level of depth, the code in lower-case
/// digits, two spaces and the name. It allocates no memory.
///
/// # Errors
///
/// The sink failed during this call, after it took a prefix of the text.
pub fn write<W: Sink>(
    document: &Document,
    stamp: Option<Stamp>,
    sink: &mut W,
) -> Result<(), WriteFault>
    ensures writes { Writes (W.contents sink.old) (W.contents sink.new) (W.failures sink.old) (W.failures sink.new) result (written document.now stamp) }
    ensures is_text { IsTextOf (written document.now stamp) document.now }
{
    let mut waiting = Waiting {
        bytes: ArrayVec::new(),
    };
    // For the proof of `is_text`: its contract says that the document is sound.
    let _tops = document.tops();
    match put_all_lines(sink, &mut waiting, document, stamp) {
        Ok(()) => match pour(sink, &mut waiting) {
            Ok(()) => Ok(()),
            Err(Broken) => Err(WriteFault),
        },
        Err(Broken) => Err(WriteFault),
    }
}

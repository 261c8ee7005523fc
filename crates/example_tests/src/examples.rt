//! The examples of sets of numbers, of lists, and of the rules.

use registry_rules::{
    Founding, Holdings, Request, Totals, Verdict, judge, reply_text, vid_concerned,
};
use registry_wire::{founding_from_toml, line_request};
use std::process::Abort;
use std::test::Fail;
use usbids_text::{find, read_all};
use usbnum_core::{Pid, Span, Spans, Vid};

#[test]
fn numbers_are_added_and_cut(rt: HostRuntime) -> Result<(), Fail> {
    let first = Pid::new(0x2000).ok_or("no number")?;
    let last = Pid::new(0x20ff).ok_or("no number")?;
    let mut set = Spans::new(rt.alloc());
    set.add(Span::new(first, last).ok_or("no span")?)?;
    assert_eq!(rt; set.count(), 256);
    set.cut(Span::new(last, last).ok_or("no span")?)?;
    assert!(rt; set.contains(first) && !set.contains(last));
    assert_eq!(rt; set.least_outside(&[]), Pid::new(1));
    Ok(())
}

#[test]
fn finds_a_device(rt: HostRuntime) -> Result<(), Fail> {
    let list = b"1209  Shared products\n\t0011  Blinker\n";
    let document = read_all(rt.alloc(), list)?;
    let vendor = Vid::new(0x1209).ok_or("no vendor")?;
    let name = find(&document, vendor, 0x0011);
    assert_eq!(rt; name, Some(b"Blinker".as_slice()));
    assert_eq!(rt; find(&document, vendor, 0x0012), None);
    Ok(())
}

fn founding(rt: &(impl AllocGlobal + Abort)) -> Founding {
    founding_from_toml(
        rt.alloc(),
        b"vendor = \"1209\"\nname = \"Shared products\"\ncurators = [\"ann\"]\nlicences = [\"MIT\"]\n",
    )
    .expect(rt, "a founding")
}

fn request(rt: &(impl AllocGlobal + Abort)) -> Request {
    line_request(
        rt.alloc(),
        br#"{"caller":"ann","key":"k1","order":"enrol","org":"acme","title":"Acme","site":"http://a.example/"}"#,
    )
    .expect(rt, "a request")
}

#[test]
fn a_new_request_has_a_deed(rt: HostRuntime) {
    let (founding, request) = (founding(&rt), request(&rt));
    let totals = Totals::founded(rt.alloc(), &founding).expect(&rt, "memory");
    let holdings = Holdings::new(Vec::new(rt.alloc()));
    let vid = vid_concerned(&request.order, founding.vendor, None);
    let facts = totals.facts(&request, vid, None, None, None, holdings);
    let verdict = judge(rt.alloc(), &facts, &request).expect(&rt, "memory");
    let Verdict::New(deed) = verdict else {
        panic!(rt; "no deed");
    };
    let reply = reply_text(rt.alloc(), &deed).expect(&rt, "memory");
    assert_eq!(rt; reply.as_str(), "enrolled acme");
}

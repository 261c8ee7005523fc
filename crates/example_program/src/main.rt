//! Prints the name of a device in a list.
#![tactic(auto)]

use std::io;
use std::io::Write;
use usbids_text::{find, read_all};
use usbnum_core::parse_vid;

fn main(rt: HostRuntime) -> io::Result<()> {
    let list = b"1209  Shared products\n\t0011  Blinker\n";
    let Ok(document) = read_all(rt.alloc(), list) else {
        return println!(rt; "out of memory");
    };
    let Some(vendor) = parse_vid(b"1209") else {
        return println!(rt; "no vendor ID");
    };
    match find(&document, vendor, 0x0011) {
        Some(name) => {
            rt.stdout().write_all(name)?;
            rt.stdout().write_all(b"\n")
        }
        None => println!(rt; "no such device"),
    }
}

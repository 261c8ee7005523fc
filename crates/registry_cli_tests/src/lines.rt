//! Request lines where the input or the output fails: the exit status and both outputs.

use crate::ends::{AMPLE, Stumbling, add_answer, add_run};
use crate::registries::{Calls, check};
use crate::texts::{ENROL_LINE, FIND_ACME, NO_ORG, add_bytes, compare};
use byte_streams::Inlet;
use registry_store::Registry;
use sqlite::Alter;
use std::alloc::Global;

// An input that fails after each number of good reads, and then one that does not.
struct Inputs;

// The line is 108 bytes, read one by one, and one more read finds its end.
const READS: u32 = 109;

fn add_input<S: Alter>(
    alloc: Global,
    good: u32,
    wanted: &str,
    registry: &mut Registry<S>,
    seen: &mut String,
) -> bool {
    let mut source = Inlet::new(Stumbling {
        rest: ENROL_LINE.as_bytes(),
        good,
    });
    let mut text = String::new(alloc);
    add_run(alloc, &mut source, 0, AMPLE, registry, &mut text)
        && compare("an input", &text, wanted, seen)
}

fn add_failing_inputs<S: Alter>(
    alloc: Global,
    registry: &mut Registry<S>,
    seen: &mut String,
) -> bool {
    for good in 0..READS {
        if !add_input(alloc, good, "1: fault: file\n", registry, seen) {
            return false;
        }
    }
    true
}

impl Calls for Inputs {
    fn add_text<S: Alter>(
        &self,
        alloc: Global,
        registry: &mut Registry<S>,
        text: &mut String,
    ) -> bool {
        let wanted = "0: {\"done\":\"enrolled acme\"}\n";
        add_failing_inputs(alloc, registry, text)
            && add_answer(alloc, FIND_ACME, registry, text)
            && add_input(alloc, READS, wanted, registry, text)
    }
}

// Where the input fails nothing is acted on.
#[test]
fn an_input_that_fails(rt: HostRuntime) {
    check(&rt, &Inputs, NO_ORG);
}

// An output that fails after each number of bytes, and then one that does not.
struct Outputs;

// Two replies.
const WHOLE: &[u8] = b"{\"done\":\"enrolled acme\"}\n{\"done\":\"enrolled acme\"}\n";

fn add_wanted(most: usize, text: &mut String) -> bool {
    match WHOLE.get(..most) {
        Some(part) if most < WHOLE.len() => {
            text.push_str("1: ").is_ok()
                && add_bytes(part, text)
                && text.push_str("fault: file\n").is_ok()
        }
        _ => text.push_str("0: ").is_ok() && add_bytes(WHOLE, text),
    }
}

fn add_output<S: Alter>(
    alloc: Global,
    lines: &str,
    most: usize,
    registry: &mut Registry<S>,
    seen: &mut String,
) -> bool {
    let mut source = Inlet::new(lines.as_bytes());
    let mut wanted = String::new(alloc);
    let mut text = String::new(alloc);
    add_wanted(most, &mut wanted)
        && add_run(alloc, &mut source, 0, most, registry, &mut text)
        && compare("an output", &text, &wanted, seen)
}

fn add_outputs<S: Alter>(
    alloc: Global,
    lines: &str,
    registry: &mut Registry<S>,
    seen: &mut String,
) -> bool {
    for most in 0..=WHOLE.len() {
        if !add_output(alloc, lines, most, registry, seen) {
            return false;
        }
    }
    true
}

fn two_lines(alloc: Global) -> Option<String> {
    format!(in alloc; "{ENROL_LINE}\n{ENROL_LINE}\n").ok()
}

impl Calls for Outputs {
    fn add_text<S: Alter>(
        &self,
        alloc: Global,
        registry: &mut Registry<S>,
        text: &mut String,
    ) -> bool {
        match two_lines(alloc) {
            Some(lines) => add_outputs(alloc, &lines, registry, text),
            None => false,
        }
    }
}

#[test]
fn an_output_that_fails(rt: HostRuntime) {
    check(&rt, &Outputs, "");
}

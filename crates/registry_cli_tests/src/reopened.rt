//! Runs that end, with and without a crash, and what their files hold when they are opened again.

use crate::ends::{AMPLE, add_answer, add_run};
use crate::registries::{Calls, founded_in, new_files, text_over};
use crate::server::{Messages, add_end};
use crate::texts::{ACME, ENROL, ENROL_LINE, ENROLLED, FIND_ACME, add_bytes};
use byte_streams::{Inlet, Outlet};
use registry_reopening::{apply_and_crash, apply_and_open, serve_and_crash, serve_and_open};
use registry_store::Registry;
use sqlite::{Alter, FileStore, Files, Options};
use sqlite_disk::Crash;
use std::alloc::Global;
use std::test::Fail;

/// How the first run ends.
#[derive(Clone, Copy)]
enum End {
    Closed,
    Crashed,
}

/// The lines of both runs: the first two are those of the first run.
#[derive(Clone, Copy)]
struct Lines<'a> {
    first: &'a str,
    second: &'a str,
}

// The second run, after the two lines that were answered.
impl Calls for Lines<'_> {
    fn add_text<S: Alter>(
        &self,
        alloc: Global,
        registry: &mut Registry<S>,
        text: &mut String,
    ) -> bool {
        let mut source = Inlet::new(self.second.as_bytes());
        add_run(alloc, &mut source, 2, AMPLE, registry, text)
    }
}

fn add_written(status: u8, output: &[u8], errors: &[u8], text: &mut String) -> bool {
    write!(text, "{status}: ").is_ok() && add_bytes(output, text) && add_bytes(errors, text)
}

// The first run. Adds its status and its outputs, and returns the registry that is opened again.
fn apply_first<D: Crash + Drop>(
    alloc: Global,
    found: Registry<FileStore<D>>,
    lines: &str,
    end: End,
    text: &mut String,
) -> Option<Registry<FileStore<D>>> {
    let mut output = Outlet::new(Vec::new(alloc));
    let mut errors = Outlet::new(Vec::new(alloc));
    let mut source = Inlet::new(lines.as_bytes());
    let options = Options::new(1);
    let (status, opened) = match end {
        End::Closed => apply_and_open(
            alloc,
            &mut source,
            0,
            found,
            &mut output,
            &mut errors,
            options,
        ),
        End::Crashed => apply_and_crash(
            alloc,
            &mut source,
            0,
            found,
            &mut output,
            &mut errors,
            options,
        ),
    };
    let _whole = add_written(
        status.code(),
        &output.into_inner(),
        &errors.into_inner(),
        text,
    );
    opened.ok()
}

fn apply_twice<D: Crash + Drop>(
    alloc: Global,
    files: Files<D>,
    lines: Lines<'_>,
    end: End,
    text: &mut String,
) -> Option<String> {
    let found = founded_in(alloc, files)?;
    let opened = apply_first(alloc, found, lines.first, end, text);
    text_over(alloc, opened, &lines)
}

const ASK: &str =
    r#"{"caller":"ann","key":"k2","order":"ask","org":"acme","number":"0011","title":"Blinker","licence":"MIT","site":"https://acme.example/blinker","source":"https://acme.example/src"}"#;

const GRANT: &str = r#"{"caller":"cora","key":"k3","order":"grant","petition":1,"number":"0011"}"#;

const FIRST: &str = "0: {\"done\":\"enrolled acme\"}\n{\"done\":\"petition 1\"}\n";

const SECOND: &str = "0: {\"done\":\"granted 0011 to acme by petition 1\"}\n";

#[test]
fn lines_go_on(rt: HostRuntime) -> Result<(), Fail> {
    let alloc = rt.alloc();
    let first = format!(in alloc; "{ENROL_LINE}\n{ASK}\n")?;
    let second = format!(in alloc; "{first}{GRANT}\n")?;
    let lines = Lines {
        first: &first,
        second: &second,
    };
    for end in [End::Closed, End::Crashed] {
        let mut text = String::new(alloc);
        let next = apply_twice(alloc, new_files(alloc), lines, end, &mut text);
        assert_eq!(rt; (text.as_str(), next.as_deref()), (FIRST, Some(SECOND)));
    }
    Ok(())
}

// Asks for the organisation.
struct Query;

impl Calls for Query {
    fn add_text<S: Alter>(
        &self,
        alloc: Global,
        registry: &mut Registry<S>,
        text: &mut String,
    ) -> bool {
        add_answer(alloc, FIND_ACME, registry, text)
    }
}

// Serves one connection after another, until the given number or until no more come.
fn serve_first<D: Crash + Drop>(
    alloc: Global,
    found: Registry<FileStore<D>>,
    count: u64,
    end: End,
    text: &mut String,
) -> Option<Registry<FileStore<D>>> {
    let mut connections = Messages {
        alloc,
        messages: &[ENROL],
        opened: 0,
        text: String::new(alloc),
        whole: true,
    };
    let options = Options::new(1);
    let (served, opened) = match end {
        End::Closed => serve_and_open(alloc, &mut connections, found, count, options),
        End::Crashed => serve_and_crash(alloc, &mut connections, found, count, options),
    };
    let _whole = add_end(served, &mut connections.text)
        && text.push_str(connections.text.as_str()).is_ok();
    opened.ok()
}

fn serve_twice<D: Crash + Drop>(
    alloc: Global,
    files: Files<D>,
    count: u64,
    end: End,
    text: &mut String,
) -> Option<String> {
    let found = founded_in(alloc, files)?;
    let opened = serve_first(alloc, found, count, end, text);
    text_over(alloc, opened, &Query)
}

// The number of connections, how the run ends, and the result of serving. One connection comes.
const ENDS: [(u64, End, &str); 3] = [
    (1, End::Closed, "Ok(())"),
    (2, End::Closed, "Err(Connections)"),
    (1, End::Crashed, "Ok(())"),
];

#[test]
fn the_server_goes_on(rt: HostRuntime) -> Result<(), Fail> {
    let alloc = rt.alloc();
    for (count, end, told) in ENDS {
        let mut text = String::new(alloc);
        let next = serve_twice(alloc, new_files(alloc), count, end, &mut text);
        let wanted = format!(in alloc; "Some(200) {ENROLLED}{told}\n")?;
        assert_eq!(rt;
            (text.as_str(), next.as_deref()),
            (wanted.as_str(), Some(ACME))
        );
    }
    Ok(())
}

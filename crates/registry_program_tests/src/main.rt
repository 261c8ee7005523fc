//! Tests of the program over a machine in memory. Of a line of the standard input, `file NAME TEXT`
//! and `message TEXT` give the machine a file and a connection, and `run ARGUMENTS` runs the
//! program: the line that is printed has the exit status, what was opened in which order and how
//! the store was closed, the output and the error output. `terminals ARGUMENTS` does the same with
//! terminals as its input and its error output, and `piped NAME ARGUMENTS` with the bytes of that file
//! as its standard input. `stands STORE LOG` prints what is done about a store that may be made: each
//! of the two is `none`, `other` or the number of bytes of a file.
#![tactic(auto)]

mod room;

use byte_streams::{Inlet, Outlet};
use registry_program::{Heard, Standing, Terminals, making_of, run_over};
use room::{Given, Room};
use row_texts::{RowFault, bytes_of, number_of, shown};
use std::alloc::Global;
use std::io;

/// What the lines give the machine.
#[derive(Drop)]
struct Lines {
    inputs: Vec<Given>,
    messages: Vec<Vec<u8>>,
    runs: Vec<String>,
}

fn add_line(alloc: Global, lines: &mut Lines, line: &str) -> Result<(), RowFault> {
    let Some((kind, text)) = line.split_once(' ') else {
        return Err(RowFault::BadRow);
    };
    if kind == "message" {
        lines.messages.push(bytes_of(alloc, text)?)?;
        return Ok(());
    }
    if kind != "file" {
        lines.runs.push(String::from_str(alloc, line)?)?;
        return Ok(());
    }
    let Some((name, text)) = text.split_once(' ') else {
        return Err(RowFault::BadRow);
    };
    let name = String::from_str(alloc, name)?;
    let bytes = bytes_of(alloc, text)?;
    lines.inputs.push(Given { name, bytes })?;
    Ok(())
}

fn words_of(alloc: Global, line: &str) -> Result<Vec<String>, RowFault> {
    let mut words = Vec::new(alloc);
    for word in line.split(' ') {
        words.push(String::from_str(alloc, word)?)?;
    }
    Ok(words)
}

// It says nothing of what was done, so that its caller is proved without it.
fn status_of(
    alloc: Global,
    room: &mut Room<'_>,
    words: &[String],
    terminals: Terminals,
    given: &[u8],
    output: &mut Outlet<Vec<u8>>,
    errors: &mut Heard<Outlet<Vec<u8>>>,
) -> u8 {
    run_over(
        alloc,
        room,
        words,
        terminals,
        &mut Inlet::new(given),
        output,
        errors,
    )
    .code()
}

fn run(
    alloc: Global,
    room: &mut Room<'_>,
    line: &str,
    terminals: Terminals,
    given: &[u8],
) -> Result<String, RowFault> {
    let words = words_of(alloc, line)?;
    let mut output = Outlet::new(Vec::new(alloc));
    let mut errors = Heard::new(Outlet::new(Vec::new(alloc)));
    room.missed = None;
    room.read = None;
    let status = status_of(
        alloc,
        room,
        words.as_slice(),
        terminals,
        given,
        &mut output,
        &mut errors,
    );
    let (output, errors) = (output.into_inner(), errors.into_inner().into_inner());
    let calls = room.calls.clone()?;
    room.calls.clear();
    let (output, errors) = (shown(alloc, &output)?, shown(alloc, &errors)?);
    Ok(format!(in alloc; "{status}: {calls}| {output}| {errors}")?)
}

fn standing_of(text: &str) -> Result<Standing, RowFault> {
    match text {
        "none" => Ok(Standing::Nothing),
        "other" => Ok(Standing::Other),
        _ => Ok(Standing::File(u64::from(number_of(text)?))),
    }
}

fn making(alloc: Global, line: &str) -> Result<String, RowFault> {
    let Some((store, log)) = line.split_once(' ') else {
        return Err(RowFault::BadRow);
    };
    let making = making_of(standing_of(store)?, standing_of(log)?);
    Ok(format!(in alloc; "{making:?}")?)
}

/// Runs the program with a file as its standard input. The name of the file is that of the program too.
fn run_piped(alloc: Global, room: &mut Room<'_>, line: &str) -> Result<String, RowFault> {
    let terminals = Terminals {
        input: false,
        errors: false,
    };
    let Some((name, _)) = line.split_once(' ') else {
        return Err(RowFault::BadRow);
    };
    let inputs = room.inputs;
    for input in inputs {
        if input.name.as_str() == name {
            room.piped = Some(input.bytes.as_slice());
            let text = run(alloc, room, line, terminals, input.bytes.as_slice());
            room.piped = None;
            return text;
        }
    }
    Err(RowFault::BadRow)
}

fn text_of(alloc: Global, room: &mut Room<'_>, line: &str) -> Result<String, RowFault> {
    let Some((kind, rest)) = line.split_once(' ') else {
        return Err(RowFault::BadRow);
    };
    match kind {
        "stands" => making(alloc, rest),
        "piped" => run_piped(alloc, room, rest),
        "lost" => {
            room.store = None;
            Ok(String::from_str(alloc, line)?)
        }
        _ => {
            let is_terminal = kind == "terminals";
            let terminals = Terminals {
                input: is_terminal,
                errors: is_terminal,
            };
            run(alloc, room, line, terminals, &[])
        }
    }
}

fn lines_of(rt: &HostRuntime) -> io::Result<Result<Lines, RowFault>> {
    let alloc = rt.alloc();
    let mut lines = Lines {
        inputs: Vec::new(alloc),
        messages: Vec::new(alloc),
        runs: Vec::new(alloc),
    };
    for line in rt.lines(alloc) {
        let line = line?;
        if let Err(fault) = add_line(alloc, &mut lines, &line) {
            return Ok(Err(fault));
        }
    }
    Ok(Ok(lines))
}

fn main(rt: HostRuntime) -> io::Result<()> {
    let lines = match lines_of(&rt)? {
        Ok(lines) => lines,
        Err(fault) => return println!(rt; "{}", fault.name()),
    };
    let mut room = Room {
        alloc: rt.alloc(),
        store: None,
        inputs: lines.inputs.as_slice(),
        messages: lines.messages.as_slice(),
        opened: 0,
        calls: String::new(rt.alloc()),
        missed: None,
        read: None,
        piped: None,
    };
    for line in &lines.runs {
        match text_of(rt.alloc(), &mut room, line) {
            Ok(text) => println!(rt; "{text}")?,
            Err(fault) => println!(rt; "{}", fault.name())?,
        }
    }
    Ok(())
}

//! Steps of a document: each runs a command line and compares what it writes.
use edge_core::{MemShelf, MemSink};
use lincs_top::run;
use std::alloc::{AllocError, Global};
use std::process::Abort;
use std::test::Fail;

/// A command line without the program's name.
#[derive(Clone, Copy)]
pub struct Step<'a> {
    pub line: &'a str,
    /// The file that gets the output, or nothing if the screen does.
    pub target: &'a str,
    /// Whether the output is shown.
    pub screen: bool,
    /// What the screen shows: the output, if it is shown, and then the error output.
    pub shown: &'a str,
}

fn words(alloc: Global, line: &str) -> Result<Vec<String>, AllocError> {
    let mut words = Vec::new(alloc);
    for word in line.split(' ') {
        if !word.is_empty() {
            words.push(String::from_str(alloc, word)?)?;
        }
    }
    Ok(words)
}

/// Runs the command line over these files, and writes to these outputs.
fn run_line(
    alloc: Global,
    line: &str,
    shelf: &mut MemShelf,
    out: &mut MemSink,
    err: &mut MemSink,
) -> Result<(), AllocError> {
    let words = words(alloc, line)?;
    run(alloc, &words, shelf, out, err);
    Ok(())
}

/// What the screen shows after a step that wrote this.
fn screen_of(
    alloc: Global,
    step: &Step<'_>,
    out: &[u8],
    err: &[u8],
) -> Result<Vec<u8>, AllocError> {
    let mut screen = Vec::new(alloc);
    if step.screen {
        screen.extend_from_slice(out)?;
    }
    screen.extend_from_slice(err)?;
    Ok(screen)
}

/// Takes a step: runs its line, looks at the screen, and keeps its output if it goes to a file.
fn take_step(
    rt: &impl Abort,
    alloc: Global,
    step: &Step<'_>,
    shelf: &mut MemShelf,
) -> Result<(), Fail> {
    let mut out = MemSink::new(alloc);
    let mut err = MemSink::new(alloc);
    let line = step.line;
    run_line(alloc, line, shelf, &mut out, &mut err)?;
    let screen = screen_of(alloc, step, out.bytes(), err.bytes())?;
    assert!(rt; screen.as_slice() == step.shown.as_bytes(), "{line}");
    if !step.target.is_empty() {
        shelf.add(step.target, out.bytes())?;
    }
    Ok(())
}

/// Takes all steps, one after the other, beginning with these files.
pub fn follow(
    rt: &impl Abort,
    alloc: Global,
    files: &[(&str, &str)],
    steps: &[Step<'_>],
) -> Result<(), Fail> {
    let mut shelf = MemShelf::new(alloc);
    for (name, text) in files {
        shelf.add(name, text.as_bytes())?;
    }
    for step in steps {
        take_step(rt, alloc, step, &mut shelf)?;
    }
    Ok(())
}

//! A run over files in memory: what it is given, and what it has to end with.
use edge_core::{MemShelf, MemSink};
use lincs_top::{Status, run};
use std::alloc::{AllocError, Global};
use std::process::Abort;
use std::test::Fail;

/// One criterion on which 0 to 10 are whole numbers, the greater the better, and two categories.
pub const PROBLEM: &str = "kind: classification-problem
format_version: 1
criteria:
  - name: Speed
    value_type: integer
    preference_direction: increasing
    min_value: 0
    max_value: 10
ordered_categories:
  - name: Bad
  - name: Good
";

/// The same with three categories.
pub const PROBLEM_OF_THREE: &str = "kind: classification-problem
format_version: 1
criteria:
  - name: Speed
    value_type: integer
    preference_direction: increasing
    min_value: 0
    max_value: 10
ordered_categories:
  - name: Low
  - name: Mid
  - name: High
";

/// Two criteria on which 0 and 1 are grades, and two categories.
pub const PROBLEM_OF_TWO: &str = "kind: classification-problem
format_version: 1
criteria:
  - name: U
    value_type: integer
    preference_direction: increasing
    min_value: 0
    max_value: 1
  - name: V
    value_type: integer
    preference_direction: increasing
    min_value: 0
    max_value: 1
ordered_categories:
  - name: Bad
  - name: Good
";

/// From 7 on a row is good.
pub const MODEL: &str = "kind: ncs-classification-model
format_version: 1
accepted_values:
  - kind: thresholds
    thresholds: [7]
sufficient_coalitions:
  - kind: roots
    upset_roots: [[0]]
";

/// A table of two rows, and what the model makes of it.
pub const TABLE: &str = "name,Speed\na,3\nb,7\n";

pub const SORTED: &str = "name,Speed,category\na,3,Bad\nb,7,Good\n";

/// The command line over the files `P.yml`, `M.yml` and `A.csv`.
pub const CLASSIFY: &str = "classify P.yml M.yml A.csv";

/// What a run ends with: its status, its output and its error line.
pub type Want<'a> = (Status, &'a str, &'a str);

/// The words of a command line, between single spaces.
pub fn words(alloc: Global, line: &str) -> Result<Vec<String>, AllocError> {
    let mut words = Vec::new(alloc);
    for word in line.split(' ') {
        if !word.is_empty() {
            words.push(String::from_str(alloc, word)?)?;
        }
    }
    Ok(words)
}

/// A shelf with the three files.
pub fn shelf(
    alloc: Global,
    problem: &str,
    model: &str,
    table: &str,
) -> Result<MemShelf, AllocError> {
    let mut shelf = MemShelf::new(alloc);
    shelf.add("P.yml", problem.as_bytes())?;
    shelf.add("M.yml", model.as_bytes())?;
    shelf.add("A.csv", table.as_bytes())?;
    Ok(shelf)
}

/// A model of one criterion, from its list of thresholds and the lines of its coalitions.
pub fn model(alloc: Global, thresholds: &str, coalitions: &str) -> Result<String, AllocError> {
    format!(in alloc;
        "kind: ncs-classification-model
format_version: 1
accepted_values:
  - kind: thresholds
    thresholds: {thresholds}
sufficient_coalitions:
{coalitions}"
    )
}

/// What a run ended with.
#[derive(Drop)]
pub struct Ended {
    pub status: Status,
    pub out: MemSink,
    pub err: MemSink,
}

/// A sink whose write of this number fails; 0 is none.
fn sink(alloc: Global, failing: u64) -> Result<MemSink, AllocError> {
    let mut sink = MemSink::new(alloc);
    if failing > 0 {
        sink.fail_at(failing)?;
    }
    Ok(sink)
}

/// Runs the command line over these files, and returns its status.
fn status_of(
    alloc: Global,
    line: &str,
    shelf: &mut MemShelf,
    out: &mut MemSink,
    err: &mut MemSink,
) -> Result<Status, AllocError> {
    let words = words(alloc, line)?;
    Ok(run(alloc, &words, shelf, out, err))
}

/// Runs the command line over these files. Write `failing_out` of the output fails, and write
/// `failing_err` of the error output; 0 is none.
pub fn end_of(
    alloc: Global,
    line: &str,
    shelf: &mut MemShelf,
    failing_out: u64,
    failing_err: u64,
) -> Result<Ended, AllocError> {
    let mut out = sink(alloc, failing_out)?;
    let mut err = sink(alloc, failing_err)?;
    let status = status_of(alloc, line, shelf, &mut out, &mut err)?;
    Ok(Ended { status, out, err })
}

/// Looks at the status, the output and the error output of a run.
pub fn compare(rt: &impl Abort, ended: &Ended, want: Want<'_>) {
    let (status, out, err) = want;
    assert_eq!(rt;
        (ended.err.bytes(), ended.out.bytes(), ended.status),
        (err.as_bytes(), out.as_bytes(), status),
        "{err}"
    );
}

/// Runs the command line over these files, and looks at its status, its output and its error line.
pub fn runs(
    rt: &impl Abort,
    alloc: Global,
    line: &str,
    shelf: &mut MemShelf,
    want: Want<'_>,
) -> Result<(), Fail> {
    let ended = end_of(alloc, line, shelf, 0, 0)?;
    compare(rt, &ended, want);
    Ok(())
}

/// Runs a command line that has to end with this status and no error line, and returns what it writes.
pub fn output(
    rt: &impl Abort,
    alloc: Global,
    line: &str,
    shelf: &mut MemShelf,
    status: Status,
) -> Result<MemSink, Fail> {
    let ended = end_of(alloc, line, shelf, 0, 0)?;
    assert_eq!(rt;
        (ended.status, ended.err.bytes()),
        (status, "".as_bytes()),
        "{line}"
    );
    Ok(ended.out)
}

/// Runs it, and adds what it writes to the files under this name.
pub fn output_to_file(
    rt: &impl Abort,
    alloc: Global,
    line: &str,
    shelf: &mut MemShelf,
    status: Status,
    name: &str,
) -> Result<MemSink, Fail> {
    let out = output(rt, alloc, line, shelf, status)?;
    shelf.add(name, out.bytes())?;
    Ok(out)
}

/// Runs `classify` over the three files.
pub fn ends_with(
    rt: &impl Abort,
    alloc: Global,
    files: (&str, &str, &str),
    want: Want<'_>,
) -> Result<(), Fail> {
    let mut shelf = shelf(alloc, files.0, files.1, files.2)?;
    runs(rt, alloc, CLASSIFY, &mut shelf, want)
}

/// Runs `classify` over three good files, one of which has other bytes. The run has to end with status
/// 5, no output, and this error line after `lincs: `.
pub fn refuses(
    rt: &impl Abort,
    alloc: Global,
    file: &str,
    bytes: &[u8],
    cause: &str,
) -> Result<(), Fail> {
    let mut shelf = shelf(alloc, PROBLEM, MODEL, TABLE)?;
    shelf.add(file, bytes)?;
    let line = format!(in alloc; "lincs: {cause}\n")?;
    runs(
        rt,
        alloc,
        CLASSIFY,
        &mut shelf,
        (Status::Refused, "", line.as_str()),
    )
}

/// A text with the first `old` in it replaced by `new`. There has to be one.
pub fn edited(
    rt: &impl Abort,
    alloc: Global,
    text: &str,
    old: &str,
    new: &str,
) -> Result<String, AllocError> {
    match text.split_once(old) {
        Some((before, after)) => format!(in alloc; "{before}{new}{after}"),
        None => {
            assert!(rt; false, "{old} is not in the text");
            Ok(String::new(alloc))
        }
    }
}

/// The same, of a file whose text has its first `edit.0` replaced by `edit.1`.
pub fn refuses_edit(
    rt: &impl Abort,
    alloc: Global,
    file: &str,
    text: &str,
    edit: (&str, &str, &str),
) -> Result<(), Fail> {
    let text = edited(rt, alloc, text, edit.0, edit.1)?;
    refuses(rt, alloc, file, text.as_bytes(), edit.2)
}

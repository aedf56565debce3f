//! The error line.
ghost use Rattle.std.specs.Prelude.{◌≡◌, [], Err};
ghost use Rattle.std.specs.List.{flat_map};
ghost use Rattle.edge_core.specs.Outside.{Sends};
ghost use Rattle.lincs_top.specs.Line.{Says, part_text, about, numbered, refusal_text, row_text, log_text, usage_line};
ghost use Rattle.lincs_top.specs.Line.{rejected_line, size_line, line_of_report};
ghost use Rattle.lincs_top.specs.End.{gave};
ghost use Rattle.lincs_top.specs.Report.{at_end};
ghost use Rattle.lincs_top.specs.Stop.{report_of};

use crate::fault_numbers::{
    FaultNumber, grade_number, line_number, model_number, problem_number, table_number, yaml_number,
};
use crate::stop::{Refusal, Size, Stop, Verdict};
use chain_core::LogFault;
use edge_core::{Failed, Sink, put_all};
use itoa::Buffer;
use line_core::LineFault;
use table_core::RowFault;

// A part of a line.
#[derive(Clone, Copy)]
enum Part<'a> {
    Text(&'a str),
    Number(u32),
    Long(u64),
    Huge(u128),
}

fn say_part<E: Sink>(err: &mut E, part: Part<'_>) -> Result<(), Failed>
    ensures { Sends (E.state err.old) (E.state err.new) (part_text part.entry) result }
{
    let mut buffer = Buffer::new();
    match part {
        Part::Text(text) => put_all(err, text.as_bytes()),
        Part::Number(number) => put_all(err, buffer.format(number).as_bytes()),
        Part::Long(number) => put_all(err, buffer.format(number).as_bytes()),
        Part::Huge(number) => put_all(err, buffer.format(number).as_bytes()),
    }
}

// Writes the parts one after the other, as far as it goes.
fn say<E: Sink>(err: &mut E, parts: &[Part<'_>]) -> Result<(), Failed>
    ensures { Sends (E.state err.old) (E.state err.new) (flat_map part_text parts.now) result }
{
    let [part, more @ ..] = parts else {
        return Ok(());
    };
    match say_part(err, *part) {
        Ok(()) => say(err, more),
        Err(failed) => Err(failed),
    }
}

// Writes a line about a file, from the parts after its name.
fn say_about<E: Sink>(err: &mut E, name: &str, parts: &[Part<'_>]) -> Result<(), Failed>
    ensures { Sends (E.state err.old) (E.state err.new) (about name.now (flat_map part_text parts.now)) result }
{
    match say(
        err,
        &[Part::Text("lincs: "), Part::Text(name), Part::Text(": ")],
    ) {
        Ok(()) => say(err, parts),
        Err(failed) => Err(failed),
    }
}

// Says a fault's number, and its place, if it has one.
fn say_numbered<E: Sink>(
    err: &mut E,
    name: &str,
    kind: &str,
    fault: FaultNumber,
) -> Result<(), Failed>
    ensures { Sends (E.state err.old) (E.state err.new)
        (about name.now (numbered kind.now fault.code fault.place)) result }
{
    let (kind, code) = (Part::Text(kind), Part::Number(fault.code));
    match fault.place {
        None => say_about(err, name, &[kind, code, Part::Text("\n")]),
        Some(place) => say_about(
            err,
            name,
            &[
                kind,
                code,
                Part::Text(" at "),
                Part::Number(place),
                Part::Text("\n"),
            ],
        ),
    }
}

// Says why a row is refused.
fn say_row<E: Sink>(err: &mut E, name: &str, fault: RowFault) -> Result<(), Failed>
    ensures { Sends (E.state err.old) (E.state err.new) (about name.now (row_text fault)) result }
{
    let begin = Part::Text("row ");
    match fault {
        RowFault::NoMemory => say_about(err, name, &[begin, Part::Text("\n")]),
        RowFault::Length(row) => {
            say_about(err, name, &[begin, Part::Number(row), Part::Text(": 1\n")])
        }
        RowFault::Grade(row, criterion, fault) => say_about(
            err,
            name,
            &[
                begin,
                Part::Number(row),
                Part::Text(": 2 at "),
                Part::Number(criterion),
                Part::Text(": "),
                Part::Number(grade_number(fault)),
                Part::Text("\n"),
            ],
        ),
        RowFault::Category(row) => {
            say_about(err, name, &[begin, Part::Number(row), Part::Text(": 3\n")])
        }
    }
}

// Says why a text is no log.
fn say_log<E: Sink>(err: &mut E, name: &str, fault: LogFault) -> Result<(), Failed>
    ensures { Sends (E.state err.old) (E.state err.new) (about name.now (log_text fault)) result }
{
    match fault {
        LogFault::NoMemory => say_about(err, name, &[Part::Text("log \n")]),
        LogFault::Header => say_about(err, name, &[Part::Text("log 1\n")]),
        LogFault::Shape(line) => say_about(
            err,
            name,
            &[
                Part::Text("log 2 at line "),
                Part::Number(line),
                Part::Text("\n"),
            ],
        ),
    }
}

// Says why a file is refused.
fn say_refusal<E: Sink>(err: &mut E, name: &str, refusal: Refusal) -> Result<(), Failed>
    ensures { Sends (E.state err.old) (E.state err.new) (about name.now (refusal_text refusal)) result }
{
    match refusal {
        Refusal::TooLong => say_about(err, name, &[Part::Text("too long\n")]),
        Refusal::Yaml(fault) => say_numbered(err, name, "yaml ", yaml_number(fault)),
        Refusal::Problem(fault) => say_numbered(err, name, "problem ", problem_number(fault)),
        Refusal::Model(fault) => say_numbered(err, name, "model ", model_number(fault)),
        Refusal::Table(fault) => say_numbered(err, name, "table ", table_number(fault)),
        Refusal::Row(fault) => say_row(err, name, fault),
        Refusal::Log(fault) => say_log(err, name, fault),
    }
}

// Says why the command line is no job.
fn say_usage<E: Sink>(err: &mut E, fault: LineFault) -> Result<(), Failed>
    ensures { Sends (E.state err.old) (E.state err.new) (usage_line fault) result }
{
    let (code, word) = line_number(fault);
    say(
        err,
        &[
            Part::Text("lincs: usage "),
            Part::Number(code),
            Part::Text(" at word "),
            Part::Long(word),
            Part::Text("\n"),
        ],
    )
}

// Says why a refutation is rejected.
fn say_rejected<E: Sink>(err: &mut E, code: u32, line: Option<u32>) -> Result<(), Failed>
    ensures { Sends (E.state err.old) (E.state err.new) (rejected_line code line) result }
{
    let (begin, code) = (
        Part::Text("lincs: refutation rejected: "),
        Part::Number(code),
    );
    match line {
        None => say(err, &[begin, code, Part::Text("\n")]),
        Some(line) => say(
            err,
            &[
                begin,
                code,
                Part::Text(" at line "),
                Part::Number(line),
                Part::Text("\n"),
            ],
        ),
    }
}

// Says why a formula is too large.
fn say_size<E: Sink>(err: &mut E, size: Size) -> Result<(), Failed>
    ensures { Sends (E.state err.old) (E.state err.new) (size_line size) result }
{
    match size {
        Size::Wide(criteria) => say(
            err,
            &[
                Part::Text("lincs: too wide: "),
                Part::Number(criteria),
                Part::Text(" criteria\n"),
            ],
        ),
        Size::Large(literals) => say(
            err,
            &[
                Part::Text("lincs: too large: "),
                Part::Huge(literals),
                Part::Text(" literals\n"),
            ],
        ),
    }
}

// Says why a command stopped.
fn say_stop<E: Sink>(err: &mut E, stop: &Stop<'_>) -> Result<(), Failed>
    ensures { Sends (E.state err.old) (E.state err.new) (line_of_report (report_of (Err stop.now))) result }
{
    match stop {
        Stop::Usage(fault) => say_usage(err, *fault),
        Stop::Unread(name) => say(
            err,
            &[
                Part::Text("lincs: cannot read "),
                Part::Text(name),
                Part::Text("\n"),
            ],
        ),
        Stop::Refused(name, refusal) => say_refusal(err, name, *refusal),
        Stop::TooLarge(size) => say_size(err, *size),
        Stop::Unwritten => say(err, &[Part::Text("lincs: cannot write\n")]),
        Stop::NoMemory => say(err, &[Part::Text("lincs: out of memory\n")]),
    }
}

// Says what a verdict needs.
fn say_verdict<E: Sink>(err: &mut E, verdict: Verdict) -> Result<(), Failed>
    ensures says { Sends (E.state err.old) (E.state err.new) (line_of_report (at_end (gave verdict))) result }
    ensures silent { line_of_report (at_end (gave verdict)) ≡ [] → E.state err.new ≡ E.state err.old }
{
    match verdict {
        Verdict::Done => Ok(()),
        Verdict::No => Ok(()),
        Verdict::Rejected(code, line) => say_rejected(err, code, line),
        Verdict::Limit(most) => say(
            err,
            &[
                Part::Text("lincs: limit of "),
                Part::Long(most),
                Part::Text(" reached\n"),
            ],
        ),
    }
}

/// Writes the error line of a run that ended so, as far as it goes. It takes no memory.
#[tactic(auto, using(crate::proofs::SayLemmas::says_sent, crate::proofs::SayLemmas::stop_has_line))]
pub fn write_line<E: Sink>(err: &mut E, end: &Result<Verdict, Stop<'_>>)
    ensures { Says (E.state err.old) (E.state err.new) (line_of_report (report_of end.now)) }
{
    let _ = match end {
        Ok(verdict) => say_verdict(err, *verdict),
        Err(stop) => say_stop(err, stop),
    };
}

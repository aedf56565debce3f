//! The top call.
ghost use Rattle.std.specs.Prelude.{◌≡◌, ◌≢◌, ◌↔◌, true, Err, IsErr};
ghost use Rattle.line_core.specs.Command.{HasItsRanges, command_of};
ghost use Rattle.line_core.specs.Line.{line_gives};
ghost use Rattle.line_core.specs.Texts.{texts};
ghost use Rattle.lincs_top.specs.Command.{learns_or_encodes, generates_or_rehearses};
ghost use Rattle.lincs_top.specs.Headline.{Sorts, FindsModel, WritesRefutation, WritesLemmas, Accepts};
ghost use Rattle.lincs_top.specs.Obeys.{MayOpen, Obeys};
ghost use Rattle.lincs_top.specs.Run.{MayOpenIn, DoesLine, Reports, StatusTells, Completes};

use crate::accuracy::rate;
use crate::check::check_refutation;
use crate::classify::classify;
use crate::describe::{tell_model, tell_problem, tell_table};
use crate::encode::write_formula;
use crate::generate::{generate_model, generate_problem, generate_table};
use crate::learn::learn_model;
use crate::line::write_line;
use crate::rehearse::rehearse_once;
use crate::status::Status;
use crate::stop::{Stop, Verdict, status_of};
use edge_core::{Shelf, Sink};
use line_core::{Job, read_line};
use std::alloc::Global;

// Does a job that learns, encodes or checks a refutation.
fn learn_or_encode<'a, S: Shelf, O: Sink>(
    alloc: Global,
    job: Job<'a>,
    shelf: &mut S,
    out: &mut O,
) -> Result<Verdict, Stop<'a>>
    requires kind { learns_or_encodes (command_of job) ≡ true }
    requires names { MayOpen (S.state shelf.old) (command_of job) }
    requires ranges { HasItsRanges (command_of job) }
    ensures { Obeys (command_of job.entry)
        (S.state shelf.old) (S.state shelf.new) (O.state out.old) (O.state out.new) result }
{
    match job {
        Job::Learn {
            problem,
            table,
            encoding,
            most,
        } => learn_model(alloc, problem, table, encoding, most, shelf, out),
        Job::Encode {
            problem,
            table,
            encoding,
        } => write_formula(alloc, problem, table, encoding, shelf, out),
        Job::CheckRefutation {
            problem,
            table,
            refutation,
        } => check_refutation(alloc, problem, table, refutation, shelf, out),
        _ => unreachable!(),
    }
}

// Does a job that generates or rehearses.
fn generate_or_rehearse<'a, S: Shelf, O: Sink>(
    alloc: Global,
    job: Job<'a>,
    shelf: &mut S,
    out: &mut O,
) -> Result<Verdict, Stop<'a>>
    requires kind { generates_or_rehearses (command_of job) ≡ true }
    requires names { MayOpen (S.state shelf.old) (command_of job) }
    requires ranges { HasItsRanges (command_of job) }
    ensures { Obeys (command_of job.entry)
        (S.state shelf.old) (S.state shelf.new) (O.state out.old) (O.state out.new) result }
{
    match job {
        Job::GenerateProblem {
            criteria,
            categories,
            seed,
        } => generate_problem(alloc, criteria, categories, seed, shelf, out),
        Job::GenerateModel { problem, seed } => { generate_model(alloc, problem, seed, shelf, out) }
        Job::GenerateTable {
            problem,
            model,
            rows,
            seed,
        } => generate_table(alloc, problem, model, rows, seed, shelf, out),
        Job::Rehearse {
            criteria,
            categories,
            rows,
            seed,
        } => rehearse_once(alloc, criteria, categories, rows, seed, shelf, out),
        _ => unreachable!(),
    }
}

// Does a job.
fn obey<'a, S: Shelf, O: Sink>(
    alloc: Global,
    job: Job<'a>,
    shelf: &mut S,
    out: &mut O,
) -> Result<Verdict, Stop<'a>>
    requires names { MayOpen (S.state shelf.old) (command_of job) }
    requires ranges { HasItsRanges (command_of job) }
    ensures { Obeys (command_of job.entry)
        (S.state shelf.old) (S.state shelf.new) (O.state out.old) (O.state out.new) result }
{
    match job {
        Job::Classify {
            problem,
            model,
            table,
        } => { classify(alloc, problem, model, table, shelf, out) }
        Job::Accuracy {
            problem,
            model,
            table,
        } => rate(alloc, problem, model, table, shelf, out),
        Job::DescribeProblem { problem } => tell_problem(alloc, problem, shelf, out),
        Job::DescribeModel { problem, model } => tell_model(alloc, problem, model, shelf, out),
        Job::DescribeTable { problem, table } => tell_table(alloc, problem, table, shelf, out),
        Job::Learn { .. } | Job::Encode { .. } | Job::CheckRefutation { .. } => {
            learn_or_encode(alloc, job, shelf, out)
        }
        Job::GenerateProblem { .. }
        | Job::GenerateModel { .. }
        | Job::GenerateTable { .. }
        | Job::Rehearse { .. } => generate_or_rehearse(alloc, job, shelf, out),
    }
}

// Reads the command line and does its job.
fn do_line<'a, S: Shelf, O: Sink>(
    alloc: Global,
    words: &'a [String],
    shelf: &mut S,
    out: &mut O,
) -> Result<Verdict, Stop<'a>>
    requires { MayOpenIn (S.state shelf.old) (line_gives (texts words.now)) }
    ensures { DoesLine (line_gives (texts words.now))
        (S.state shelf.old) (S.state shelf.new) (O.state out.old) (O.state out.new) result }
{
    match read_line(words) {
        Ok(job) => obey(alloc, job, shelf, out),
        Err(fault) => Err(Stop::Usage(fault)),
    }
}

/// Does all that the program does. `words` are those after the program's name. The files that they name
/// are read from `shelf`, the output goes to `out`, and the error line of a run that needs one goes to
/// `err`. An `err` that fails changes nothing else, and writing the line takes no memory.
pub fn run<S: Shelf, O: Sink, E: Sink>(
    alloc: Global,
    words: &[String],
    shelf: &mut S,
    out: &mut O,
    err: &mut E,
) -> Status
    // It can open no file but those of the line's job.
    requires { MayOpenIn (S.state shelf.old) (line_gives (texts words.now)) }

    // There is one report of the run, with this status, these causes and this error line.
    ensures report { Reports (line_gives (texts words.now)) (S.state shelf.old) (S.state shelf.new)
        (O.state out.old) (O.state out.new) (E.state err.old) (E.state err.new) result }

    // The headline: what a status says of told files and of what was written.
    ensures sorted { result ≡ Status.Done →
        Sorts (line_gives (texts words.now)) (S.state shelf.old) (O.state out.old) (O.state out.new) }
    ensures model { result ≡ Status.Done →
        FindsModel (line_gives (texts words.now)) (S.state shelf.old) (O.state out.old) (O.state out.new) }
    ensures refutation { result ≡ Status.No →
        WritesRefutation (line_gives (texts words.now)) (S.state shelf.old) (O.state out.old) (O.state out.new) }
    ensures lemmas { result ≡ Status.Limit →
        WritesLemmas (line_gives (texts words.now)) (S.state shelf.old) (O.state out.old) (O.state out.new) }
    ensures accepted { result ≡ Status.Done → Accepts (line_gives (texts words.now)) (S.state shelf.old) }

    // What follows from the report.
    ensures usage { (result ≡ Status.Usage) ↔ IsErr (line_gives (texts words.now)) }
    ensures tells { StatusTells (line_gives (texts words.now)) (S.state shelf.old) (S.state shelf.new)
        (O.state out.old) (O.state out.new) result }
    ensures complete { Completes (line_gives (texts words.now)) (S.state shelf.old) (S.state shelf.new)
        (O.state out.old) (O.state out.new) result }
    ensures quiet { result ≡ Status.Done → E.state err.new ≡ E.state err.old }

    // A shelf and an output that count no fault have none.
    ensures safe_shelf { (S.state shelf.new).faults ≡ 0 → result ≢ Status.ReadFault }
    ensures safe_out { (O.state out.new).faults ≡ 0 → result ≢ Status.WriteFault }
{
    let end = do_line(alloc, words, shelf, out);
    write_line(err, &end);
    status_of(&end)
}

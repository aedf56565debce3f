//! The steps of the files: each opens one file and reads what it holds.
ghost use Rattle.std.specs.Prelude.{◌≡◌, IsTrue, IfOk};
ghost use Rattle.problem_core.specs.Problem.{IsProblem};
ghost use Rattle.model_core.specs.Model.{Belongs};
ghost use Rattle.table_core.specs.Examples.{BelongTo};
ghost use Rattle.table_core.specs.Table.{IsTableOf};
ghost use Rattle.lincs_top.specs.FileGives.{tree_in, problem_in, model_in, table_in, examples_in, log_in};
ghost use Rattle.lincs_top.specs.Refusal.{yaml_refusal, problem_refusal, model_refusal, table_refusal, row_refusal};
ghost use Rattle.lincs_top.specs.Refusal.{log_refusal};
ghost use Rattle.lincs_top.specs.FileStep.{TakesBytes, TakesStep};

use crate::stop::{Refusal, Stop};
use chain_core::{Encoding, Log, LogFault, read_log};
use edge_core::{LoadFault, Shelf, load};
use model_core::{Model, ModelFault, read_model};
use problem_core::{Problem, ProblemFault, read_problem};
use std::alloc::Global;
use table_core::{Examples, RowFault, Table, TableFault, examples};
use yaml_core::{Node, YamlFault, read_yaml};

// What a reader's fault refuses a file for; out of memory is no refusal.
fn yaml_refusal(fault: YamlFault) -> Option<Refusal>
    ensures { result ≡ yaml_refusal fault }
{
    match fault {
        YamlFault::NoMemory => None,
        _ => Some(Refusal::Yaml(fault)),
    }
}

fn problem_refusal(fault: ProblemFault) -> Option<Refusal>
    ensures { result ≡ problem_refusal fault }
{
    match fault {
        ProblemFault::NoMemory => None,
        _ => Some(Refusal::Problem(fault)),
    }
}

fn model_refusal(fault: ModelFault) -> Option<Refusal>
    ensures { result ≡ model_refusal fault }
{
    match fault {
        ModelFault::NoMemory => None,
        _ => Some(Refusal::Model(fault)),
    }
}

fn table_refusal(fault: TableFault) -> Option<Refusal>
    ensures { result ≡ table_refusal fault }
{
    match fault {
        TableFault::NoMemory => None,
        _ => Some(Refusal::Table(fault)),
    }
}

fn row_refusal(fault: RowFault) -> Option<Refusal>
    ensures { result ≡ row_refusal fault }
{
    match fault {
        RowFault::NoMemory => None,
        _ => Some(Refusal::Row(fault)),
    }
}

fn log_refusal(fault: LogFault) -> Option<Refusal>
    ensures { result ≡ log_refusal fault }
{
    match fault {
        LogFault::NoMemory => None,
        _ => Some(Refusal::Log(fault)),
    }
}

// The bytes of a file.
fn read_file<'a, S: Shelf>(alloc: Global, shelf: &mut S, name: &'a str) -> Result<Vec<u8>, Stop<'a>>
    requires { IsTrue ((S.state shelf.old).may_open name.now) }
    ensures { TakesBytes (S.state shelf.old) (S.state shelf.new) name.now result }
{
    match load(alloc, shelf, name) {
        Ok(bytes) => Ok(bytes),
        Err(LoadFault::Read) => Err(Stop::Unread(name)),
        Err(LoadFault::TooLong) => Err(Stop::Refused(name, Refusal::TooLong)),
        Err(LoadFault::NoMemory) => Err(Stop::NoMemory),
    }
}

// The tree of a file.
fn read_tree<'a, S: Shelf>(alloc: Global, shelf: &mut S, name: &'a str) -> Result<Node, Stop<'a>>
    requires { IsTrue ((S.state shelf.old).may_open name.now) }
    ensures step { TakesStep (S.state shelf.old) (S.state shelf.new) tree_in name.now result }
{
    let bytes = read_file(alloc, shelf, name)?;
    match read_yaml(alloc, &bytes) {
        Ok(node) => Ok(node),
        Err(fault) => Err(Stop::refusing(name, yaml_refusal(fault))),
    }
}

/// The problem of a file.
pub fn problem_of_file<'a, S: Shelf>(
    alloc: Global,
    shelf: &mut S,
    name: &'a str,
) -> Result<Problem, Stop<'a>>
    requires { IsTrue ((S.state shelf.old).may_open name.now) }
    ensures step { TakesStep (S.state shelf.old) (S.state shelf.new) problem_in name.now result }
    ensures sound { IfOk result IsProblem }
{
    let node = read_tree(alloc, shelf, name)?;
    match read_problem(alloc, &node) {
        Ok(problem) => Ok(problem),
        Err(fault) => Err(Stop::refusing(name, problem_refusal(fault))),
    }
}

/// The model of a file, for a problem.
pub fn model_of_file<'a, S: Shelf>(
    alloc: Global,
    problem: &Problem,
    shelf: &mut S,
    name: &'a str,
) -> Result<Model, Stop<'a>>
    requires { IsTrue ((S.state shelf.old).may_open name.now) }
    ensures step { TakesStep (S.state shelf.old) (S.state shelf.new) (model_in problem.now) name.now result }
    ensures belongs { IfOk result (Belongs problem.now) }
{
    let node = read_tree(alloc, shelf, name)?;
    match read_model(alloc, problem, &node) {
        Ok(model) => Ok(model),
        Err(fault) => Err(Stop::refusing(name, model_refusal(fault))),
    }
}

/// The table of a file, opened before its first row.
pub fn table_of_file<'a, S: Shelf>(
    alloc: Global,
    problem: &Problem,
    shelf: &mut S,
    name: &'a str,
) -> Result<Table, Stop<'a>>
    requires { IsTrue ((S.state shelf.old).may_open name.now) }
    ensures step { TakesStep (S.state shelf.old) (S.state shelf.new) (table_in problem.now) name.now result }
    ensures fits { IfOk result (IsTableOf problem.now) }
{
    let bytes = read_file(alloc, shelf, name)?;
    match Table::open(alloc, problem, bytes) {
        Ok(table) => Ok(table),
        Err(fault) => Err(Stop::refusing(name, table_refusal(fault))),
    }
}

/// The examples of a table's file: its rows that have a category.
pub fn examples_of_file<'a, S: Shelf>(
    alloc: Global,
    problem: &Problem,
    shelf: &mut S,
    name: &'a str,
) -> Result<Examples, Stop<'a>>
    requires { IsTrue ((S.state shelf.old).may_open name.now) }
    ensures step { TakesStep (S.state shelf.old) (S.state shelf.new) (examples_in problem.now) name.now result }
    ensures belong { IfOk result (BelongTo problem.now) }
{
    let table = table_of_file(alloc, problem, shelf, name)?;
    match examples(alloc, problem, table) {
        Ok(examples) => Ok(examples),
        Err(fault) => Err(Stop::refusing(name, row_refusal(fault))),
    }
}

/// The log of a refutation's file, and the encoding that it names.
pub fn refutation_of_file<'a, S: Shelf>(
    alloc: Global,
    shelf: &mut S,
    name: &'a str,
) -> Result<(Encoding, Log), Stop<'a>>
    requires { IsTrue ((S.state shelf.old).may_open name.now) }
    ensures step { TakesStep (S.state shelf.old) (S.state shelf.new) log_in name.now result }
{
    let bytes = read_file(alloc, shelf, name)?;
    match read_log(alloc, &bytes) {
        Ok(read) => Ok(read),
        Err(fault) => Err(Stop::refusing(name, log_refusal(fault))),
    }
}

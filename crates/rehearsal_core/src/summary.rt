//! The summary of a rehearsal.
ghost use Rattle.std.specs.Prelude.{◌≡◌, ◌++◌, length, IfOk, IfErr, OnOk};
ghost use Rattle.sorting_rule.specs.Rebuilt.{Learns};
ghost use Rattle.literals_core.specs.declared.encoding.Encoding.TheVariants.{Separation};
ghost use Rattle.problem_core.specs.Problem.{IsProblem};
ghost use Rattle.table_core.specs.Examples.{BelongTo};
ghost use Rattle.model_core.specs.Model.{rule_of, Belongs};
ghost use Rattle.report_core.specs.Restored.{restored_count};
ghost use Rattle.encoding_rules.specs.Encodings.{formula_of};
ghost use Rattle.ranks_core.specs.Ranks.{task_of};
ghost use Rattle.learn_core.specs.Learning.{LearnFaultOf};
ghost use Rattle.rehearsal_core.specs.Rehearsed.{counts_text, number_line, restored_line, IsSummary};

use encoders_core::{Encoding, encode};
use itoa::Buffer;
use learn_core::LearnFault;
use model_core::Model;
use model_text_core::write_model;
use problem_core::Problem;
use ranks_core::Ranks;
use report_core::accuracy;
use std::alloc::{AllocError, Global};
use table_core::Examples;

/// How large a formula is.
#[derive(Clone, Copy)]
pub struct Size {
    variables: u32,
    clauses: u32,
}

/// The size of the formula of examples. The formula is let go before learning makes it again.
pub fn formula_size(
    alloc: Global,
    problem: &Problem,
    examples: &Examples,
) -> Result<Size, LearnFault>
    requires { BelongTo problem.now examples.now }
    ensures variables { let formula = formula_of Separation (task_of problem.now examples.now) in
        IfOk result (λ size. size.variables ≡ formula.variables) }
    ensures clauses { let formula = formula_of Separation (task_of problem.now examples.now) in
        IfOk result (λ size. size.clauses ≡ length formula.clauses) }
    ensures fault { IfErr result (LearnFaultOf Separation (task_of problem.now examples.now)) }
{
    let ranks = Ranks::of(alloc, problem, examples)?;
    let formula = encode(alloc, Encoding::Separation, problem, examples, &ranks)?;
    Ok(Size {
        variables: formula.variables(),
        clauses: formula.count(),
    })
}

/// Appends a line of a word and a number.
fn put_line(word: &str, number: u32, out: &mut Vec<u8>) -> Result<(), AllocError>
    ensures { OnOk result (out.new.items ≡ out.old.items ++ number_line word.now number) }
{
    let mut buffer = Buffer::new();
    out.extend_from_slice(word.as_bytes())?;
    out.extend_from_slice(buffer.format(number).as_bytes())?;
    out.extend_from_slice(b"\n")
}

/// Appends the line that says how many examples are restored, of how many.
fn put_restored(restored: u64, all: u64, out: &mut Vec<u8>) -> Result<(), AllocError>
    ensures { OnOk result (out.new.items ≡ out.old.items ++ restored_line restored all) }
{
    let mut buffer = Buffer::new();
    out.extend_from_slice(b"restored ")?;
    out.extend_from_slice(buffer.format(restored).as_bytes())?;
    out.extend_from_slice(b"/")?;
    out.extend_from_slice(buffer.format(all).as_bytes())?;
    out.extend_from_slice(b"\n")
}

/// Appends the lines of all counts.
fn put_counts(
    problem: &Problem,
    examples: &Examples,
    size: Size,
    out: &mut Vec<u8>,
) -> Result<(), AllocError>
    requires variables { size.variables ≡ (formula_of Separation (task_of problem.now examples.now)).variables }
    requires clauses { size.clauses ≡ length (formula_of Separation (task_of problem.now examples.now)).clauses }
    ensures { OnOk result (out.new.items ≡ out.old.items ++ counts_text problem.now examples.now) }
{
    put_line("criteria ", problem.criteria_count(), out)?;
    put_line("categories ", problem.categories_count(), out)?;
    put_line("rows ", examples.count(), out)?;
    put_line("variables ", size.variables, out)?;
    put_line("clauses ", size.clauses, out)
}

/// The summary of a model that was learned from examples.
pub fn summary(
    alloc: Global,
    problem: &Problem,
    examples: &Examples,
    model: &Model,
    size: Size,
) -> Result<Vec<u8>, AllocError>
    requires problem { IsProblem problem.now }
    requires examples { BelongTo problem.now examples.now }
    requires belongs { Belongs problem.now model.now }
    requires learns { Learns examples.now (rule_of problem.now model.now) }
    requires variables { size.variables ≡ (formula_of Separation (task_of problem.now examples.now)).variables }
    requires clauses { size.clauses ≡ length (formula_of Separation (task_of problem.now examples.now)).clauses }
    ensures { IfOk result (λ text. IsSummary problem.now examples.now text.items) }
{
    let (restored, all) = accuracy(problem, model, examples);
    let mut text = Vec::new(alloc);
    put_counts(problem, examples, size, &mut text)?;
    put_restored(restored, all, &mut text)?;
    write_model(problem, model, &mut text)?;
    Ok(text)
}

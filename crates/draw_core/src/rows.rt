//! Drawn rows: as a table, and as examples.
ghost use Rattle.std.specs.Prelude.{◌≡◌, [], ◌∷◌, ◌++◌, ◌+◌, ◌*◌, ◌<◌, ◌≤◌, IfOk, OnOk, codes, length};
ghost use Rattle.std.specs.Prelude.{slice_index_or};
ghost use Rattle.std.specs.List.{flat_map};
ghost use Rattle.lists_core.specs.Puts.{Puts};
ghost use Rattle.problem_core.specs.Grade.{IsGrade, grade_text};
ghost use Rattle.sorting_rule.specs.Examples.{Restores};
ghost use Rattle.sorting_rule.specs.Model.{category};
ghost use Rattle.model_core.specs.Model.{rule_of, Belongs};
ghost use Rattle.table_core.specs.Examples.{BelongTo};
ghost use Rattle.table_core.specs.Written.{field_text, next_text, record_text};
ghost use Rattle.encoding_rules.specs.Each.{each};
ghost use Rattle.draw_core.specs.DrawnProblem.{numbered};
ghost use Rattle.draw_core.specs.DrawnTable.{cells_of, next_grades, AreGrades};
ghost use Rattle.draw_core.specs.DrawnTable.{drawn_examples, drawn_record, drawn_table};
ghost use Rattle.draw_core.specs.Words.{after, seeded, words_of};

use crate::choice::{choice_count, chosen, scale_at};
use crate::words::seeded;
use itoa::Buffer;
use model_core::{Model, sort};
use problem_core::{Criterion, Grade, Problem, put_grade};
use rand_core::utils::NextWord;
use rand_pcg::Pcg32;
use std::alloc::{AllocError, Global};
use table_core::{Examples, put_field, put_header, put_last, put_next};

/// Draws the grades of the next row, which take the place of those in `grades`.
fn draw_grades(
    problem: &Problem,
    generator: &mut Pcg32,
    grades: &mut Vec<Grade>,
) -> Result<(), AllocError>
    ensures grades { OnOk result (grades.new.items ≡ next_grades problem.now generator.old) }
    ensures belong { OnOk result (AreGrades problem.now grades.new.items) }
    ensures after { OnOk result (generator.new ≡ after (length problem.now.criteria) generator.old) }
{
    grades.clear();
    for i in 0..problem.criteria_count() {
        let scale = scale_at(problem, i);
        let choice = generator.next_word() % choice_count(scale);
        grades.push(chosen(scale, choice))?;
    }
    Ok(())
}

/// Draws the next row: its grades take the place of those in `grades`. Returns the category that the model gives them.
fn draw_row(
    problem: &Problem,
    model: &Model,
    generator: &mut Pcg32,
    grades: &mut Vec<Grade>,
) -> Result<u32, AllocError>
    requires { Belongs problem.now model.now }
    ensures grades { OnOk result (grades.new.items ≡ next_grades problem.now generator.old) }
    ensures belong { OnOk result (AreGrades problem.now grades.new.items) }
    ensures after { OnOk result (generator.new ≡ after (length problem.now.criteria) generator.old) }
    ensures category { IfOk result (λ c. c ≡ category (rule_of problem.now model.now) grades.new.items) }
    ensures below { IfOk result (λ c. c < length problem.now.categories) }
{
    draw_grades(problem, generator, grades)?;
    Ok(sort(problem, model, grades.as_slice()))
}

/// The rows that a seed draws, as examples: the grades of each, and the category that the model gives them. So the
/// model restores them. At most 100,000 rows; they are those of [`draw_table`].
pub fn draw_examples(
    alloc: Global,
    problem: &Problem,
    model: &Model,
    rows: u32,
    seed: u64,
) -> Result<Examples, AllocError>
    requires belongs { Belongs problem.now model.now }
    requires few { rows ≤ 100000 }
    ensures drawn { IfOk result (λ examples. examples
        ≡ drawn_examples problem.now (rule_of problem.now model.now) rows
        (words_of (seeded seed) (rows * length problem.now.criteria))) }
    ensures belong { IfOk result (BelongTo problem.now) }
    ensures restored { IfOk result (λ examples. Restores (rule_of problem.now model.now) examples) }
{
    let mut generator = seeded(seed);
    let mut grades = Vec::new(alloc);
    let mut examples = Examples::empty(alloc);
    for _ in 0..rows {
        let category = draw_row(problem, model, &mut generator, &mut grades)?;
        examples.push(grades.as_slice(), category)?;
    }
    Ok(examples)
}

/// Makes `field` the name of a row, by its place from 0.
fn name_row(row: u32, field: &mut Vec<u8>) -> Result<(), AllocError>
    requires { row < 100000 }
    ensures { OnOk result (field.new.items ≡ numbered (codes "Alternative ") (row + 1)) }
{
    let mut buffer = Buffer::new();
    field.clear();
    field.extend_from_slice(b"Alternative ")?;
    field.extend_from_slice(buffer.format(row + 1).as_bytes())
}

/// Appends the name of a row, by its place from 0. `field` is overwritten.
fn put_name(row: u32, field: &mut Vec<u8>, out: &mut Vec<u8>) -> Result<(), AllocError>
    requires { row < 100000 }
    ensures { Puts out.old.items out.new.items result (field_text (numbered (codes "Alternative ") (row + 1))) }
{
    name_row(row, field)?;
    put_field(field.as_slice(), out)
}

/// Appends a comma and a grade. `field` is overwritten.
fn put_cell(
    criterion: &Criterion,
    grade: Grade,
    field: &mut Vec<u8>,
    out: &mut Vec<u8>,
) -> Result<(), AllocError>
    requires { IsGrade criterion.now.scale grade }
    ensures { Puts out.old.items out.new.items result (next_text (grade_text criterion.now.scale grade)) }
{
    field.clear();
    put_grade(criterion, grade, field)?;
    put_next(field.as_slice(), out)
}

/// Appends grades, a comma before each. `field` is overwritten.
fn put_cells(
    problem: &Problem,
    grades: &[Grade],
    field: &mut Vec<u8>,
    out: &mut Vec<u8>,
) -> Result<(), AllocError>
    requires { AreGrades problem.now grades.now }
    ensures { Puts out.old.items out.new.items result (flat_map next_text (cells_of problem.now grades.now)) }
{
    for i in 0..problem.criteria_count() {
        put_cell(problem.criterion(i), grades[i as usize], field, out)?;
    }
    Ok(())
}

/// Appends the record of a row, by its place from 0. `field` is overwritten.
fn put_record(
    problem: &Problem,
    row: u32,
    grades: &[Grade],
    category: u32,
    field: &mut Vec<u8>,
    out: &mut Vec<u8>,
) -> Result<(), AllocError>
    requires row { row < 100000 }
    requires grades { AreGrades problem.now grades.now }
    requires category { category < length problem.now.categories }
    ensures { Puts out.old.items out.new.items result
        (record_text (numbered (codes "Alternative ") (row + 1)
        ∷ (cells_of problem.now grades.now ++ slice_index_or problem.now.categories category [] ∷ []))) }
{
    put_name(row, field, out)?;
    put_cells(problem, grades, field, out)?;
    put_last(problem.category(category).as_bytes(), out)
}

/// Appends the records of rows, one after the other.
fn put_rows(
    alloc: Global,
    problem: &Problem,
    model: &Model,
    rows: u32,
    seed: u64,
    out: &mut Vec<u8>,
) -> Result<(), AllocError>
    requires belongs { Belongs problem.now model.now }
    requires few { rows ≤ 100000 }
    ensures { Puts out.old.items out.new.items result
        (each (drawn_record problem.now (rule_of problem.now model.now)
        (words_of (seeded seed) (rows * length problem.now.criteria))) rows) }
{
    let mut generator = seeded(seed);
    let mut grades = Vec::new(alloc);
    let mut field = Vec::new(alloc);
    for row in 0..rows {
        let category = draw_row(problem, model, &mut generator, &mut grades)?;
        put_record(problem, row, grades.as_slice(), category, &mut field, out)?;
    }
    Ok(())
}

/// Appends the table that a seed draws for a problem: its header, and rows of drawn grades with the category that the
/// model gives them. At most 100,000 rows; each is written before the next is drawn. Out of memory leaves a prefix of
/// the table. Equal seeds draw equal tables.
pub fn draw_table(
    alloc: Global,
    problem: &Problem,
    model: &Model,
    rows: u32,
    seed: u64,
    out: &mut Vec<u8>,
) -> Result<(), AllocError>
    requires belongs { Belongs problem.now model.now }
    requires few { rows ≤ 100000 }
    ensures { Puts out.old.items out.new.items result
        (drawn_table problem.now (rule_of problem.now model.now) rows
        (words_of (seeded seed) (rows * length problem.now.criteria))) }
{
    put_header(alloc, problem, out)?;
    put_rows(alloc, problem, model, rows, seed, out)
}

//! Writing grades.
ghost use Rattle.std.specs.Prelude.{◌≡◌, ◌≤◌, ◌^◌, Ok, unsigned_abs};
ghost use Rattle.lists_core.specs.Puts.{Puts};
ghost use Rattle.fixed_core.specs.Spelling.{spelling};
ghost use Rattle.problem_core.specs.Grade.{IsGrade, grade_text, name_in, quoted_grade_text, text_grade};
ghost use Rattle.problem_core.specs.declared.criterion.Scale.TheVariants.{Named};

use crate::criterion::{Criterion, Scale};
use crate::grade::{Grade, number_of};
use crate::names::Names;
use fixed_core::put_fixed;
use std::alloc::AllocError;
use yaml_core::put_quoted;

/// Appends the spelling of a number's grade.
fn put_number(grade: Grade, out: &mut Vec<u8>) -> Result<(), AllocError>
    requires { unsigned_abs grade ≤ 10 ^ 36 }
    ensures { Puts out.old.items out.new.items result (spelling grade) }
{
    put_fixed(number_of(grade.value()), out)
}

/// The name of a grade.
#[tactic(auto, using(crate::proofs::GradeTexts::grade_within))]
fn name_of(names: &Names, grade: Grade) -> &str
    requires { IsGrade (Named names.now) grade }
    ensures { result.now ≡ name_in names.now (unsigned_abs grade) }
{
    let _count = names.len();
    names.get(grade.magnitude() as u32)
}

/// Appends the text of a grade: a number's one spelling, or the plain name. That text has that grade. Out of
/// memory, it leaves a prefix of the text.
pub fn put_grade(criterion: &Criterion, grade: Grade, out: &mut Vec<u8>) -> Result<(), AllocError>
    requires { IsGrade criterion.now.scale grade }
    ensures text { Puts out.old.items out.new.items result (grade_text criterion.now.scale grade) }
    ensures reads { text_grade criterion.now.scale (grade_text criterion.now.scale grade) ≡ Ok grade }
{
    match &criterion.scale {
        Scale::Rising(_) => put_number(grade, out),
        Scale::Falling(_) => put_number(grade, out),
        Scale::Named(names) => out.extend_from_slice(name_of(names, grade).as_bytes()),
    }
}

/// Appends the text of a grade with names in double quotes. Out of memory, it
/// leaves a prefix of the text.
pub fn put_quoted_grade(
    criterion: &Criterion,
    grade: Grade,
    out: &mut Vec<u8>,
) -> Result<(), AllocError>
    requires { IsGrade criterion.now.scale grade }
    ensures { Puts out.old.items out.new.items result (quoted_grade_text criterion.now.scale grade) }
{
    match &criterion.scale {
        Scale::Rising(_) => put_number(grade, out),
        Scale::Falling(_) => put_number(grade, out),
        Scale::Named(names) => put_quoted(name_of(names, grade), out),
    }
}

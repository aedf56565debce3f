//! Writing scales.
ghost use Rattle.std.specs.Prelude.{◌≡◌, ◌++◌, OnOk};
ghost use Rattle.lists_core.specs.Puts.{Puts};
ghost use Rattle.yaml_tokens.specs.Written.{quoted_text};
ghost use Rattle.written_core.specs.Parts.{comma};
ghost use Rattle.problem_text_core.specs.Parts.{bounds_text, flow_names, names_text, numbers_text, scale_text};
ghost use Rattle.problem_text_core.specs.ProblemText.{type_word, AreNames, AreNumbers, IsKeptScale};

use crate::put::{put_number_line, put_word_line};
use problem_core::{Bounds, Names, Scale};
use std::alloc::AllocError;
use written_core::{put_comma, put_text};
use yaml_core::put_quoted;

/// The word for the type of a scale of numbers.
fn type_word(whole: bool) -> &'static str
    ensures { result.now ≡ type_word whole }
{
    if whole { "integer" } else { "real" }
}

/// Appends the lines of bounds.
fn put_bounds(bounds: Bounds, out: &mut Vec<u8>) -> Result<(), AllocError>
    ensures text { Puts out.old.items out.new.items result (bounds_text bounds) }
    ensures kept { OnOk result (AreNumbers bounds) }
{
    put_number_line("    min_value: ", bounds.least, out)?;
    put_number_line("    max_value: ", bounds.most, out)
}

/// Appends the lines of a scale of numbers.
fn put_numbers(direction: &str, bounds: Bounds, out: &mut Vec<u8>) -> Result<(), AllocError>
    ensures text { Puts out.old.items out.new.items result (numbers_text direction.now bounds) }
    ensures kept { OnOk result (AreNumbers bounds) }
{
    put_word_line("    value_type: ", type_word(bounds.whole), out)?;
    put_word_line("    preference_direction: ", direction, out)?;
    put_bounds(bounds, out)
}

/// Appends the name at a place of a flow list, behind a comma if it isn't the first.
fn put_name(place: u32, name: &str, out: &mut Vec<u8>) -> Result<(), AllocError>
    ensures { Puts out.old.items out.new.items result (comma place ++ quoted_text name.now) }
{
    put_comma(place as usize, out)?;
    put_quoted(name, out)
}

/// Appends names as a flow list.
fn put_names(names: &Names, out: &mut Vec<u8>) -> Result<(), AllocError>
    ensures text { Puts out.old.items out.new.items result (flow_names names.now) }
    ensures kept { OnOk result (AreNames names.now) }
{
    put_text("[", out)?;
    for place in 0..names.len() {
        put_name(place, names.get(place), out)?;
    }
    put_text("]", out)
}

/// Appends the lines of a scale of names.
fn put_enumerated(names: &Names, out: &mut Vec<u8>) -> Result<(), AllocError>
    ensures text { Puts out.old.items out.new.items result (names_text names.now) }
    ensures kept { OnOk result (AreNames names.now) }
{
    put_text("    value_type: enumerated\n    ordered_values: ", out)?;
    put_names(names, out)?;
    put_text("\n", out)
}

/// Appends the lines of a scale.
pub fn put_scale(scale: &Scale, out: &mut Vec<u8>) -> Result<(), AllocError>
    ensures text { Puts out.old.items out.new.items result (scale_text scale.now) }
    ensures kept { OnOk result (IsKeptScale scale.now) }
{
    match scale {
        Scale::Rising(bounds) => put_numbers("increasing", *bounds, out),
        Scale::Falling(bounds) => put_numbers("decreasing", *bounds, out),
        Scale::Named(names) => put_enumerated(names, out),
    }
}

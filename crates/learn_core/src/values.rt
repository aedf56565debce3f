//! Truth values of variables, as a list.
ghost use Rattle.std.specs.Prelude.{◌≡◌, ◌≤◌};
ghost use Rattle.search_core.specs.Values.{value_at};

/// The value of a variable: the first value is that of variable 1. False if there is none.
pub fn value_at(values: &[bool], variable: usize) -> bool
    requires { 1 ≤ variable }
    ensures { result ≡ value_at values.now variable }
{
    if variable <= values.len() {
        values[variable - 1]
    } else {
        false
    }
}

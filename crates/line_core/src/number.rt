//! Numbers of the command line.
ghost use Rattle.std.specs.Prelude.{◌≡◌, ◌≤◌, IfSome};
ghost use Rattle.std.specs.List.{list_all};
ghost use Rattle.std.specs.Char.{is_ascii_digit};
ghost use Rattle.line_core.specs.Number.{number_in, quantity_in, least_of, most_of};

/// What a number of the command line counts or names. Each has a range of its own.
#[derive(Clone, Copy)]
pub(crate) enum Quantity {
    Criteria,
    Categories,
    /// The rows of a generated table.
    TableRows,
    RehearsalRows,
    Conflicts,
    Seed,
}

/// The least number of the range.
fn least_of(quantity: Quantity) -> u64
    ensures { result ≡ least_of quantity }
{
    match quantity {
        Quantity::Criteria => 1,
        Quantity::Categories => 2,
        Quantity::TableRows => 0,
        Quantity::RehearsalRows => 0,
        Quantity::Conflicts => 1,
        Quantity::Seed => 0,
    }
}

/// The greatest number of the range.
fn most_of(quantity: Quantity) -> u64
    ensures { result ≡ most_of quantity }
{
    match quantity {
        Quantity::Criteria => 16,
        Quantity::Categories => 10,
        Quantity::TableRows => 100_000,
        Quantity::RehearsalRows => 10_000,
        Quantity::Conflicts => 1_000_000,
        Quantity::Seed => u64::MAX,
    }
}

fn all_digits(bytes: &[u8]) -> bool
    ensures { result ≡ list_all is_ascii_digit bytes.now }
{
    bytes.iter().all(|byte| byte.is_ascii_digit())
}

// The number that a text writes in digits, if it is in this range.
fn number_in(least: u64, most: u64, text: &str) -> Option<u64>
    ensures value { result ≡ number_in least most text.now }
    ensures within { IfSome result (λ number. number ≤ most) }
{
    if text.is_empty() || !all_digits(text.as_bytes()) {
        return None;
    }
    match text.parse::<u64>() {
        Ok(number) if least <= number && number <= most => Some(number),
        _ => None,
    }
}

/// The number that a text writes in ASCII digits, if it is in the range of the quantity.
pub(crate) fn quantity_in(quantity: Quantity, text: &str) -> Option<u64>
    ensures value { result ≡ quantity_in quantity text.now }
    ensures within { IfSome result (λ number. number ≤ most_of quantity) }
{
    number_in(least_of(quantity), most_of(quantity), text)
}

//! Reads the word at the front of a text, as a number or as a literal.
ghost use Rattle.std.specs.Prelude.{◌≡◌, ◌≢◌, ◌==◌, ◌∷◌, ◌||◌, not, ◌+◌, ◌<◌, ◌≤◌, length, min, take, slice_index};
ghost use Rattle.std.specs.Prelude.{MatchOption, false, ⊤};
ghost use Rattle.std.specs.Char.{is_ascii_digit};
ghost use Rattle.std.specs.Str.Parse.{AllDigits, digits_value};
ghost use Rattle.chain_core.specs.Reading.{number_in, place_in};
ghost use Rattle.chain_core.specs.Front.{StartsWith, StartsWithOther};

/// The greatest id: ids fit in 32 bits.
pub const MOST_ID: u64 = 4_294_967_295;

/// A word that was read: its value, and how many bytes it has.
#[derive(Clone, Copy)]
pub struct Front {
    pub value: u64,
    pub len: usize,
}

/// The number that the first word of a text writes.
pub fn front_number(text: &[u8]) -> Option<Front>
    ensures word { MatchOption result (StartsWithOther number_in text.now)
        (λ f. StartsWith number_in text.now f.value f.len) }
    ensures few { MatchOption result ⊤ (λ f. f.value ≤ MOST_ID) }
{
    let digits = front_digits(text);
    let len = digits.len;
    if !ends_word(text, len) {
        return None;
    }
    let value = number_of(&text[..len], digits.value)?;
    Some(Front { value, len })
}

/// The place of the literal that the first word of a text writes, and 0 for the word `0`.
pub fn front_place(text: &[u8]) -> Option<Front>
    ensures word { MatchOption result (StartsWithOther place_in text.now)
        (λ f. StartsWith place_in text.now f.value f.len) }
{
    match after_minus(text) {
        Some(rest) => {
            let number = front_number(rest)?;
            Some(Front {
                value: 2 * number.value + 1,
                len: number.len + 1,
            })
        }
        None => {
            let number = front_number(text)?;
            Some(Front {
                value: 2 * number.value,
                len: number.len,
            })
        }
    }
}

/// What follows a `-` at the front of a text.
fn after_minus(text: &[u8]) -> Option<&[u8]>
    ensures { MatchOption result (slice_index text.now 0 ≢ 45) (λ rest. text.now ≡ 45 ∷ rest.now) }
{
    if text.is_empty() {
        return None;
    }
    if text[0] != b'-' {
        return None;
    }
    Some(&text[1..])
}

/// The digits at the front of a text, and their value, capped at 1 above the greatest id.
fn front_digits(text: &[u8]) -> Front
    ensures within { result.len ≤ length text.now }
    ensures digits { AllDigits 10 (take result.len text.now) }
    ensures stops { result.len < length text.now → is_ascii_digit (slice_index text.now result.len) ≡ false }
    ensures value { result.value ≡ min (digits_value 10 (take result.len text.now)) (MOST_ID + 1) }
{
    let mut value: u64 = 0;
    let mut len = 0;
    while len < text.len() && text[len].is_ascii_digit() {
        value = (10 * value + u64::from(text[len] - b'0')).min(MOST_ID + 1);
        len += 1;
    }
    Front { value, len }
}

/// Returns whether a word ends at this place: at a space, or at the end of the text.
fn ends_word(text: &[u8], len: usize) -> bool
    requires { len ≤ length text.now }
    ensures { result ≡ (length text.now == len || slice_index text.now len == 32) }
{
    text.len() == len || text[len] == b' '
}

/// Returns whether a word begins with `0` and goes on.
fn has_leading_zero(word: &[u8]) -> bool
    requires { 0 < length word.now }
    ensures { result ≡ not (length word.now == 1 || not (slice_index word.now 0 == 48)) }
{
    word.len() != 1 && word[0] == b'0'
}

/// The number of a word of digits, whose value is given, if it has no leading zero and fits an id.
fn number_of(word: &[u8], value: u64) -> Option<u64>
    requires digits { AllDigits 10 word.now }
    requires value { value ≡ min (digits_value 10 word.now) (MOST_ID + 1) }
    ensures number { result ≡ number_in word.now }
    ensures few { MatchOption result ⊤ (λ n. n ≤ MOST_ID) }
{
    if word.is_empty() {
        return None;
    }
    if has_leading_zero(word) {
        return None;
    }
    if value > MOST_ID {
        return None;
    }
    Some(value)
}

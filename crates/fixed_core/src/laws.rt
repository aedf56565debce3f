//! Laws of number texts, each on a function that does nothing.

ghost use Rattle.std.specs.Prelude.{◌≡◌, ◌↔◌, Some, Ok, ℤ};
ghost use Rattle.fixed_core.specs.Numeral.{Numeral, numeral_of};
ghost use Rattle.fixed_core.specs.Canonical.{IsCanonical};
ghost use Rattle.fixed_core.specs.Spelling.{spelling};
ghost use Rattle.fixed_core.specs.Spells.{Spells};
ghost use Rattle.fixed_core.specs.Value.{fixed_of};

/// A text spells the numeral that is computed from it, and no other.
pub fn computed_numeral_is_the_spelled_one(text: &str)
    ensures { (n : Numeral) → (numeral_of text.now ≡ Some n) ↔ Spells text.now n }
{}

/// A canonical text is the spelling of the number that it reads as, so each number has one.
pub fn canonical_text_is_the_spelling(text: &str)
    ensures { (z : ℤ) → IsCanonical text.now → fixed_of text.now ≡ Ok z → text.now ≡ spelling z }
{}

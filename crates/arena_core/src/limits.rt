//! The limits, as numbers.
ghost use Rattle.std.specs.Prelude.{◌≡◌};
ghost use Rattle.arena_core.specs.declared.arena.TheConstants.{MOST_CLAUSES, MOST_LITERALS};
ghost use Rattle.arena_core.specs.declared.lit.TheConstants.{MOST_VARIABLES};

/// Laws, with no code: the most clauses of an arena, literals of a clause, and variables.
pub fn limits_are_fixed()
    ensures clauses { MOST_CLAUSES ≡ 2100000000 }
    ensures literals { MOST_LITERALS ≡ 2147483647 }
    ensures variables { MOST_VARIABLES ≡ 2147483647 }
{}

//! How large a text and its tree may be.
ghost use Rattle.std.specs.Prelude.{◌≡◌};
ghost use Rattle.yaml_core.specs.Size.{most_nodes};

/// The most bytes of a text: 64 MiB.
pub const MOST_BYTES: usize = 67_108_864;

/// The most nodes of a tree, with aliases written out.
pub const MOST_NODES: u32 = 16_777_216;

/// A law, with no code: the limits are these numbers.
pub fn limits_are_fixed()
    ensures bytes { MOST_BYTES ≡ 67108864 }
    ensures nodes { MOST_NODES ≡ most_nodes }
{}

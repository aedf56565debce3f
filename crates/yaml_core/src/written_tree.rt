//! What a text in double quotes is read as.
ghost use Rattle.std.specs.Prelude.{◌≡◌, Some, Ok};
ghost use Rattle.yaml_tokens.specs.Written.{quoted_text};
ghost use Rattle.yaml_core.specs.Read.{reading};
ghost use Rattle.yaml_core.specs.Tree.{text_tree};

use crate::node::Node;

/// A law, with no code: a text in double quotes is the whole text of one quoted scalar.
pub fn quoted_text_is_one_node(text: &str)
    ensures tree { text_tree (quoted_text text.now) ≡ Some (Node.Quoted text.now) }
    ensures read { reading (quoted_text text.now) ≡ Ok (Node.Quoted text.now) }
{}

//! From the bytes of a file to their tree.
ghost use Rattle.std.specs.Prelude.{◌≡◌, ◌≤◌, ◌⊎◌, length, Ok, Err, IfOk, MatchResult};
ghost use Rattle.yaml_core.specs.Keys.{HasDistinctKeys};
ghost use Rattle.yaml_core.specs.Read.{reading};
ghost use Rattle.yaml_core.specs.Size.{node_height};
ghost use Rattle.yaml_core.specs.Tree.{text_measured, max_levels};
ghost use Rattle.yaml_core.specs.Stack.{Gives};

use crate::blocks::tree_of;
use crate::fault::YamlFault;
use crate::node::Node;
use crate::size::MOST_BYTES;
use crate::value::Value;
use std::alloc::Global;
use std::str;
use yaml_tokens::without_mark;

/// The tree of a text, however many nodes it has.
fn tree_of_text(alloc: Global, text: &str) -> Result<Value, YamlFault>
    ensures { Gives result (text_measured text.now) }
{
    tree_of(alloc, without_mark(text))
}

/// The tree of a text, or the first of the faults that it has. The tree has at most 64 levels, and the
/// keys of each mapping in it are distinct. A text that has no tree is refused as
/// [`YamlFault::Form`] also if what comes before the place of the fault has too many nodes.
pub fn read_yaml(alloc: Global, bytes: &[u8]) -> Result<Node, YamlFault>
    requires { length bytes.now ≤ MOST_BYTES }
    ensures levels { IfOk result (λ tree. node_height tree ≤ max_levels) }
    ensures keys { IfOk result (λ tree. HasDistinctKeys tree) }
    ensures answer { MatchResult result (λ tree. reading bytes.now ≡ Ok tree)
        (λ fault. (fault ≡ YamlFault.NoMemory) ⊎ (reading bytes.now ≡ Err fault)) }
{
    let Ok(text) = str::from_utf8(bytes) else {
        return Err(YamlFault::NotUtf8);
    };
    let tree = tree_of_text(alloc, text)?;
    tree.into_node()
}

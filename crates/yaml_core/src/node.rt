//! The tree of a YAML text, and what callers look up in it.
ghost use Rattle.std.specs.Prelude.{◌≡◌, IfOk};
ghost use Rattle.std.specs.Option.{option_copied};
ghost use Rattle.yaml_core.specs.Lookup.{value_at, value_among, unless_null, list_of, text_at};

use crate::shared::Shared;
use sqlite_items::Items;
use std::alloc::{AllocError, Global};
use yaml_tokens::Text;

/// Nodes in order, which contracts see as their list. Several nodes may share them.
pub type Nodes = Shared<Items<Node>>;

/// Pairs in order, which contracts see as their list. Several nodes may share them.
pub type Pairs = Shared<Items<Pair>>;

/// A node of the tree, with aliases written out.
#[cycle(node)]
#[derive(Drop)]
pub enum Node {
    /// A plain scalar that is not one of the words for null.
    Scalar(Text),
    /// A scalar in single or double quotes, without them.
    Quoted(Text),
    /// The items of a sequence.
    List(Nodes),
    /// The entries of a mapping, in the order of the text; in a tree that was read no two have one key.
    Map(Pairs),
    /// `null`, `Null`, `NULL`, `~`, or no value at all.
    Null,
}

/// An entry of a mapping.
#[cycle(node)]
#[derive(Drop)]
pub struct Pair {
    /// The key, quoted or not.
    pub key: Text,
    /// The node under the key.
    pub value: Node,
}

/// The same node again, which shares its items, entries or text with the node that it is made from. Takes
/// constant time and memory, except that a text is copied unless it came from a node that was made so.
pub(crate) fn node_again(alloc: Global, node: &Node) -> Result<Node, AllocError>
    ensures { IfOk result (λ again. again ≡ node.now) }
{
    match node {
        Node::Scalar(text) => Ok(Node::Scalar(text.again(alloc)?)),
        Node::Quoted(text) => Ok(Node::Quoted(text.again(alloc)?)),
        Node::List(items) => Ok(Node::List(items.share()?)),
        Node::Map(pairs) => Ok(Node::Map(pairs.share()?)),
        Node::Null => Ok(Node::Null),
    }
}

/// The text of a scalar, quoted or not; `None` at any other node.
pub fn text_of(node: &Node) -> Option<&str>
    ensures text { option_copied result ≡ text_at node.now }
{
    match node {
        Node::Scalar(text) => Some(text.as_str()),
        Node::Quoted(text) => Some(text.as_str()),
        _ => None,
    }
}

/// The items of a list; `None` at any other node.
pub fn items(node: &Node) -> Option<&[Node]>
    ensures items { option_copied result ≡ list_of node.now }
{
    match node {
        Node::List(items) => Some(items.as_slice()),
        _ => None,
    }
}

/// The node, unless it is null.
fn unless_null(node: &Node) -> Option<&Node>
    ensures { option_copied result ≡ unless_null node.now }
{
    match node {
        Node::Null => None,
        _ => Some(node),
    }
}

/// The value of the first pair that has the key, unless it is null.
fn value_among<'a>(pairs: &'a [Pair], key: &str) -> Option<&'a Node>
    ensures { option_copied result ≡ value_among key.now pairs.now }
{
    for pair in pairs {
        if pair.key.as_str() == key {
            return unless_null(&pair.value);
        }
    }
    None
}

/// The value of the first pair of a map that has the key. `None` if the node is no map, the key
/// isn't there or its value is null, so that a null value counts as a missing one.
pub fn get<'a>(node: &'a Node, key: &str) -> Option<&'a Node>
    ensures value { option_copied result ≡ value_at key.now node.now }
{
    match node {
        Node::Map(pairs) => value_among(pairs.as_slice(), key),
        _ => None,
    }
}

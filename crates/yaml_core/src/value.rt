//! Nodes while they are built, with their numbers of levels and of nodes.
ghost use Rattle.std.specs.Prelude.{◌≡◌, ◌≤◌, ◌++◌, ◌∷◌, [], map, option_map, IfOk, nat_le, Some, None};
ghost use Rattle.yaml_core.specs.Measured.{leaf, list_node, map_node, pair, add_entry};
ghost use Rattle.yaml_core.specs.Keys.{HasDistinctKeys};
ghost use Rattle.yaml_core.specs.Kept.{IsLeftOut, KeepsMore};
ghost use Rattle.yaml_core.specs.Read.{within_limit};
ghost use Rattle.yaml_core.specs.Size.{node_height};
ghost use Rattle.yaml_core.specs.Stack.{Gives};
ghost use Rattle.yaml_core.specs.Tree.{max_levels};

use crate::fault::YamlFault;
use crate::growing::Growing;
use crate::node::{Node, Pair, node_again};
use crate::shared::Shared;
use crate::size::MOST_NODES;
use crate::value_note::{Entered, EntriesNote, Gathered, Origin, ValueNote, ValuesNote};
use std::alloc::{AllocError, Global};
use std::collections::BTreeSet;
use std::marker::Model;
use yaml_tokens::Text;

/// A node with its numbers of levels and of nodes, which stop at their last values. Contracts see
/// it as the node with its levels. The node itself is left out exactly when it has more than [`MOST_NODES`] nodes.
#[derive(Drop)]
pub struct Value {
    node: Option<Node>,
    levels: u8,
    nodes: u32,
    note: ValueNote,
}

impl Model for Value {
    ghost use Rattle.yaml_core.specs.Measured.{Measured, measured_code};
    ghost use Rattle.yaml_core.specs.Kept.{KeepsNode};

    ghost Value = { Measured };

    ghost coded = { measured_code };

    ghost view = { λ v. v.note.measured };

    ghost invariant = { λ v. KeepsNode v.node v.levels v.nodes v.note.measured };
}

/// Values in order, while a list is read. Contracts see their list.
#[derive(Drop)]
pub struct Values {
    all: Option<Growing<Node>>,
    levels: u8,
    nodes: u32,
    note: ValuesNote,
}

impl Model for Values {
    ghost use Rattle.std.specs.Prelude.{List, map};
    ghost use Rattle.std.specs.Coded.{coded_list};
    ghost use Rattle.yaml_core.specs.Measured.{Measured, measured_code};
    ghost use Rattle.yaml_core.specs.Kept.{KeepsNodes};

    ghost Value = { List Measured };

    ghost coded = { coded_list measured_code };

    ghost view = { λ v. v.note.measured };

    ghost invariant = { λ v. KeepsNodes v.all v.levels v.nodes (map (λ m. m.node) v.note.measured) v.note.measured };
}

/// Entries in order, while a mapping is read. Contracts see their list. Each key is held twice: in the pair that
/// the mapping gets, and in the set of keys that finds an equal one.
#[derive(Drop)]
pub struct Mapping {
    all: Option<Growing<Pair>>,
    keys: BTreeSet<String>,
    levels: u8,
    nodes: u32,
    note: EntriesNote,
}

impl Model for Mapping {
    ghost use Rattle.std.specs.Prelude.{List};
    ghost use Rattle.std.specs.Coded.{coded_list};
    ghost use Rattle.yaml_core.specs.Measured.{Entry, entry_code};
    ghost use Rattle.yaml_core.specs.Kept.{KeepsEntries};

    ghost Value = { List Entry };

    ghost coded = { coded_list entry_code };

    ghost view = { λ v. v.note.entries };

    ghost invariant = { λ v. KeepsEntries v.all v.keys v.levels v.nodes v.note.entries };
}

/// What was kept with one more, if that is kept too and there are at most [`MOST_NODES`] nodes.
fn kept_with<T: Drop>(
    all: Option<Growing<T>>,
    more: Option<T>,
    nodes: u32,
) -> Result<Option<Growing<T>>, AllocError>
    ensures kept { IfOk result (λ kept. KeepsMore all more kept) }
    ensures left_out { IfOk result (λ kept. kept ≡ None → IsLeftOut all more nodes) }
{
    let Some(mut all) = all else {
        return Ok(None);
    };
    let Some(more) = more else {
        return Ok(None);
    };
    if nodes > MOST_NODES {
        return Ok(None);
    }
    all.push(more)?;
    Ok(Some(all))
}

/// The list of these nodes, if they are kept.
fn list_of(alloc: Global, nodes: Option<Growing<Node>>) -> Result<Option<Node>, AllocError>
    ensures { IfOk result (λ list. list ≡ option_map (λ ns. Node.List ns) nodes) }
{
    match nodes {
        Some(nodes) => Ok(Some(Node::List(Shared::new(alloc, nodes.into_items())?))),
        None => Ok(None),
    }
}

/// The mapping of these pairs, if they are kept.
fn map_of(alloc: Global, pairs: Option<Growing<Pair>>) -> Result<Option<Node>, AllocError>
    ensures { IfOk result (λ mapping. mapping ≡ option_map (λ ps. Node.Map ps) pairs) }
{
    match pairs {
        Some(pairs) => Ok(Some(Node::Map(Shared::new(alloc, pairs.into_items())?))),
        None => Ok(None),
    }
}

/// The pair of a key and a node, if that is kept.
fn pair_of(key: Text, node: Option<Node>) -> Option<Pair>
    ensures { result ≡ option_map (λ n. pair key n) node }
{
    match node {
        Some(value) => Some(Pair { key, value }),
        None => None,
    }
}

impl Value {
    /// No value.
    pub fn null() -> Self
        ensures { result ≡ leaf Node.Null }
    {
        Value {
            node: Some(Node::Null),
            levels: 1,
            nodes: 1,
            note: ValueNote::of(&Origin::Null),
        }
    }

    /// A plain scalar.
    pub fn scalar(text: Text) -> Self
        ensures { result ≡ leaf (Node.Scalar text) }
    {
        let note = ValueNote::of(&Origin::Scalar(&text));
        Value {
            node: Some(Node::Scalar(text)),
            levels: 1,
            nodes: 1,
            note,
        }
    }

    /// A quoted scalar.
    pub fn quoted(text: Text) -> Self
        ensures { result ≡ leaf (Node.Quoted text) }
    {
        let note = ValueNote::of(&Origin::Quoted(&text));
        Value {
            node: Some(Node::Quoted(text)),
            levels: 1,
            nodes: 1,
            note,
        }
    }

    /// A list. Takes constant time and memory.
    pub fn list(alloc: Global, values: Values) -> Result<Self, AllocError>
        ensures { IfOk result (λ value. value ≡ list_node values) }
    {
        let note = ValueNote::of(&Origin::List(&values));
        Ok(Value {
            node: list_of(alloc, values.all)?,
            levels: values.levels.saturating_add(1),
            nodes: values.nodes.saturating_add(1),
            note,
        })
    }

    /// A mapping. Takes constant memory, and no time besides that to drop the set of its keys.
    pub fn map(alloc: Global, mapping: Mapping) -> Result<Self, AllocError>
        ensures { IfOk result (λ value. value ≡ map_node mapping) }
    {
        let note = ValueNote::of(&Origin::Map(&mapping));
        Ok(Value {
            node: map_of(alloc, mapping.all)?,
            levels: mapping.levels.saturating_add(1),
            nodes: mapping.nodes.saturating_add(1),
            note,
        })
    }

    /// Whether the node has at most so many levels.
    pub fn fits(&self, levels: usize) -> bool
        requires { levels ≤ max_levels }
        ensures { result ≡ nat_le self.now.height levels }
    {
        self.levels as usize <= levels
    }

    /// The node, unless it has more than [`MOST_NODES`] nodes.
    pub fn into_node(self) -> Result<Node, YamlFault>
        ensures answer { result ≡ within_limit (Some self.node) }
        ensures levels { IfOk result (λ node. node_height node ≡ self.height) }
        ensures keys { IfOk result (λ node. HasDistinctKeys node) }
    {
        if self.nodes > MOST_NODES {
            return Err(YamlFault::Many);
        }
        match self.node {
            Some(node) => Ok(node),
            None => unreachable!(),
        }
    }

    /// The same value again, whose node shares what is in it. Takes constant time and memory, except that the text
    /// of a scalar is copied unless the value came from `again` itself.
    pub fn again(&self, alloc: Global) -> Result<Self, AllocError>
        ensures { IfOk result (λ value. value ≡ self.now) }
    {
        let node = match &self.node {
            Some(node) => Some(node_again(alloc, node)?),
            None => None,
        };
        Ok(Value {
            node,
            levels: self.levels,
            nodes: self.nodes,
            note: ValueNote::of(&Origin::Same(self)),
        })
    }
}

impl Values {
    /// No value. Takes no memory.
    pub fn new(alloc: Global) -> Self
        ensures { result ≡ [] }
    {
        Values {
            all: Some(Growing::new(alloc)),
            levels: 0,
            nodes: 0,
            note: ValuesNote::of(&Gathered::Nothing),
        }
    }

    /// The values with one more at the end, in constant time on average. The nodes are kept while there are at
    /// most [`MOST_NODES`].
    pub fn push(self, value: Value) -> Result<Self, AllocError>
        ensures { IfOk result (λ values. values ≡ self ++ value ∷ []) }
    {
        let note = ValuesNote::of(&Gathered::More(&self, &value));
        let levels = self.levels.max(value.levels);
        let nodes = value.nodes.saturating_add(self.nodes);
        let all = kept_with(self.all, value.node, nodes)?;
        Ok(Values {
            all,
            levels,
            nodes,
            note,
        })
    }
}

impl Mapping {
    /// No entry. Takes no memory.
    pub fn new(alloc: Global) -> Self
        ensures { result ≡ [] }
    {
        Mapping {
            all: Some(Growing::new(alloc)),
            keys: BTreeSet::new(alloc),
            levels: 0,
            nodes: 0,
            note: EntriesNote::of(&Entered::Nothing),
        }
    }

    /// The entries with one more; `Form` if the key is there already. Takes logarithmic time and copies the key.
    /// The pairs are kept while their values have at most [`MOST_NODES`] nodes.
    pub fn add(self, alloc: Global, key: Text, value: Value) -> Result<Self, YamlFault>
        ensures { Gives result (add_entry self key value) }
    {
        let note = EntriesNote::of(&Entered::More(&self, &key, &value));
        let Mapping {
            all,
            mut keys,
            levels,
            nodes,
            note: _,
        } = self;
        if !keys.insert(String::from_str(alloc, key.as_str())?)? {
            return Err(YamlFault::Form);
        }
        let levels = levels.max(value.levels);
        let nodes = value.nodes.saturating_add(nodes);
        let all = kept_with(all, pair_of(key, value.node), nodes)?;
        Ok(Mapping {
            all,
            keys,
            levels,
            nodes,
            note,
        })
    }
}

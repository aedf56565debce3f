//! The tree of a YAML text.
#![tactic(auto)]

mod anchors;
mod blocks;
mod entries;
mod fault;
mod growing;
mod inline;
mod node;
mod read;
mod shared;
mod size;
mod stack;
mod start;
mod value;
mod value_note;
mod written_tree;

pub use fault::YamlFault;
pub use node::{Node, Nodes, Pair, Pairs, get, items, text_of};
pub use read::read_yaml;
pub use size::{MOST_BYTES, MOST_NODES, limits_are_fixed};
pub use written_tree::quoted_text_is_one_node;
pub use yaml_tokens::{Text, put_quoted, quoted_text_reads_back};

//! The nodes that have anchors, for the aliases that name them.
ghost use Rattle.std.specs.Prelude.{◌≡◌, ◌≤◌, []};
ghost use Rattle.yaml_core.specs.Reading.{naming, named_as, node_named, gives};
ghost use Rattle.yaml_core.specs.Stack.{GivesWith};
ghost use Rattle.yaml_core.specs.Tree.{max_levels};

use crate::entries::Entries;
use crate::fault::YamlFault;
use crate::value::Value;
use std::alloc::Global;
use std::marker::Model;
use std::mem;
use yaml_tokens::Text;

/// The values whose nodes ended so far, by the names of their anchors. Contracts see the list of their
/// entries. A named node and the nodes of its aliases share what is in them.
#[derive(Drop)]
pub struct Names {
    named: Entries,
}

impl Model for Names {
    ghost use Rattle.std.specs.Prelude.{List};
    ghost use Rattle.std.specs.Coded.{coded_list};
    ghost use Rattle.yaml_core.specs.Measured.{Entry, entry_code};

    ghost Value = { List Entry };

    ghost coded = { coded_list entry_code };

    ghost view = { λ names. names.named };
}

impl Names {
    /// No node has a name. Takes no memory.
    pub fn new(alloc: Global) -> Self
        ensures { result ≡ [] }
    {
        Names {
            named: Entries::new(alloc),
        }
    }

    /// Gives the value's node a name; `Form` if another node has it. Takes logarithmic time; only a scalar's text is
    /// copied.
    pub fn name(&mut self, alloc: Global, name: Text, value: Value) -> Result<Value, YamlFault>
        ensures { GivesWith result self.new (naming name value self.old) }
    {
        let kept = value.again(alloc)?;
        let named = mem::replace(&mut self.named, Entries::new(alloc));
        self.named = named.add(alloc, name, kept)?;
        Ok(value)
    }

    /// Gives the value's node the name of its anchor, if it has one.
    pub fn name_by(
        &mut self,
        alloc: Global,
        anchor: Option<Text>,
        value: Value,
    ) -> Result<Value, YamlFault>
        ensures { GivesWith result self.new (named_as anchor (gives value) self.old) }
    {
        match anchor {
            Some(name) => self.name(alloc, name, value),
            None => Ok(value),
        }
    }

    /// The value that an alias names; `Form` if no node has the name, or if it has more levels than are left. Takes
    /// logarithmic time, and no memory for what is in the node.
    pub fn get(&self, alloc: Global, levels: usize, name: &str) -> Result<Value, YamlFault>
        requires { levels ≤ max_levels }
        ensures { GivesWith result self.now (node_named levels name.now self.now) }
    {
        let Some(value) = self.named.get(name) else {
            return Err(YamlFault::Form);
        };
        if !value.fits(levels) {
            return Err(YamlFault::Form);
        }
        Ok(value.again(alloc)?)
    }
}

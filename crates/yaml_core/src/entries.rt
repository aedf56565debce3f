//! Values under keys, found by key: the nodes that have names.
ghost use Rattle.std.specs.Prelude.{◌≡◌, []};
ghost use Rattle.std.specs.Option.{option_copied};
ghost use Rattle.yaml_core.specs.Measured.{add_entry, find_entry};
ghost use Rattle.yaml_core.specs.Stack.{Gives};

use crate::fault::YamlFault;
use crate::value::Value;
use std::alloc::Global;
use std::collections::BTreeMap;
use std::marker::Model;
use yaml_tokens::Text;

/// The values so far, in the order of the text. Contracts see them as the list of their entries. A key is found
/// in logarithmic time, whatever the keys are; its text is held twice.
#[derive(Drop)]
pub struct Entries {
    held: Vec<(Text, Value)>,
    places: BTreeMap<String, usize>,
}

impl Model for Entries {
    ghost use Rattle.std.specs.Prelude.{List};
    ghost use Rattle.std.specs.Coded.{coded_list};
    ghost use Rattle.yaml_core.specs.Measured.{Entry, entry_code};
    ghost use Rattle.yaml_core.specs.Entries.{IsIndexed};

    ghost Value = { List Entry };

    ghost coded = { coded_list entry_code };

    ghost view = { λ entries. entries.held.items };

    ghost invariant = { λ entries. IsIndexed entries.places entries.held.items };
}

impl Entries {
    /// No entry. Takes no memory.
    pub fn new(alloc: Global) -> Self
        ensures { result ≡ [] }
    {
        Entries {
            held: Vec::new(alloc),
            places: BTreeMap::new(alloc),
        }
    }

    /// The entries with one more; `Form` if the key is there already. Takes logarithmic time and copies the key.
    pub fn add(self, alloc: Global, key: Text, value: Value) -> Result<Self, YamlFault>
        ensures { Gives result (add_entry self key value) }
    {
        let Entries {
            mut held,
            mut places,
        } = self;
        let name = String::from_str(alloc, key.as_str())?;
        if places.insert(name, held.len())?.is_some() {
            return Err(YamlFault::Form);
        }
        held.push((key, value))?;
        Ok(Entries { held, places })
    }

    /// The value under a key, in logarithmic time.
    pub fn get(&self, key: &str) -> Option<&Value>
        ensures { option_copied result ≡ find_entry key.now self.now }
    {
        match self.places.get(key) {
            Some(place) => Some(&self.held[*place].1),
            None => None,
        }
    }
}

//! What a hub was made with, and where its namespaces stand.

ghost use Rattle.std.specs.Prelude.{◌≡◌, List, ℕ, bytes_eq, position, IfOk, IfErr};
ghost use Rattle.std.specs.BTreeMap.{get_by_text};
ghost use Rattle.journal.specs.Plain.{Limits as PlainLimits};

use journal::{Config, HubError};
use std::alloc::Global;
use std::collections::BTreeMap;
use std::marker::Model;
use terms::Text;

/// The config of a hub, with an index of its namespaces. In a contract it is the config alone.
#[derive(Drop)]
pub struct Limits {
    config: Config,
    /// The first place of each name in the list of namespaces.
    places: BTreeMap<String, usize>,
}

impl Model for Limits {
    ghost Value = { PlainLimits };

    ghost view = { λ l. l.config };

    ghost invariant = { λ l. (name : List ℕ)
        → get_by_text l.places name ≡ position (bytes_eq name) l.config.spaces };
}

/// The first place of each name in a list. It goes from the last name to the first, so that a
/// name's first place is put last.
fn first_places(alloc: Global, names: &[Text]) -> Result<BTreeMap<String, usize>, HubError>
    ensures ok { IfOk result (λ places. (name : List ℕ)
        → get_by_text places name ≡ position (bytes_eq name) names.now) }
    ensures memory { IfErr result (λ e. e ≡ HubError.Memory) }
{
    let mut places = BTreeMap::new(alloc);
    let mut place = names.len();
    'names: while place > 0 {
        place -= 1;
        places.insert(String::from_str(alloc, names[place].as_str())?, place)?;
    }
    Ok(places)
}

impl Limits {
    /// The limits that a config says, whose names are copied into the index.
    pub fn new(alloc: Global, config: Config) -> Result<Limits, HubError>
        ensures ok { IfOk result (λ limits. limits ≡ config) }
        ensures memory { IfErr result (λ e. e ≡ HubError.Memory) }
    {
        let places = first_places(alloc, &config.spaces)?;
        Ok(Limits { config, places })
    }

    /// The config that the limits were made of.
    pub fn config(&self) -> &Config
        ensures { result.now ≡ self.now }
    {
        &self.config
    }

    /// The first place of a name among the namespaces, or `None` where it isn't there.
    pub fn place_of(&self, name: &str) -> Option<usize>
        ensures { result ≡ position (bytes_eq name.now) self.now.spaces }
    {
        // Most events are of the first, where no map need be asked.
        if let Some(first) = self.config.spaces.first()
            && first.as_str() == name
        {
            return Some(0);
        }
        self.places.get(name).copied()
    }
}

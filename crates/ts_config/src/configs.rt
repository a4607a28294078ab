// Dictionaries and configurations by name.
ghost use Rattle.std.specs.Prelude.{◌≡◌, ◌<◌, ◌≤◌, ◌↔◌, length, map, IfOk, IfErr, OnOk, IfSome, IsSome, IsTrue};
ghost use Rattle.std.specs.Prelude.{MatchOption, option_copied, slice_get, string_bytes};
ghost use Rattle.std.specs.List.{Any};
ghost use Rattle.std.specs.Option.{option_map};
ghost use Rattle.ts_config.specs.Rules.{rules_of};
ghost use Rattle.ts_config.specs.Mappings.{empty_mapping};
ghost use Rattle.ts_config.specs.Inner.Entries.{named_rules, named_mapping};
ghost use Rattle.ts_config.specs.Known.{first_known, HasDictionary, HasConfiguration, LacksSub, place_of, sub_named};
ghost use Rattle.ts_config.specs.Known.{rules_named, mapping_named, ArePlaces, IsWithin, AddsDictionary};
ghost use Rattle.ts_config.specs.Known.{AddsConfiguration, AddsMapping, RefusesDictionary, RefusesConfiguration};
ghost use Rattle.ts_config.specs.Known.{RefusesMapping};

use crate::config::Config;
use crate::dictionaries::AnyDictionary;
use crate::error::ConfigError;
use indexmap::IndexMap;
use std::alloc::{AllocError, Global};
use std::convert::AsStr;
use std::marker::Model;
use ts_parser::TokenType;
use ts_words::{Simple, StopList};

/// The name of the dictionary and of the configuration that are there from the start.
const SIMPLE: &str = "simple";

/// Every type but blank.
const WORD_TYPES: [TokenType; 14] = [
    TokenType::Asciiword,
    TokenType::Word,
    TokenType::Numword,
    TokenType::Sfloat,
    TokenType::Version,
    TokenType::HwordNumpart,
    TokenType::HwordPart,
    TokenType::HwordAsciipart,
    TokenType::Numhword,
    TokenType::Asciihword,
    TokenType::Hword,
    TokenType::Float,
    TokenType::Int,
    TokenType::Uint,
];

/// Dictionaries and configurations by name. Contracts see both as lists, in the order of their definitions.
#[derive(Debug, Drop)]
pub struct Configs {
    /// The dictionaries. None is ever taken away, so that its place stays.
    dictionaries: IndexMap<String, AnyDictionary>,
    /// The configurations.
    configurations: IndexMap<String, Config>,
}

impl Model for Configs {
    ghost use Rattle.ts_config.specs.Known.{Known};

    ghost Value = { Known };

    ghost use Rattle.ts_config.specs.Inner.Entries.{known_of, AllWithin};

    ghost view = { known_of };

    ghost invariant = { λ c. AllWithin (known_of c) };
}

/// The dictionary `simple` alone.
fn first_dictionaries(alloc: Global) -> Result<IndexMap<String, AnyDictionary>, AllocError>
    ensures { IfOk result (λ all. map named_rules all.entries ≡ first_known.dictionaries) }
{
    let mut dictionaries = IndexMap::new(alloc);
    let simple = Simple::new(StopList::new(alloc), true);
    let name = String::from_str(alloc, SIMPLE)?;
    dictionaries.insert(name, AnyDictionary::Simple(simple))?;
    Ok(dictionaries)
}

/// The configuration `simple` alone.
fn first_configurations(alloc: Global) -> Result<IndexMap<String, Config>, AllocError>
    ensures { IfOk result (λ all. map named_mapping all.entries ≡ first_known.configurations) }
{
    let mut config = Config::empty(alloc)?;
    config.map(alloc, &WORD_TYPES, &[0])?;
    let mut configurations = IndexMap::new(alloc);
    let name = String::from_str(alloc, SIMPLE)?;
    configurations.insert(name, config)?;
    Ok(configurations)
}

impl Configs {
    /// The dictionary and the configuration `simple`: it gives each word in lower case, and has no stop
    /// words; the configuration has it for every type but blank.
    pub fn new(alloc: Global) -> Result<Configs, AllocError>
        ensures { IfOk result (λ configs. configs ≡ first_known) }
    {
        let dictionaries = first_dictionaries(alloc)?;
        let configurations = first_configurations(alloc)?;
        Ok(Configs {
            dictionaries,
            configurations,
        })
    }

    /// The dictionary of this name.
    pub fn dictionary(&self, name: &str) -> Option<&AnyDictionary>
        ensures value { option_map (λ d. rules_of d.now) result ≡ rules_named self.now name.now }
        ensures found { IsSome result ↔ HasDictionary self.now name.now }
    {
        self.dictionaries.get(name)
    }

    /// The place of the dictionary of this name among all. It stays.
    pub fn place(&self, name: &str) -> Option<usize>
        ensures value { result ≡ place_of self.now name.now }
        ensures within { IfSome result (λ place. place < length self.now.dictionaries) }
        ensures found { IsSome result ↔ HasDictionary self.now name.now }
    {
        self.dictionaries.get_index_of(name)
    }

    /// The configuration of this name.
    pub fn config(&self, name: &str) -> Option<&Config>
        ensures value { option_copied result ≡ mapping_named self.now name.now }
        ensures within { IfSome result (λ config. IsWithin self.now config.now) }
        ensures found { IsSome result ↔ HasConfiguration self.now name.now }
    {
        self.configurations.get(name)
    }
}

impl Configs {
    /// The dictionary of this name, where a thesaurus can have it as its subdictionary: it is no thesaurus.
    pub fn subdictionary(&self, name: &str) -> Option<&AnyDictionary>
        ensures { option_map (λ d. rules_of d.now) result ≡ sub_named self.now name.now }
    {
        let dictionary = self.dictionary(name)?;
        if dictionary.as_thesaurus().is_some() {
            return None;
        }
        Some(dictionary)
    }

    /// Whether a dictionary is a thesaurus whose subdictionary isn't there, or is a thesaurus.
    fn lacks_sub(&self, dictionary: &AnyDictionary) -> bool
        ensures { IsTrue result ↔ LacksSub self.now (rules_of dictionary.now) }
    {
        match dictionary.as_thesaurus() {
            Some((_, sub)) => self.subdictionary(sub).is_none(),
            None => false,
        }
    }

    /// Adds a dictionary: one that is a thesaurus needs its subdictionary, which is no thesaurus. After a
    /// refusal nothing has changed.
    pub fn add_dictionary(
        &mut self,
        alloc: Global,
        name: &str,
        dictionary: AnyDictionary,
    ) -> Result<(), ConfigError>
        ensures added { OnOk result (AddsDictionary self.old name.now (rules_of dictionary) self.new) }
        ensures refused { IfErr result (λ e. RefusesDictionary self.old name.now (rules_of dictionary) e
            × (self.new ≡ self.old)) }
    {
        if self.lacks_sub(&dictionary) {
            return Err(ConfigError::UnknownDictionary);
        }
        if self.dictionaries.contains_key(name) {
            return Err(ConfigError::DuplicateName);
        }
        let name = String::from_str(alloc, name)?;
        match self.dictionaries.insert(name, dictionary) {
            Ok(_) => Ok(()),
            Err(_) => Err(ConfigError::OutOfMemory),
        }
    }

    /// Adds a configuration that was built apart. After a refusal nothing has changed.
    pub fn put_configuration(
        &mut self,
        alloc: Global,
        name: &str,
        config: Config,
    ) -> Result<(), ConfigError>
        requires { IsWithin self.old config }
        ensures added { OnOk result (AddsConfiguration self.old name.now config self.new) }
        ensures refused { IfErr result (λ e. RefusesConfiguration self.old name.now e
            × (self.new ≡ self.old)) }
    {
        if self.configurations.contains_key(name) {
            return Err(ConfigError::DuplicateName);
        }
        let name = String::from_str(alloc, name)?;
        match self.configurations.insert(name, config) {
            Ok(_) => Ok(()),
            Err(_) => Err(ConfigError::OutOfMemory),
        }
    }

    /// Adds a configuration in which no type has a dictionary. After a refusal nothing has changed.
    pub fn add_configuration(&mut self, alloc: Global, name: &str) -> Result<(), ConfigError>
        ensures added { OnOk result (AddsConfiguration self.old name.now empty_mapping self.new) }
        ensures refused { IfErr result (λ e. RefusesConfiguration self.old name.now e
            × (self.new ≡ self.old)) }
    {
        let config = Config::empty(alloc)?;
        self.put_configuration(alloc, name, config)
    }

    /// The places of the dictionaries of these names; none where one of them isn't there.
    pub fn places<N: AsStr>(
        &self,
        alloc: Global,
        names: &[N],
    ) -> Result<Option<Vec<usize>>, AllocError>
        ensures { IfOk result (λ r. MatchOption r
            (Any (λ name. ¬ HasDictionary self.now name) (map N.text names.now))
            (λ places. ArePlaces self.now (map N.text names.now) places.items)) }
    {
        let mut places = Vec::new(alloc);
        for name in names {
            match self.place(name.as_str()) {
                Some(place) => places.push(place)?,
                None => return Ok(None),
            }
        }
        Ok(Some(places))
    }

    /// Gives a type of tokens the dictionaries of these names, in place of those that it had in the
    /// configuration. After a refusal nothing has changed.
    pub fn add_mapping(
        &mut self,
        alloc: Global,
        name: &str,
        kind: TokenType,
        dictionaries: &[String],
    ) -> Result<(), ConfigError>
        requires { HasConfiguration self.old name.now }
        ensures added { OnOk result
            (AddsMapping self.old name.now kind (map string_bytes dictionaries.now) self.new) }
        ensures refused { IfErr result (λ e.
            RefusesMapping self.old (map string_bytes dictionaries.now) e × (self.new ≡ self.old)) }
    {
        let Some(places) = self.places(alloc, dictionaries)? else {
            return Err(ConfigError::UnknownDictionary);
        };
        if let Some(config) = self.configurations.get_mut(name) {
            config.set(kind, places);
        }
        Ok(())
    }

    /// The dictionary at a place.
    pub(crate) fn dictionary_at(&self, place: usize) -> Option<&AnyDictionary>
        ensures { option_map (λ d. rules_of d.now) result
            ≡ option_map (λ d. d.rules) (slice_get self.now.dictionaries place) }
    {
        let (_, dictionary) = self.dictionaries.get_index(place)?;
        Some(dictionary)
    }
}

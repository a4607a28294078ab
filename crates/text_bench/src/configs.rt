// The configurations by which texts are read.
use crate::texts::text_of;
use anyhow::Result;
use porter_stem::Porter;
use std::alloc::{AllocError, Global};
use ts_config::{AnyDictionary, ConfigError, Configs};
use ts_parser::TokenType;
use ts_thesaurus::Thesaurus;
use ts_words::{Simple, StopList};

/// The types that have the dictionary.
const TYPES: [TokenType; 7] = [
    TokenType::Asciiword,
    TokenType::Word,
    TokenType::Numword,
    TokenType::HwordAsciipart,
    TokenType::Asciihword,
    TokenType::Float,
    TokenType::Uint,
];

/// Each of these types has the dictionary of this name, in the configuration of the same name.
fn map_types(
    alloc: Global,
    configs: &mut Configs,
    name: &str,
    names: &[String],
) -> Result<(), ConfigError> {
    for kind in TYPES {
        if configs.config(name).is_some() {
            configs.add_mapping(alloc, name, kind, names)?;
        }
    }
    Ok(())
}

/// A list of this name alone.
fn only(alloc: Global, name: &str) -> Result<Vec<String>, AllocError> {
    Ok(vec![in alloc; String::from_str(alloc, name)?]?)
}

/// Defines a dictionary, and a configuration of the same name in which some types have it.
fn define(
    alloc: Global,
    configs: &mut Configs,
    name: &str,
    dictionary: AnyDictionary,
) -> Result<(), ConfigError> {
    configs.add_dictionary(alloc, name, dictionary)?;
    configs.add_configuration(alloc, name)?;
    let names = only(alloc, name)?;
    map_types(alloc, configs, name, &names)
}

/// The dictionary `simple` without stop words.
pub(crate) fn simple(alloc: Global) -> Simple {
    Simple::new(StopList::new(alloc), true)
}

/// The thesaurus of one rule of a thousand sample words, of which the last is in no text.
fn long_rule(alloc: Global) -> Result<AnyDictionary> {
    let sub = String::from_str(alloc, "simple")?;
    let line = text_of(alloc, "letter 999+other-rule 1")?;
    match Thesaurus::read(alloc, &line, &simple(alloc)) {
        Ok(rules) => Ok(AnyDictionary::Thesaurus(rules, sub)),
        Err(error) => Err(error.into()),
    }
}

/// Defines `english`, which has the words' stems, and `long`, by a thesaurus with a long rule.
fn define_all(alloc: Global, configs: &mut Configs) -> Result<()> {
    let porter = AnyDictionary::Porter(Porter::new(StopList::new(alloc)));
    define(alloc, configs, "english", porter)?;
    define(alloc, configs, "long", long_rule(alloc)?)?;
    Ok(())
}

/// The configurations `simple`, `english` and `long`.
pub(crate) fn all_configs(alloc: Global) -> Result<Configs> {
    let mut configs = Configs::new(alloc)?;
    define_all(alloc, &mut configs)?;
    Ok(configs)
}

// Which dictionaries each type of token has.
ghost use Rattle.std.specs.Prelude.{◌≡◌, ◌<◌, ℕ, take, IfOk, OnOk, OnErr};
ghost use Rattle.ts_config.specs.Mappings.{type_place, empty_mapping, list_for, with_list, mapped};

use crate::TYPES;
use std::alloc::{AllocError, Global};
use std::marker::Model;
use ts_parser::TokenType;

/// Which dictionaries each type of token has. Contracts see a list of places for each type.
#[derive(Debug, Drop)]
pub struct Config {
    /// For each type, in the order of their numbers, the places of its dictionaries.
    lists: Vec<Vec<usize>>,
}

impl Model for Config {
    ghost use Rattle.std.specs.Prelude.{◌≡◌, map, length};
    ghost use Rattle.ts_config.specs.declared.TheConstants.{TYPES};
    ghost use Rattle.ts_config.specs.Mappings.{Mapping};

    ghost Value = { Mapping };

    ghost view = { λ c. map (λ v. v.items) c.lists.items };

    ghost invariant = { λ c. length c.lists.items ≡ TYPES };
}

/// Where the list of a type is among those of all types.
fn type_index(kind: TokenType) -> usize
    ensures place { result ≡ type_place kind }
    ensures within { result < TYPES }
{
    match kind {
        TokenType::Asciiword => 0,
        TokenType::Word => 1,
        TokenType::Numword => 2,
        TokenType::Sfloat => 3,
        TokenType::Version => 4,
        TokenType::HwordNumpart => 5,
        TokenType::HwordPart => 6,
        TokenType::HwordAsciipart => 7,
        TokenType::Blank => 8,
        TokenType::Numhword => 9,
        TokenType::Asciihword => 10,
        TokenType::Hword => 11,
        TokenType::Float => 12,
        TokenType::Int => 13,
        TokenType::Uint => 14,
    }
}

impl Config {
    /// The configuration in which no type has a dictionary.
    pub fn empty(alloc: Global) -> Result<Config, AllocError>
        ensures { IfOk result (λ config. config ≡ empty_mapping) }
    {
        let mut lists = Vec::with_capacity(alloc, TYPES)?;
        for _ in 0..TYPES {
            lists.push(Vec::new(alloc))?;
        }
        Ok(Config { lists })
    }

    /// The places of a type's dictionaries.
    pub fn list(&self, kind: TokenType) -> &[usize]
        ensures { result.now ≡ list_for self.now kind }
    {
        &self.lists[type_index(kind)]
    }

    /// Gives a type the dictionaries at these places, in place of those that it had.
    pub fn set(&mut self, kind: TokenType, places: Vec<usize>)
        ensures { self.new ≡ with_list self.old kind places.items }
    {
        self.lists[type_index(kind)] = places;
    }

    /// Gives each of these types the dictionaries at these places, in place of those that it had. Where
    /// memory runs out, the first of the types have them.
    pub fn map(
        &mut self,
        alloc: Global,
        kinds: &[TokenType],
        places: &[usize],
    ) -> Result<(), AllocError>
        ensures mapped { OnOk result (self.new ≡ mapped kinds.now places.now self.old) }
        ensures failed { OnErr result ((n : ℕ) × (self.new ≡ mapped (take n kinds.now) places.now self.old)) }
    {
        let mut seen = [false; TYPES];
        for kind in kinds {
            let index = type_index(*kind);
            if !seen[index] {
                seen[index] = true;
                self.set(*kind, Vec::from_slice(alloc, places)?);
            }
        }
        Ok(())
    }
}

// Definitions of configurations, from the lines of their bodies.
ghost use Rattle.std.specs.Prelude.{◌≡◌, map, IfOk, IfErr, OnOk, MatchOption};
ghost use Rattle.std.specs.List.{Any};
ghost use Rattle.ts_config.specs.Mappings.{empty_mapping};
ghost use Rattle.ts_config.specs.Known.{HasDictionary, ArePlaces, IsWithin};
ghost use Rattle.shell_script.specs.Grammar.{define as defines};
ghost use Rattle.shell_script.specs.OpeningLines.{configuration_opening};
ghost use Rattle.shell_script.specs.OpeningLineView.{opening_line as opening_line_of};
ghost use Rattle.shell_script.specs.StepView.{line as shown};
ghost use Rattle.shell_script.specs.Says.{counted_lines};
ghost use Rattle.shell_script.specs.ReplyView.{refusal, reply};
ghost use Rattle.shell_run.specs.Defining.{MapsLine, Maps, IsDefined, Becomes};
ghost use Rattle.shell_run.specs.Inner.Definitions.{MapFails, MapsFail};

use crate::body_lines::{FromLines, take_lines};
use crate::dictionaries::define_dictionary;
use shell_script::{Line, Lines, Mapping, Names, OpeningLine, Refusal, Reply, read_mapping};
use std::alloc::{AllocError, Global};
use ts_config::{Config, Configs};
use ts_parser::TokenType;

/// The names that are left of a line.
fn listed<'a>(alloc: Global, names: Names<'a>) -> Result<Vec<&'a str>, AllocError>
    ensures { IfOk result (λ listed. map (λ n. n.now) listed.items ≡ names.entry) }
{
    names.collect(alloc)
}

/// The places of the dictionaries of these names; none where one of them isn't there.
fn places_of(
    alloc: Global,
    configs: &Configs,
    names: Names<'_>,
) -> Result<Option<Vec<usize>>, AllocError>
    ensures { IfOk result (λ found. MatchOption found
        (Any (λ name. ¬ HasDictionary configs.now name) names.entry)
        (λ places. ArePlaces configs.now names.entry places.items)) }
{
    let texts = listed(alloc, names)?;
    configs.places(alloc, &texts)
}

/// Gives the types of a line the dictionaries that it names.
fn map_line(
    alloc: Global,
    configs: &Configs,
    partial: &mut Config,
    line: Line<'_>,
) -> Result<(), Refusal>
    ensures mapped { OnOk result (MapsLine configs.now partial.old (shown line.entry) partial.new) }
    ensures refused { IfErr result (λ why. MapFails configs.now (shown line.entry) (refusal why)) }
{
    let Some(Mapping { types, names }) = read_mapping(line.bytes) else {
        return Err(Refusal::NoStatement(line.number));
    };
    let Some(places) = places_of(alloc, configs, names)? else {
        return Err(Refusal::NoDictionary);
    };
    let types: Vec<TokenType> = types.collect(alloc)?;
    partial.map(alloc, &types, &places)?;
    Ok(())
}

/// The mapping of a configuration that is being read, and what is defined before it.
#[derive(Drop)]
struct MappingOver<'a> {
    /// The mapping so far.
    partial: Config,
    /// What is defined.
    configs: &'a Configs,
}

impl<'a> FromLines for MappingOver<'a> {
    ghost takes = { λ l old new. (new.configs ≡ old.configs)
        × MapsLine old.configs.now old.partial l new.partial };

    ghost refuses = { λ l old why. MapFails old.configs.now l why };

    fn take(&mut self, alloc: Global, line: Line<'_>) -> Result<(), Refusal> {
        map_line(alloc, self.configs, &mut self.partial, line)
    }
}

/// The mapping of a configuration's body, built apart.
fn mapping_of(alloc: Global, configs: &Configs, body: Lines<'_>) -> Result<Config, Refusal>
    ensures maps { IfOk result (λ partial. Maps configs.now empty_mapping (counted_lines body.entry) partial) }
    ensures within { IfOk result (λ partial. IsWithin configs.now partial) }
    ensures refused { IfErr result
        (λ why. MapsFail configs.now empty_mapping (counted_lines body.entry) (refusal why)) }
{
    let mut mapping = MappingOver {
        partial: Config::empty(alloc)?,
        configs,
    };
    match take_lines(alloc, &mut mapping, body) {
        Ok(()) => Ok(mapping.partial),
        Err(why) => Err(why),
    }
}

/// Defines a configuration. Where that is refused nothing has changed.
fn define_configuration(
    alloc: Global,
    configs: &mut Configs,
    number: u64,
    name: &str,
    body: Lines<'_>,
) -> Reply
    ensures answered { IsDefined configs.old number (configuration_opening name.now)
        (counted_lines body.entry) (reply result) }
    ensures becomes { Becomes configs.old
        (defines (configuration_opening name.now) (counted_lines body.entry)) (reply result) configs.new }
{
    if configs.config(name).is_some() {
        return Reply::Refused(Refusal::NoStatement(number));
    }
    let mapping = match mapping_of(alloc, configs, body) {
        Ok(mapping) => mapping,
        Err(why) => return Reply::Refused(why),
    };
    match configs.put_configuration(alloc, name, mapping) {
        Ok(()) => Reply::Done,
        Err(_) => Reply::Refused(Refusal::Memory),
    }
}

/// Defines what the first line says, which has this number, by the lines of the body that are not
/// skipped: that it is done, or why it is refused. Where it is refused nothing has changed.
pub fn define(
    alloc: Global,
    configs: &mut Configs,
    number: u64,
    head: OpeningLine<'_>,
    body: Lines<'_>,
) -> Reply
    ensures answered { IsDefined configs.old number (opening_line_of head.entry) (counted_lines body.entry)
        (reply result) }
    ensures becomes { Becomes configs.old (defines (opening_line_of head.entry) (counted_lines body.entry))
        (reply result) configs.new }
{
    match head {
        OpeningLine::Dictionary { name, kind } => {
            define_dictionary(alloc, configs, number, name, kind, body)
        }
        OpeningLine::Configuration { name } => define_configuration(
            alloc, configs, number, name, body,
        ),
    }
}

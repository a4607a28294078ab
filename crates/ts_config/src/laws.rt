// What holds of all mappings and placed lexemes.
ghost use Rattle.ts_config.specs.Mappings.{MappingReplacesOne, SimpleMapsAllButBlank};
ghost use Rattle.ts_config.specs.Phrases.{PhrasesAreWhole};
ghost use Rattle.ts_config.specs.Parts.{PartsAreOne, TokensAreParts};
ghost use Rattle.ts_config.specs.Placing.{PlacedAreOne, PositionsRise};

/// The type that is mapped has that list from then on, and each other keeps its own.
pub fn mapping_replaces_one()
    ensures { MappingReplacesOne }
{}

/// The configuration `simple` has the first dictionary for each type but blank.
pub fn simple_maps_all_but_blank()
    ensures { SimpleMapsAllButBlank }
{}

/// A phrase has the tokens that the thesaurus sees, and ends with the last of them.
pub fn phrases_are_whole()
    ensures { PhrasesAreWhole }
{}

/// The parts of a token list, tokens and phrases, are one list.
pub fn parts_are_one()
    ensures { PartsAreOne }
{}

/// Where no thesaurus is listed, each token is a part by itself.
pub fn tokens_are_parts()
    ensures { TokensAreParts }
{}

/// The placed lexemes of a text are one list.
pub fn placed_are_one()
    ensures { PlacedAreOne }
{}

/// Positions are numbered from 1, and don't fall.
pub fn positions_rise()
    ensures { PositionsRise }
{}

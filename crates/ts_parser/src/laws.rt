ghost use Rattle.ts_parser.specs.Between.{TokensBetween};
ghost use Rattle.ts_parser.specs.TokensOf.{OneTokenList};
ghost use Rattle.ts_parser.specs.Covers.{TokensCover, TokensFew};
ghost use Rattle.ts_parser.specs.Kinds.{NamesTellTypes, NumbersTellTypes};

/// Two types never share a name.
pub fn names_tell_types()
    ensures { NamesTellTypes }
{}

/// Two types never share a number.
pub fn numbers_tell_types()
    ensures { NumbersTellTypes }
{}

/// A text has exactly one token list.
pub fn one_token_list()
    ensures { OneTokenList }
{}

/// The tokens of a text that are no parts lie side by side and cover it; the parts of a hyphen word
/// and the blanks between them cover that word.
pub fn tokens_cover()
    ensures { TokensCover }
{}

/// A text has at most two tokens a byte.
pub fn tokens_few()
    ensures { TokensFew }
{}

/// A token of a text starts and ends between characters.
pub fn tokens_between()
    ensures { TokensBetween }
{}

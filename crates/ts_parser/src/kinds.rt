ghost use Rattle.std.specs.Prelude.{◌≡◌, ◌≢◌, MatchOption};
ghost use Rattle.ts_parser.specs.Kinds.{type_number, type_name, has_parts as parts_follow};
ghost use Rattle.ts_parser.specs.declared.kinds.TokenType.{TokenType as Kind};

/// What a token is. Contracts speak of its number and its name by `type_number` and `type_name`.
#[derive(Clone, Copy, Debug, PartialEq, Eq)]
pub enum TokenType {
    /// A run of ASCII letters.
    Asciiword,
    /// A run of letters, not all of them ASCII.
    Word,
    /// A run of letters and digits.
    Numword,
    /// A number with an exponent.
    Sfloat,
    /// Three or more groups of digits, with dots between them.
    Version,
    /// A part of a hyphen word that has a digit.
    HwordNumpart,
    /// A part of a hyphen word, of letters, not all of them ASCII.
    HwordPart,
    /// A part of a hyphen word, of ASCII letters.
    HwordAsciipart,
    /// What is between the others.
    Blank,
    /// A hyphen word that has a digit.
    Numhword,
    /// A hyphen word of ASCII letters.
    Asciihword,
    /// A hyphen word of letters, not all of them ASCII.
    Hword,
    /// Digits, a dot and digits, with or without a sign.
    Float,
    /// Digits after a sign.
    Int,
    /// Digits.
    Uint,
}

impl TokenType {
    /// The number by which the type is printed.
    pub fn number(self) -> u8
        ensures { result ≡ type_number self }
    {
        match self {
            TokenType::Asciiword => 1,
            TokenType::Word => 2,
            TokenType::Numword => 3,
            TokenType::Sfloat => 7,
            TokenType::Version => 8,
            TokenType::HwordNumpart => 9,
            TokenType::HwordPart => 10,
            TokenType::HwordAsciipart => 11,
            TokenType::Blank => 12,
            TokenType::Numhword => 15,
            TokenType::Asciihword => 16,
            TokenType::Hword => 17,
            TokenType::Float => 20,
            TokenType::Int => 21,
            TokenType::Uint => 22,
        }
    }

    /// The name by which a configuration speaks of the type.
    pub fn name(self) -> &'static str
        ensures { result.now ≡ type_name self }
    {
        match self {
            TokenType::Asciiword => "asciiword",
            TokenType::Word => "word",
            TokenType::Numword => "numword",
            TokenType::Sfloat => "sfloat",
            TokenType::Version => "version",
            TokenType::HwordNumpart => "hword_numpart",
            TokenType::HwordPart => "hword_part",
            TokenType::HwordAsciipart => "hword_asciipart",
            TokenType::Blank => "blank",
            TokenType::Numhword => "numhword",
            TokenType::Asciihword => "asciihword",
            TokenType::Hword => "hword",
            TokenType::Float => "float",
            TokenType::Int => "int",
            TokenType::Uint => "uint",
        }
    }

    /// The type of this name, or None where no type has it.
    pub fn from_name(name: &str) -> Option<TokenType>
        ensures { MatchOption result ((k : Kind) → type_name k ≢ name.now)
            (λ k. type_name k ≡ name.now) }
    {
        match name {
            "asciiword" => Some(TokenType::Asciiword),
            "word" => Some(TokenType::Word),
            "numword" => Some(TokenType::Numword),
            "sfloat" => Some(TokenType::Sfloat),
            "version" => Some(TokenType::Version),
            "hword_numpart" => Some(TokenType::HwordNumpart),
            "hword_part" => Some(TokenType::HwordPart),
            "hword_asciipart" => Some(TokenType::HwordAsciipart),
            "blank" => Some(TokenType::Blank),
            "numhword" => Some(TokenType::Numhword),
            "asciihword" => Some(TokenType::Asciihword),
            "hword" => Some(TokenType::Hword),
            "float" => Some(TokenType::Float),
            "int" => Some(TokenType::Int),
            "uint" => Some(TokenType::Uint),
            _ => None,
        }
    }

    /// Whether a token of this type is a hyphen word, after which its parts are given.
    pub fn has_parts(self) -> bool
        ensures { result ≡ parts_follow self }
    {
        matches!(
            self,
            TokenType::Numhword | TokenType::Asciihword | TokenType::Hword
        )
    }
}

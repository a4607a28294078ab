// Kinds of bytes that grammars share.
ghost use Rattle.std.specs.Prelude.{◌↔◌, MatchOption, IsTrue};
ghost use Rattle.ts_base.specs.declared.Weight.{Weight};
ghost use Rattle.ts_base.specs.Bytes.{IsWhite, IsBlank, IsLetter};

use crate::Weight;

/// White space: space, tab, line feed, vertical tab, form feed and carriage return.
pub fn is_white(c: char) -> bool
    ensures { IsTrue result ↔ IsWhite c }
{
    c == ' ' || ('\t' <= c && c <= '\r')
}

/// A space or a tab.
pub fn is_blank(byte: u8) -> bool
    ensures { IsTrue result ↔ IsBlank byte }
{
    byte == b' ' || byte == b'\t'
}

/// The weight that a letter names.
pub fn weight_of(c: char) -> Option<Weight>
    ensures { MatchOption result ((w : Weight) → ¬ IsLetter c w) (IsLetter c) }
{
    match c {
        'A' | 'a' => Some(Weight::A),
        'B' | 'b' => Some(Weight::B),
        'C' | 'c' => Some(Weight::C),
        'D' | 'd' => Some(Weight::D),
        _ => None,
    }
}

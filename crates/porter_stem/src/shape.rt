// Vowels and consonants of a word.
ghost use Rattle.std.specs.Prelude.{◌≡◌, ◌<◌, ◌+◌, ◌^◌};
ghost use Rattle.porter_stem.specs.Letters.{is_consonant, has_vowel, measure, ends_double, ends_short};
ghost use Rattle.porter_stem.specs.Shapes.{IsShape, Follows};

/// The vowels and consonants of a word, as far as the rules ask of them.
#[derive(Clone, Copy)]
pub struct Shape {
    /// How many times a vowel is followed by a consonant.
    pub measure: usize,
    /// Some letter is a vowel.
    pub has_vowel: bool,
    /// The last letter is a consonant.
    pub last: bool,
    /// The last letter but one is a consonant.
    pub second: bool,
    /// The last letter but two is a consonant.
    pub third: bool,
}

/// Whether a letter is a consonant, after a consonant or not.
fn is_consonant_behind(before: bool, letter: u8) -> bool
    ensures { result ≡ is_consonant before letter }
{
    match letter {
        b'y' => !before,
        b'a' | b'e' | b'i' | b'o' | b'u' => false,
        _ => true,
    }
}

/// The vowels and consonants of a word.
pub fn shape_of(word: &[u8]) -> Shape
    ensures { IsShape word.now result }
{
    let mut shape = Shape {
        measure: 0,
        has_vowel: false,
        last: false,
        second: false,
        third: false,
    };
    for &letter in word {
        shape = shape.behind(is_consonant_behind(shape.last, letter));
    }
    shape
}

impl Shape {
    /// With one letter more, a consonant or not.
    fn behind(self, kind: bool) -> Shape
        requires { self.measure + 1 < 2 ^ 64 }
        ensures { Follows self kind result }
    {
        let turns = kind && !self.last && self.has_vowel;
        Shape {
            measure: if turns {
                self.measure + 1
            } else {
                self.measure
            },
            has_vowel: self.has_vowel || !kind,
            last: kind,
            second: self.last,
            third: self.second,
        }
    }

    /// Whether a word of this shape ends in a double consonant.
    pub fn ends_double(self, word: &[u8]) -> bool
        requires { IsShape word.now self }
        ensures { result ≡ ends_double word.now }
    {
        match word {
            [.., before, last] => before == last && self.last,
            _ => false,
        }
    }

    /// Whether a word of this shape ends in consonant, vowel, consonant, the last none of w, x and y.
    pub fn ends_short(self, word: &[u8]) -> bool
        requires { IsShape word.now self }
        ensures { result ≡ ends_short word.now }
    {
        match word {
            [.., last] => self.third
                && !self.second
                && self.last
                && !matches!(*last, b'w' | b'x' | b'y'),
            [] => false,
        }
    }
}

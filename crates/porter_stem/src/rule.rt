// A rule on the end of words.
ghost use Rattle.std.specs.Prelude.{◌<◌, ◌≤◌, length};

/// What a rule asks of the stem before its suffix.
#[derive(Clone, Copy)]
pub enum Condition {
    /// Nothing.
    Always,
    /// It holds a vowel.
    HasVowel,
    /// Its measure is above this number.
    MeasureAbove(usize),
    /// Its measure is above 1, and it ends in s or t.
    IonBehind,
    /// Its measure is above 1; or it is 1 and the stem doesn't end in consonant, vowel, consonant.
    FinalE,
}

/// A suffix, what is in its place, and the condition.
#[derive(Clone, Copy)]
pub struct Rule {
    /// What the word ends in.
    pub suffix: &'static str,
    /// What is in its place.
    pub given: &'static str,
    /// What is asked of the stem before it.
    pub condition: Condition,
    ghost some: { 0 < length suffix.now },
    ghost no_longer: { length given.now ≤ length suffix.now },
}

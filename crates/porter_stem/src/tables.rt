// The algorithm's tables.
use crate::rule::{Condition, Rule};

/// Step 1a: plurals.
pub const RULES_1A: [Rule; 4] = [
    Rule {
        suffix: "sses",
        given: "ss",
        condition: Condition::Always,
    },
    Rule {
        suffix: "ies",
        given: "i",
        condition: Condition::Always,
    },
    Rule {
        suffix: "ss",
        given: "ss",
        condition: Condition::Always,
    },
    Rule {
        suffix: "s",
        given: "",
        condition: Condition::Always,
    },
];

/// Step 1b: `ed` and `ing`.
pub const RULES_1B: [Rule; 3] = [
    Rule {
        suffix: "eed",
        given: "ee",
        condition: Condition::MeasureAbove(0),
    },
    Rule {
        suffix: "ed",
        given: "",
        condition: Condition::HasVowel,
    },
    Rule {
        suffix: "ing",
        given: "",
        condition: Condition::HasVowel,
    },
];

/// Step 1c: a final y.
pub const RULES_1C: [Rule; 1] = [Rule {
    suffix: "y",
    given: "i",
    condition: Condition::HasVowel,
}];

/// Step 2: double suffixes.
pub const RULES_2: [Rule; 20] = [
    Rule {
        suffix: "ational",
        given: "ate",
        condition: Condition::MeasureAbove(0),
    },
    Rule {
        suffix: "tional",
        given: "tion",
        condition: Condition::MeasureAbove(0),
    },
    Rule {
        suffix: "enci",
        given: "ence",
        condition: Condition::MeasureAbove(0),
    },
    Rule {
        suffix: "anci",
        given: "ance",
        condition: Condition::MeasureAbove(0),
    },
    Rule {
        suffix: "izer",
        given: "ize",
        condition: Condition::MeasureAbove(0),
    },
    Rule {
        suffix: "abli",
        given: "able",
        condition: Condition::MeasureAbove(0),
    },
    Rule {
        suffix: "alli",
        given: "al",
        condition: Condition::MeasureAbove(0),
    },
    Rule {
        suffix: "entli",
        given: "ent",
        condition: Condition::MeasureAbove(0),
    },
    Rule {
        suffix: "eli",
        given: "e",
        condition: Condition::MeasureAbove(0),
    },
    Rule {
        suffix: "ousli",
        given: "ous",
        condition: Condition::MeasureAbove(0),
    },
    Rule {
        suffix: "ization",
        given: "ize",
        condition: Condition::MeasureAbove(0),
    },
    Rule {
        suffix: "ation",
        given: "ate",
        condition: Condition::MeasureAbove(0),
    },
    Rule {
        suffix: "ator",
        given: "ate",
        condition: Condition::MeasureAbove(0),
    },
    Rule {
        suffix: "alism",
        given: "al",
        condition: Condition::MeasureAbove(0),
    },
    Rule {
        suffix: "iveness",
        given: "ive",
        condition: Condition::MeasureAbove(0),
    },
    Rule {
        suffix: "fulness",
        given: "ful",
        condition: Condition::MeasureAbove(0),
    },
    Rule {
        suffix: "ousness",
        given: "ous",
        condition: Condition::MeasureAbove(0),
    },
    Rule {
        suffix: "aliti",
        given: "al",
        condition: Condition::MeasureAbove(0),
    },
    Rule {
        suffix: "iviti",
        given: "ive",
        condition: Condition::MeasureAbove(0),
    },
    Rule {
        suffix: "biliti",
        given: "ble",
        condition: Condition::MeasureAbove(0),
    },
];

/// Step 3: `ic`, `full`, `ness` and the like.
pub const RULES_3: [Rule; 7] = [
    Rule {
        suffix: "icate",
        given: "ic",
        condition: Condition::MeasureAbove(0),
    },
    Rule {
        suffix: "ative",
        given: "",
        condition: Condition::MeasureAbove(0),
    },
    Rule {
        suffix: "alize",
        given: "al",
        condition: Condition::MeasureAbove(0),
    },
    Rule {
        suffix: "iciti",
        given: "ic",
        condition: Condition::MeasureAbove(0),
    },
    Rule {
        suffix: "ical",
        given: "ic",
        condition: Condition::MeasureAbove(0),
    },
    Rule {
        suffix: "ful",
        given: "",
        condition: Condition::MeasureAbove(0),
    },
    Rule {
        suffix: "ness",
        given: "",
        condition: Condition::MeasureAbove(0),
    },
];

/// Step 4: suffixes that are taken off.
pub const RULES_4: [Rule; 19] = [
    Rule {
        suffix: "al",
        given: "",
        condition: Condition::MeasureAbove(1),
    },
    Rule {
        suffix: "ance",
        given: "",
        condition: Condition::MeasureAbove(1),
    },
    Rule {
        suffix: "ence",
        given: "",
        condition: Condition::MeasureAbove(1),
    },
    Rule {
        suffix: "er",
        given: "",
        condition: Condition::MeasureAbove(1),
    },
    Rule {
        suffix: "ic",
        given: "",
        condition: Condition::MeasureAbove(1),
    },
    Rule {
        suffix: "able",
        given: "",
        condition: Condition::MeasureAbove(1),
    },
    Rule {
        suffix: "ible",
        given: "",
        condition: Condition::MeasureAbove(1),
    },
    Rule {
        suffix: "ant",
        given: "",
        condition: Condition::MeasureAbove(1),
    },
    Rule {
        suffix: "ement",
        given: "",
        condition: Condition::MeasureAbove(1),
    },
    Rule {
        suffix: "ment",
        given: "",
        condition: Condition::MeasureAbove(1),
    },
    Rule {
        suffix: "ent",
        given: "",
        condition: Condition::MeasureAbove(1),
    },
    Rule {
        suffix: "ion",
        given: "",
        condition: Condition::IonBehind,
    },
    Rule {
        suffix: "ou",
        given: "",
        condition: Condition::MeasureAbove(1),
    },
    Rule {
        suffix: "ism",
        given: "",
        condition: Condition::MeasureAbove(1),
    },
    Rule {
        suffix: "ate",
        given: "",
        condition: Condition::MeasureAbove(1),
    },
    Rule {
        suffix: "iti",
        given: "",
        condition: Condition::MeasureAbove(1),
    },
    Rule {
        suffix: "ous",
        given: "",
        condition: Condition::MeasureAbove(1),
    },
    Rule {
        suffix: "ive",
        given: "",
        condition: Condition::MeasureAbove(1),
    },
    Rule {
        suffix: "ize",
        given: "",
        condition: Condition::MeasureAbove(1),
    },
];

/// Step 5a: a final e.
pub const RULES_5A: [Rule; 1] = [Rule {
    suffix: "e",
    given: "",
    condition: Condition::FinalE,
}];

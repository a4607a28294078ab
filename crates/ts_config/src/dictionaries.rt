// Dictionaries of any kind.
ghost use Rattle.std.specs.Prelude.{◌≡◌, is_some, IfSome};
ghost use Rattle.ts_config.specs.Rules.{is_thesaurus, rules_of, thesaurus_rules};

use porter_stem::Porter;
use std::alloc::{AllocError, Global};
use ts_base::{Answer, Dictionary};
use ts_synonym::Synonym;
use ts_thesaurus::Thesaurus;
use ts_words::Simple;

/// A dictionary of any kind. Contracts see what it goes by, as `rules_of` gives it.
#[derive(Debug, Drop)]
pub enum AnyDictionary {
    /// Gives each word in lower case, but for stop words.
    Simple(Simple),
    /// Gives a word what stands for it in a list.
    Synonym(Synonym),
    /// Gives each word's stem, but for stop words.
    Porter(Porter),
    /// Replaces phrases; the name is that of its subdictionary. It knows no single word.
    Thesaurus(Thesaurus, String),
}

impl AnyDictionary {
    /// Its rules and the name of its subdictionary, where it is a thesaurus.
    pub(crate) fn as_thesaurus(&self) -> Option<(&Thesaurus, &str)>
        ensures found { IfSome result (λ r. rules_of self.now ≡ thesaurus_rules r.0.now r.1.now) }
        ensures tells { is_some result ≡ is_thesaurus (rules_of self.now) }
    {
        match self {
            AnyDictionary::Simple(_) | AnyDictionary::Synonym(_) | AnyDictionary::Porter(_) => None,
            AnyDictionary::Thesaurus(thesaurus, sub) => Some((thesaurus, sub.as_str())),
        }
    }
}

impl Dictionary for AnyDictionary {
    ghost use Rattle.ts_config.specs.Rules.{answer_by, rules_of};

    ghost answer = { λ d word. answer_by (rules_of d) word };

    /// What the dictionary knows of a word.
    fn lexize(&self, alloc: Global, word: &str) -> Result<Answer, AllocError> {
        match self {
            AnyDictionary::Simple(simple) => simple.lexize(alloc, word),
            AnyDictionary::Synonym(synonym) => synonym.lexize(alloc, word),
            AnyDictionary::Porter(porter) => porter.lexize(alloc, word),
            AnyDictionary::Thesaurus(thesaurus, _) => thesaurus.lexize(alloc, word),
        }
    }
}

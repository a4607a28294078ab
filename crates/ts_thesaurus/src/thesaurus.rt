// The dictionary.
ghost use Rattle.std.specs.Prelude.{◌≡◌, ◌↔◌, ◌⊎◌, ℕ, ◌<◌, List, [], ◌∷◌, ◌++◌, map, is_some, IfOk, IfErr, IfSome};
ghost use Rattle.std.specs.Prelude.{IfNone, IsTrue, OnOk, OnErr};
ghost use Rattle.std.specs.Str.Lines.{lines};
ghost use Rattle.ts_base.specs.Dictionary.{answer_value};
ghost use Rattle.ts_thesaurus.specs.Rules.{IsBest, NoneFits, Continues};
ghost use Rattle.ts_thesaurus.specs.Lines.{AreRules, Adds};
ghost use Rattle.ts_thesaurus.specs.Faults.{IsFault, IsRefusal};
ghost use Rattle.ts_thesaurus.specs.Inner.Best.{IsBestPlace};
ghost use Rattle.ts_thesaurus.specs.Inner.Walks.{IsBestUpTo};
ghost use Rattle.ts_thesaurus.specs.Inner.States.{HasTree};
ghost use Rattle.ts_thesaurus.specs.Inner.Index.{MayHaveTree};
ghost use Rattle.ts_thesaurus.specs.Views.{rule_value};

use crate::line::read_line;
use crate::matching::{fits_first, goes_on};
use crate::rule::KeptRule;
use crate::tree::Tree;
use crate::walk::Walk;
use std::alloc::{AllocError, Global};
use std::marker::Model;
use ts_base::{Answer, Dictionary, Found, LineError, LinesError};

/// A dictionary that replaces phrases. Contracts see it as the list of its rules, in the order of their lines.
#[derive(Debug, Drop)]
pub struct Thesaurus {
    /// The rules.
    rules: Vec<KeptRule>,
    /// Their samples as a tree; none where memory once ran out while a rule was added.
    tree: Option<Tree>,
}

impl Model for Thesaurus {
    ghost use Rattle.std.specs.Prelude.{List, map};
    ghost use Rattle.ts_thesaurus.specs.Rules.{Rule};

    ghost Value = { List Rule };

    ghost use Rattle.ts_thesaurus.specs.Views.{rule_value};
    ghost use Rattle.ts_thesaurus.specs.Inner.Index.{MayHaveTree};

    ghost view = { λ t. map rule_value t.rules.items };

    ghost invariant = { λ t. MayHaveTree (map rule_value t.rules.items) t.tree };
}

/// What is replaced: how many answers, and the words in their place.
#[derive(Clone, Copy, Debug)]
pub struct Replaced<'a> {
    /// How many answers, from the first on.
    pub tokens: usize,
    /// The words in their place.
    pub words: &'a [Found],
}

/// The place of the longest rule that fits the first answers, of equal ones the last.
fn best_place(rules: &[KeptRule], answers: &[Answer]) -> Option<usize>
    ensures { IsBestPlace rules.now (map answer_value answers.now) result }
{
    let mut best = None;
    let mut longest = 0;
    for (i, rule) in rules.iter().enumerate() {
        let samples = rule.samples.as_slice();
        if longest <= samples.len() && fits_first(samples, answers) {
            longest = samples.len();
            best = Some(i);
        }
    }
    best
}

/// Whether some rule has a beginning that fits all of these answers, by the tree of the rules.
fn goes_on_in(tree: &Tree, rules: &[KeptRule], answers: &[Answer]) -> bool
    requires { HasTree (map rule_value rules.now) tree.now.states.items }
    ensures { IsTrue result ↔ Continues (map rule_value rules.now) (map answer_value answers.now) }
{
    !rules.is_empty() && tree.behind_all(answers).is_some()
}

/// The tree of these rules, if there is one, with the samples of one rule more.
fn grown(
    alloc: Global,
    tree: Option<Tree>,
    rules: &[KeptRule],
    rule: &KeptRule,
) -> Result<Option<Tree>, AllocError>
    requires { MayHaveTree (map rule_value rules.now) tree }
    ensures tree { IfOk result
        (MayHaveTree (map rule_value rules.now ++ rule_value rule.now ∷ [])) }
    ensures stays { IfOk result (λ r. is_some r ≡ is_some tree) }
{
    match tree {
        Some(tree) => Ok(Some(tree.with(alloc, rules, rule)?)),
        None => Ok(None),
    }
}

impl Thesaurus {
    /// The thesaurus without rules.
    pub fn new(alloc: Global) -> Thesaurus
        ensures { result ≡ [] }
    {
        Thesaurus {
            rules: Vec::new(alloc),
            tree: Some(Tree::new(alloc)),
        }
    }

    /// The rules of these lines, by the answers of the subdictionary.
    pub fn read<D: Dictionary>(alloc: Global, text: &str, sub: &D) -> Result<Thesaurus, LinesError>
        ensures value { IfOk result (AreRules (D.answer sub.now) (lines text.now)) }
        ensures bad { IfErr result (IsRefusal (D.answer sub.now) (lines text.now)) }
    {
        let mut thesaurus = Thesaurus::new(alloc);
        let mut number = 0;
        for line in text.lines() {
            number += 1;
            if let Err(error) = thesaurus.add_line(alloc, line, sub) {
                return Err(error.at(number));
            }
        }
        Ok(thesaurus)
    }

    /// Puts a rule after the others.
    fn keep(&mut self, alloc: Global, rule: KeptRule) -> Result<(), AllocError>
        ensures kept { OnOk result (self.new ≡ self.old ++ rule_value rule ∷ []) }
        ensures failed { OnErr result (self.new ≡ self.old) }
    {
        let tree = grown(alloc, self.tree.take(), &self.rules, &rule)?;
        self.rules.push(rule)?;
        self.tree = tree;
        Ok(())
    }

    /// Takes the rule of one line more, by the answers of the subdictionary.
    ///
    /// A line is bad that has no `:`, no words on a side, a word of more than 2046 bytes, or an
    /// indexed word without lexemes. A refused line changes nothing.
    pub fn add_line<D: Dictionary>(
        &mut self,
        alloc: Global,
        line: &str,
        sub: &D,
    ) -> Result<(), LineError>
        ensures taken { OnOk result (Adds (D.answer sub.now) line.now self.old self.new) }
        ensures fault { IfErr result (IsFault (D.answer sub.now) line.now) }
        ensures failed { OnErr result (self.new ≡ self.old) }
    {
        let Some(rule) = read_line(alloc, line, sub)? else {
            return Ok(());
        };
        self.keep(alloc, rule)?;
        Ok(())
    }

    /// The place of the longest rule that fits the first answers, of equal ones the last.
    fn best_at(&self, answers: &[Answer]) -> Option<usize>
        ensures { (n : ℕ) → IsBestUpTo self.now (map answer_value answers.now) n result }
    {
        match &self.tree {
            Some(tree) => tree.best(answers),
            None => best_place(&self.rules, answers),
        }
    }

    /// What the longest rule that fits the first answers gives, of equally long ones the last; none where no rule fits.
    pub fn best(&self, answers: &[Answer]) -> Option<Replaced<'_>>
        ensures best { IfSome result (λ r. IsBest self.now (map answer_value answers.now)
            (record { tokens = r.tokens; words = r.words.now })) }
        ensures none { IfNone result (NoneFits self.now (map answer_value answers.now)) }
    {
        let place = self.best_at(answers)?;
        let rule = &self.rules[place];
        Some(Replaced {
            tokens: rule.samples.as_slice().len(),
            words: rule.words.as_slice(),
        })
    }

    /// Whether some rule has a beginning that fits all of these answers.
    pub fn continues(&self, answers: &[Answer]) -> bool
        ensures { IsTrue result ↔ Continues self.now (map answer_value answers.now) }
    {
        match &self.tree {
            Some(tree) => goes_on_in(tree, &self.rules, answers),
            None => goes_on(&self.rules, answers),
        }
    }

    /// A walk along answers to come.
    pub fn walk(&self, alloc: Global) -> Walk<'_>
        ensures { result ≡ record { rules = self.now; answers = [] } }
    {
        Walk::new(alloc, &self.rules, self.tree.as_ref())
    }
}

/// A thesaurus replaces phrases, and knows no single word.
impl Dictionary for Thesaurus {
    ghost use Rattle.ts_base.specs.Dictionary.{unknown_word};

    ghost answer = { λ _ _. unknown_word };

    /// Unknown.
    fn lexize(&self, _alloc: Global, _word: &str) -> Result<Answer, AllocError> {
        Ok(Answer::Unknown)
    }
}

// Answers that come one after another, as the rules go on with them.
ghost use Rattle.std.specs.Prelude.{◌≡◌, ◌↔◌, ◌++◌, ◌∷◌, [], map, IsTrue, OnOk, OnErr};
ghost use Rattle.ts_base.specs.Dictionary.{answer_value};
ghost use Rattle.ts_thesaurus.specs.Rules.{Continues};
ghost use Rattle.ts_thesaurus.specs.Views.{rule_value};
ghost use Rattle.ts_thesaurus.specs.Inner.Index.{LooksIn, behind_in};

use crate::matching::goes_on;
use crate::rule::KeptRule;
use crate::tree::Tree;
use std::alloc::{AllocError, Global};
use std::marker::Model;
use ts_base::Answer;

/// A walk along answers that come one after another. Contracts see it as the rules and the answers
/// so far.
#[derive(Drop)]
pub struct Walk<'a> {
    /// The rules.
    rules: &'a [KeptRule],
    /// Their samples as a tree, if there is one.
    tree: Option<&'a Tree>,
    /// The answers so far.
    answers: Vec<Answer>,
    /// The state after them in the tree.
    state: Option<usize>,
}

impl<'a> Model for Walk<'a> {
    ghost use Rattle.std.specs.Prelude.{map};
    ghost use Rattle.ts_base.specs.Dictionary.{answer_value};
    ghost use Rattle.ts_thesaurus.specs.Walked.{Walked};

    ghost Value = { Walked };

    ghost use Rattle.ts_thesaurus.specs.Views.{rule_value};
    ghost use Rattle.ts_thesaurus.specs.Inner.Index.{IsOnWay};

    ghost view = { λ w. record {
      rules = map rule_value w.rules.now;
      answers = map answer_value w.answers.items;
    } };

    ghost invariant = { λ w. IsOnWay (map rule_value w.rules.now) w.tree
        (map answer_value w.answers.items) w.state };
}

/// The state after a state by an answer, if there are a tree and a state.
fn state_behind(tree: Option<&Tree>, state: Option<usize>, answer: &Answer) -> Option<usize>
    ensures { result ≡ behind_in tree.entry state (answer_value answer.now) }
{
    tree?.behind(state?, answer)
}

impl<'a> Walk<'a> {
    /// The walk along no answers.
    pub(crate) fn new(alloc: Global, rules: &'a [KeptRule], tree: Option<&'a Tree>) -> Walk<'a>
        requires { LooksIn (map rule_value rules.now) tree }
        ensures { result ≡ record { rules = map rule_value rules.now; answers = [] } }
    {
        Walk {
            rules,
            tree,
            answers: Vec::new(alloc),
            state: Some(0),
        }
    }

    /// Goes on by one answer more.
    pub fn push(&mut self, answer: Answer) -> Result<(), AllocError>
        ensures pushed { OnOk result (self.new ≡ record {
          rules = self.old.rules;
          answers = self.old.answers ++ answer_value answer ∷ [];
        }) }
        ensures failed { OnErr result (self.new ≡ self.old) }
    {
        let state = state_behind(self.tree, self.state, &answer);
        self.answers.push(answer)?;
        self.state = state;
        Ok(())
    }

    /// Whether some rule has a beginning that fits all of the answers.
    pub fn continues(&self) -> bool
        ensures { IsTrue result ↔ Continues self.now.rules self.now.answers }
    {
        match self.tree {
            Some(_) => !self.rules.is_empty() && self.state.is_some(),
            None => goes_on(self.rules, &self.answers),
        }
    }

    /// The answers.
    pub fn into_answers(self) -> Vec<Answer>
        ensures { map answer_value result.items ≡ self.entry.answers }
    {
        self.answers
    }
}

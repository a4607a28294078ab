// The samples of all rules as a tree, in which the rules that fit answers are found.
ghost use Rattle.std.specs.Prelude.{◌≡◌, [], ◌∷◌, ◌++◌, map, IfOk, OnOk};
ghost use Rattle.ts_base.specs.Dictionary.{answer_value};
ghost use Rattle.ts_thesaurus.specs.Rules.{lexemes_of};
ghost use Rattle.ts_thesaurus.specs.Views.{sample_value, rule_value};
ghost use Rattle.ts_thesaurus.specs.Inner.Walks.{behind_words, behind as behind_by, behind_all, best_on};
ghost use Rattle.ts_thesaurus.specs.Inner.States.{letter_value, IsEmptyState, step_of, steps_of, last_of, LeadsTo};
ghost use Rattle.ts_thesaurus.specs.Inner.States.{Stands, Enters, EntersWords, EntersSample, EntersSamples, HasRoot};
ghost use Rattle.ts_thesaurus.specs.Inner.States.{HasTree};

use crate::rule::{KeptRule, Sample};
use std::alloc::{AllocError, Global};
use std::collections::BTreeMap;
use ts_base::{Answer, Found};

/// What leads from a state to the next.
#[derive(Clone, Copy, Debug)]
enum Letter<'a> {
    /// A stop word.
    Stop,
    /// The next lexeme of a sample.
    Word(&'a str),
    /// The end of a sample with lexemes.
    End,
}

/// A state of the tree.
#[derive(Debug, Drop)]
pub struct State {
    /// The state after a stop word.
    pub stop: Option<usize>,
    /// The states after a sample's next lexeme.
    pub words: BTreeMap<String, usize>,
    /// The state after the end of a sample with lexemes.
    pub end: Option<usize>,
    /// The last rule whose samples end here.
    pub last: Option<usize>,
}

impl State {
    /// A state from which nothing leads on.
    fn new(alloc: Global) -> State
        ensures { IsEmptyState result }
    {
        State {
            stop: None,
            words: BTreeMap::new(alloc),
            end: None,
            last: None,
        }
    }

    /// The state after this one by a letter.
    fn step(&self, letter: Letter<'_>) -> Option<usize>
        ensures { result ≡ step_of self.now (letter_value letter.entry) }
    {
        match letter {
            Letter::Stop => self.stop,
            Letter::Word(word) => self.words.get(word).copied(),
            Letter::End => self.end,
        }
    }

    /// Lets a letter lead on to a state.
    fn lead(&mut self, alloc: Global, letter: Letter<'_>, next: usize) -> Result<(), AllocError>
        ensures { OnOk result (LeadsTo self.old self.new (letter_value letter.entry) next) }
    {
        match letter {
            Letter::Stop => self.stop = Some(next),
            Letter::Word(word) => {
                let word = String::from_str(alloc, word)?;
                self.words.insert(word, next)?;
            }
            Letter::End => self.end = Some(next),
        }
        Ok(())
    }
}

/// The samples of all rules as a tree of states. The root is the state 0.
#[derive(Debug, Drop)]
pub struct Tree {
    /// The states.
    pub states: Vec<State>,
}

impl Tree {
    /// The tree without states.
    pub fn new(alloc: Global) -> Tree
        ensures { result.states.items ≡ [] }
    {
        Tree {
            states: Vec::new(alloc),
        }
    }

    /// The state after a state by a letter.
    fn step(&self, state: usize, letter: Letter<'_>) -> Option<usize>
        ensures { result ≡ steps_of self.now.states.items state (letter_value letter.entry) }
    {
        self.states.get(state)?.step(letter)
    }

    /// The state after a state by a letter; it is added where it isn't there.
    fn enter(
        &mut self,
        alloc: Global,
        state: usize,
        letter: Letter<'_>,
    ) -> Result<usize, AllocError>
        requires { Stands self.old.states.items state }
        ensures { IfOk result
            (Enters self.old.states.items self.new.states.items state (letter_value letter.entry)) }
    {
        if let Some(next) = self.step(state, letter) {
            return Ok(next);
        }
        let next = self.states.len();
        self.states.push(State::new(alloc))?;
        self.states[state].lead(alloc, letter, next)?;
        Ok(next)
    }

    /// The state after a state by the lexemes of a sample.
    fn enter_words(
        &mut self,
        alloc: Global,
        from: usize,
        found: &[Found],
    ) -> Result<usize, AllocError>
        requires { Stands self.old.states.items from }
        ensures { IfOk result (EntersWords self.old.states.items self.new.states.items from
            (lexemes_of found.now)) }
    {
        let mut state = from;
        for word in found {
            state = self.enter(alloc, state, Letter::Word(word.lexeme.as_str()))?;
        }
        Ok(state)
    }

    /// The state after a state by a sample.
    fn enter_sample(
        &mut self,
        alloc: Global,
        state: usize,
        sample: &Sample,
    ) -> Result<usize, AllocError>
        requires { Stands self.old.states.items state }
        ensures { IfOk result (EntersSample self.old.states.items self.new.states.items state
            (sample_value sample.now)) }
    {
        match sample {
            Sample::AnyStop => self.enter(alloc, state, Letter::Stop),
            Sample::Lexemes(found) => {
                let state = self.enter_words(alloc, state, found)?;
                self.enter(alloc, state, Letter::End)
            }
        }
    }

    /// The state after the root by samples.
    fn enter_samples(&mut self, alloc: Global, samples: &[Sample]) -> Result<usize, AllocError>
        requires { Stands self.old.states.items 0 }
        ensures { IfOk result (EntersSamples self.old.states.items self.new.states.items 0
            (map sample_value samples.now)) }
    {
        let mut state = 0;
        for sample in samples {
            state = self.enter_sample(alloc, state, sample)?;
        }
        Ok(state)
    }

    /// The tree with its root.
    fn with_root(mut self, alloc: Global) -> Result<Tree, AllocError>
        ensures { IfOk result (λ r. HasRoot self.states.items r.states.items) }
    {
        if self.states.is_empty() {
            self.states.push(State::new(alloc))?;
        }
        Ok(self)
    }

    /// The tree with the samples of one rule more, which is after these rules.
    pub fn with(
        self,
        alloc: Global,
        rules: &[KeptRule],
        rule: &KeptRule,
    ) -> Result<Tree, AllocError>
        requires { HasTree (map rule_value rules.now) self.states.items }
        ensures { IfOk result (λ r.
            HasTree (map rule_value rules.now ++ rule_value rule.now ∷ []) r.states.items) }
    {
        let mut tree = self.with_root(alloc)?;
        let end = tree.enter_samples(alloc, &rule.samples)?;
        tree.states[end].last = Some(rules.len());
        Ok(tree)
    }
}

impl Tree {
    /// The last rule whose samples end at a state.
    fn last(&self, state: usize) -> Option<usize>
        ensures { result ≡ last_of self.now.states.items state }
    {
        self.states.get(state)?.last
    }

    /// The state after a state by lexemes, one after another.
    fn behind_words(&self, from: usize, found: &[Found]) -> Option<usize>
        ensures { result
            ≡ behind_words (steps_of self.now.states.items) from (lexemes_of found.now) }
    {
        let mut state = from;
        for word in found {
            state = self.step(state, Letter::Word(word.lexeme.as_str()))?;
        }
        Some(state)
    }

    /// The state after a state by an answer.
    pub fn behind(&self, state: usize, answer: &Answer) -> Option<usize>
        ensures { result
            ≡ behind_by (steps_of self.now.states.items) state (answer_value answer.now) }
    {
        match answer {
            Answer::Unknown => None,
            Answer::Stop => self.step(state, Letter::Stop),
            Answer::Lexemes(found) => {
                let state = self.behind_words(state, found)?;
                self.step(state, Letter::End)
            }
        }
    }

    /// The place of the longest rule that fits the first answers, of equal ones the last.
    pub fn best(&self, answers: &[Answer]) -> Option<usize>
        ensures { result ≡ best_on (steps_of self.now.states.items) (last_of self.now.states.items)
            0 (last_of self.now.states.items 0) (map answer_value answers.now) }
    {
        let mut state = 0;
        let mut best = self.last(0);
        for answer in answers {
            let Some(next) = self.behind(state, answer) else {
                return best;
            };
            state = next;
            best = self.last(state).or(best);
        }
        best
    }

    /// The state after the root by all answers.
    pub fn behind_all(&self, answers: &[Answer]) -> Option<usize>
        ensures { result
            ≡ behind_all (steps_of self.now.states.items) 0 (map answer_value answers.now) }
    {
        let mut state = 0;
        for answer in answers {
            state = self.behind(state, answer)?;
        }
        Some(state)
    }
}

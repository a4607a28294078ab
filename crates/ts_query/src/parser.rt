// From tokens to the postfix list of a query's tree: a stack of open operators, and what is put out.
ghost use Rattle.std.specs.Prelude.{◌≡◌, ◌≢◌, ◌<◌, ◌+◌, ◌↔◌, ℕ, List, [], ◌∷◌, ◌++◌, map, IfOk, OnOk, MatchOption};
ghost use Rattle.std.specs.Prelude.{option_map, vec_len, IsTrue, MatchBool};
ghost use Rattle.ts_query.specs.Queries.{Tree};
ghost use Rattle.ts_query.specs.Tokens.{word, bang, opening, closing, sign};
ghost use Rattle.ts_query.specs.Grammar.{level};
ghost use Rattle.ts_query.specs.Inner.Frames.{Frame, Spot, IsDue, IsHeld};
ghost use Rattle.ts_query.specs.Inner.Parsing.{link_joint, word_operand, entry_item, Shows, ShowsHeld, Took};
ghost use Rattle.ts_query.specs.Inner.Parsing.{TookOrNever, AppliedOne, AppliedAll, QueryEnd};
ghost use Rattle.ts_query.specs.declared.parser.Op.{Op};

use std::alloc::AllocError;
use ts_base::Weights;

/// A binary operator.
#[derive(Clone, Copy)]
pub enum Link {
    /// `|`.
    Or,
    /// `&`.
    And,
    /// A phrase with this distance.
    Phrase(u16),
}

/// An operator that waits for its right operand, or an open bracket.
#[derive(Clone, Copy)]
pub enum Op {
    /// An open bracket.
    Open,
    /// `!`.
    Not,
    /// A binary operator whose left operand is out.
    Pending(Link),
}

/// An operand as the text has it; its lexeme may be too long.
#[derive(Drop)]
pub struct Word {
    /// The lexeme.
    pub lexeme: String,
    /// The weights that it is marked with.
    pub weights: Weights,
    /// Whether it is marked as a prefix.
    pub prefix: bool,
}

/// An item of the postfix list.
#[derive(Drop)]
pub enum Entry {
    /// An operand.
    Operand(Word),
    /// `!`, after its operand.
    Not,
    /// A binary operator, after its operands.
    Joined(Link),
}

/// Where the parser is.
#[derive(Clone, Copy)]
pub enum Place {
    /// Nothing was read.
    Start,
    /// An operand is due.
    Due,
    /// An operand is there.
    Held,
}

/// A parser of tokens.
#[derive(Drop)]
pub struct Parser {
    /// Where it is.
    pub place: Place,
    /// The open operators and brackets, the innermost last.
    pub ops: Vec<Op>,
    /// The postfix list so far.
    pub out: Vec<Entry>,
}

/// The level of an operator: the tighter it binds, the higher.
pub fn level_of(link: Link) -> u8
    ensures value { result ≡ level (link_joint link) }
    ensures below { result < 3 }
{
    match link {
        Link::Or => 0,
        Link::And => 1,
        Link::Phrase(_) => 2,
    }
}

impl Parser {
    /// Whether an operand may come next; else an operator may.
    pub fn is_due(&self) -> bool
        ensures { (s : Spot) → Shows self.now s → MatchBool result (IsDue s) (IsHeld s) }
    {
        match self.place {
            Place::Start | Place::Due => true,
            Place::Held => false,
        }
    }

    /// The innermost open operator.
    fn top(&self) -> Option<Op>
        ensures { MatchOption result (self.now.ops.items ≡ [])
            (λ op. (front : List Op) × (self.now.ops.items ≡ front ++ op ∷ [])) }
    {
        self.ops.last().copied()
    }

    /// Moves the innermost operator to the end of what is out.
    fn apply(&mut self, entry: Entry) -> Result<(), AllocError>
        requires { 0 < vec_len self.old.ops }
        ensures place { OnOk result (self.new.place ≡ self.old.place) }
        ensures ops { OnOk result
            ((op : Op) (front : List Op) → self.old.ops.items ≡ front ++ op ∷ []
            → self.new.ops.items ≡ front) }
        ensures len { OnOk result (vec_len self.new.ops + 1 ≡ vec_len self.old.ops) }
        ensures out { OnOk result (self.new.out.items ≡ self.old.out.items ++ entry ∷ []) }
    {
        self.out.push(entry)?;
        self.ops.truncate(self.ops.len() - 1);
        Ok(())
    }

    /// Takes the innermost operator away.
    fn drop_top(&mut self)
        requires { 0 < vec_len self.old.ops }
        ensures place { self.new.place ≡ self.old.place }
        ensures ops { (op : Op) (front : List Op) → self.old.ops.items ≡ front ++ op ∷ []
            → self.new.ops.items ≡ front }
        ensures out { self.new.out.items ≡ self.old.out.items }
    {
        self.ops.truncate(self.ops.len() - 1);
    }

    /// Applies the innermost operator, if its level is `least` or tighter.
    fn apply_one(&mut self, least: u8) -> Result<bool, AllocError>
        requires { least < 3 }
        ensures applied { IfOk result
            (λ ok. (j : ℕ) (fs : List Frame) (y : Tree) → ShowsHeld self.old j fs y
            → AppliedOne ok least j fs y self.new) }
        ensures falls { IfOk result
            (λ ok. IsTrue ok → vec_len self.new.ops < vec_len self.old.ops) }
    {
        match self.top() {
            None | Some(Op::Open) => Ok(false),
            Some(Op::Not) => {
                self.apply(Entry::Not)?;
                Ok(true)
            }
            Some(Op::Pending(link)) => {
                if level_of(link) < least {
                    return Ok(false);
                }
                self.apply(Entry::Joined(link))?;
                Ok(true)
            }
        }
    }

    /// Applies the operators of the level `least` and tighter, up to a bracket or a looser one.
    fn apply_all(&mut self, least: u8) -> Result<(), AllocError>
        requires { least < 3 }
        ensures { OnOk result
            ((j : ℕ) (fs : List Frame) (y : Tree) → ShowsHeld self.old j fs y
            → AppliedAll least j fs y self.new) }
    {
        while self.apply_one(least)? {}
        Ok(())
    }

    /// An operand.
    pub fn operand(&mut self, operand: Word) -> Result<(), AllocError>
        ensures { OnOk result
            ((at : ℕ) (s : Spot) → IsDue s → Shows self.old s
            → Took s (word at (word_operand operand)) self.new) }
    {
        self.out.push(Entry::Operand(operand))?;
        self.place = Place::Held;
        Ok(())
    }

    /// `!`.
    pub fn negation(&mut self) -> Result<(), AllocError>
        ensures { OnOk result ((s : Spot) → IsDue s → Shows self.old s → Took s bang self.new) }
    {
        self.ops.push(Op::Not)?;
        self.place = Place::Due;
        Ok(())
    }

    /// An opening bracket.
    pub fn open(&mut self) -> Result<(), AllocError>
        ensures { OnOk result ((s : Spot) → IsDue s → Shows self.old s → Took s opening self.new) }
    {
        self.ops.push(Op::Open)?;
        self.place = Place::Due;
        Ok(())
    }

    /// A binary operator after an operand.
    pub fn link(&mut self, link: Link) -> Result<(), AllocError>
        ensures { OnOk result
            ((at : ℕ) (s : Spot) → IsHeld s → Shows self.old s
            → Took s (sign at (link_joint link)) self.new) }
    {
        self.apply_all(level_of(link))?;
        self.ops.push(Op::Pending(link))?;
        self.place = Place::Due;
        Ok(())
    }

    /// A closing bracket after an operand; `false` where no bracket is open.
    pub fn close(&mut self) -> Result<bool, AllocError>
        ensures { IfOk result
            (λ ok. (s : Spot) → IsHeld s → Shows self.old s → TookOrNever s closing ok self.new) }
    {
        self.apply_all(0)?;
        match self.top() {
            None => Ok(false),
            Some(_) => {
                self.drop_top();
                Ok(true)
            }
        }
    }

    /// The query's postfix list, if the tokens may end here.
    pub fn finish(mut self) -> Result<Option<Vec<Entry>>, AllocError>
        ensures { IfOk result
            (λ r. (s : Spot) → Shows self s
            → QueryEnd s (option_map (λ v. map entry_item v.items) r)) }
    {
        match self.place {
            Place::Start => Ok(Some(self.out)),
            Place::Due => Ok(None),
            Place::Held => {
                self.apply_all(0)?;
                match self.top() {
                    None => Ok(Some(self.out)),
                    Some(_) => Ok(None),
                }
            }
        }
    }
}

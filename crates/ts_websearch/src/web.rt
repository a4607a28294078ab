// Queries of web texts.
ghost use Rattle.std.specs.Prelude.{◌≡◌, ◌↔◌, IsTrue, ℕ, List, [], ◌∷◌, ◌++◌, true, IfOk, OnOk, IfErr, is_some};
ghost use Rattle.ts_query.specs.Queries.{IsSound};
ghost use Rattle.ts_config.specs.Known.{Known, IsWithin};
ghost use Rattle.ts_config.specs.Mappings.{Mapping};
ghost use Rattle.ts_make.specs.Removal.{Sketch};
ghost use Rattle.ts_make.specs.Making.{IsMaking};
ghost use Rattle.ts_websearch.specs.Items.{WebItem, AreItems};
ghost use Rattle.ts_websearch.specs.Rows.{IsOperator};
ghost use Rattle.ts_websearch.specs.Made.{IsWebQuery, WebQueryFails, text_tree, item_tree, row_query};
ghost use Rattle.ts_websearch.specs.Inner.Pieces.{piece_item};
ghost use Rattle.ts_websearch.specs.Inner.Stacks.{IsMadeOn, MakingFails, IsWebAt, AddingFails, EndingFails};

use crate::items::{Piece, is_or, next_piece};
use std::alloc::Global;
use ts_base::Weights;
use ts_config::{Config, Configs};
use ts_make::{Link, QueryMaker};
use ts_query::{QueryError, TsQuery};

/// The text that an item asks for, and whether it is negated.
fn asked(piece: Piece<'_>) -> (&str, bool)
    ensures { item_tree (piece_item piece.entry) ≡ text_tree result.1 result.0.now }
{
    match piece {
        Piece::Quoted { negated, text } => (text, negated),
        Piece::Row { negated, text } => (text, negated),
        Piece::Hyphen => ("", false),
    }
}

/// Makes an item's operand, negated or not.
fn make_piece(
    maker: &mut QueryMaker,
    alloc: Global,
    configs: &Configs,
    config: &Config,
    piece: Piece,
) -> Result<(), QueryError>
    requires within { IsWithin configs.now config.now }
    requires making { (ds : List Sketch) × IsMaking maker.old ds }
    ensures value { OnOk result
        (IsMadeOn configs.now config.now (item_tree (piece_item piece.entry)) maker.old maker.new) }
    ensures refused { IfErr result
        (MakingFails configs.now config.now (item_tree (piece_item piece.entry)) maker.old) }
{
    let (text, negated) = asked(piece);
    maker.operand(alloc, configs, config, text, Weights::default(), false)?;
    if negated {
        return maker.not();
    }
    Ok(())
}

/// Whether an item stands for `|`: it is `or`, and neither first nor last nor right after another.
fn is_operator(row: bool, piece: Piece, behind: &str) -> bool
    ensures { (a is : List WebItem) → row ≡ is_some (row_query a) → AreItems behind.now is
        → (IsTrue result ↔ IsOperator a (piece_item piece.entry) is) }
{
    row && is_or(piece) && next_piece(behind).is_some()
}

/// A web query that is made item by item.
#[derive(Drop)]
struct WebMaker {
    /// The rows that have ended, joined, where there are any; then the row so far, where it has an item.
    maker: QueryMaker,
    /// Whether there are rows that have ended.
    rows: bool,
    /// Whether the row so far has an item.
    row: bool,
}

impl WebMaker {
    /// Adds an item to the row.
    fn add(
        &mut self,
        alloc: Global,
        configs: &Configs,
        config: &Config,
        piece: Piece,
    ) -> Result<(), QueryError>
        requires within { IsWithin configs.now config.now }
        requires at { (ended : List (List WebItem)) × (row : List WebItem)
            × IsWebAt configs.now config.now self.old ended row }
        ensures value { OnOk result ((ended : List (List WebItem)) (row : List WebItem)
            → IsWebAt configs.now config.now self.old ended row
            → IsWebAt configs.now config.now self.new ended (row ++ piece_item piece.entry ∷ [])) }
        ensures refused { IfErr result (λ e. (ended : List (List WebItem)) (row : List WebItem)
            → IsWebAt configs.now config.now self.old ended row
            → AddingFails configs.now config.now ended (row ++ piece_item piece.entry ∷ []) e) }
    {
        make_piece(&mut self.maker, alloc, configs, config, piece)?;
        if self.row {
            self.maker.join(Link::And)?;
        }
        self.row = true;
        Ok(())
    }

    /// Ends the row, and joins it to those before it.
    fn end_row(&mut self) -> Result<(), QueryError>
        requires at { (known : Known) × (mapping : Mapping) × (ended : List (List WebItem))
            × (row : List WebItem) × IsWebAt known mapping self.old ended row }
        ensures value { OnOk result ((known : Known) (mapping : Mapping)
            (ended : List (List WebItem)) (row : List WebItem)
            → IsWebAt known mapping self.old ended row
            → IsWebAt known mapping self.new (ended ++ row ∷ []) []) }
        ensures refused { IfErr result (λ e. (known : Known) (mapping : Mapping)
            (ended : List (List WebItem)) (row : List WebItem)
            → IsWebAt known mapping self.old ended row
            → EndingFails known mapping ended row e) }
    {
        if self.rows && self.row {
            self.maker.join(Link::Or)?;
        }
        self.rows |= self.row;
        self.row = false;
        Ok(())
    }
}

/// The query that a web text is made by a configuration of these: its items as operands without weights,
/// joined by `&`, and by `|` where `or` is between them, without those that have no lexemes. 32768 nodes
/// or more are too many, counted before the removal, with one for each such operand.
///
/// ```
/// let configs = Configs::new(alloc)?;
/// if let Some(simple) = configs.config("simple") {
///     let query = websearch_to_tsquery(alloc, &configs, simple, "rat or \"fat cat\" -dog")?;
///     assert_eq!(rt; query.to_text(alloc)?.as_str(), "'rat' | 'fat' <-> 'cat' & !'dog'");
/// }
/// ```
pub fn websearch_to_tsquery(
    alloc: Global,
    configs: &Configs,
    config: &Config,
    text: &str,
) -> Result<TsQuery, QueryError>
    requires { IsWithin configs.now config.now }
    ensures value { IfOk result (IsWebQuery configs.now config.now text.now) }
    ensures sound { IfOk result IsSound }
    ensures refused { IfErr result (WebQueryFails configs.now config.now text.now) }
{
    let mut web = WebMaker {
        maker: QueryMaker::new(alloc),
        rows: false,
        row: false,
    };
    let mut rest = text;
    while let Some((piece, behind)) = next_piece(rest) {
        if is_operator(web.row, piece, behind) {
            web.end_row()?;
        } else {
            web.add(alloc, configs, config, piece)?;
        }
        rest = behind;
    }
    web.end_row()?;
    Ok(web.maker.finish())
}

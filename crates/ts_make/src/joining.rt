// Placed lexemes, joined by their positions.
ghost use Rattle.std.specs.Prelude.{◌≡◌, ◌≤◌, ◌∷◌, length, OnOk, IfOk, IfErr, min};
ghost use Rattle.ts_query.specs.Queries.{and_joint};
ghost use Rattle.ts_query.specs.Building.{with_joint, nodes_among};
ghost use Rattle.ts_make.specs.Trees.{near as near_to};
ghost use Rattle.ts_make.specs.Limits.{IsOnlyPast};
ghost use Rattle.ts_make.specs.Inner.Writing.{way_joint, closed, closed_last, with_placed, joined_from, IsDeep};
ghost use Rattle.ts_make.specs.Inner.Writing.{IsDeepAt};

use ts_base::Weights;
use ts_config::Placed;
use ts_query::{GREATEST_DISTANCE, QueryBuilder, QueryError};

/// How groups are joined.
#[derive(Clone, Copy, Debug)]
pub enum Way {
    /// Each after the one before it, at the distance of their positions.
    Phrase,
    /// All of them, in any order.
    Conjunction,
}

/// What each lexeme is asked with.
#[derive(Clone, Copy, Debug)]
pub struct Marks {
    /// The weights; none stand for any.
    pub weights: Weights,
    /// Whether each stands for all that begin with it.
    pub prefix: bool,
}

/// The last group so far.
#[derive(Clone, Copy, Debug)]
pub struct Last {
    /// Its position.
    pub position: usize,
    /// The distance from the group before it, where there is one: they aren't joined yet.
    pub distance: Option<usize>,
}

/// A distance above 16384 counts as 16384.
pub fn near(distance: usize) -> u16
    ensures value { result ≡ near_to distance }
    ensures most { result ≤ GREATEST_DISTANCE }
{
    if distance < GREATEST_DISTANCE as usize {
        return distance as u16;
    }
    GREATEST_DISTANCE
}

/// Joins the last group to the one before it, at this distance, where there is one.
fn close(builder: &mut QueryBuilder, way: Way, distance: Option<usize>) -> Result<(), QueryError>
    requires { IsDeepAt distance builder.old }
    ensures value { OnOk result (builder.new ≡ closed way distance builder.old) }
    ensures refused { IfErr result (IsOnlyPast (nodes_among (closed way distance builder.old))) }
{
    let Some(distance) = distance else {
        return Ok(());
    };
    match way {
        Way::Phrase => builder.phrase(near(distance)),
        Way::Conjunction => builder.and(),
    }
}

/// Writes the lexeme after the last group, or into it, and gives the group that is then the last.
fn write_placed(
    builder: &mut QueryBuilder,
    way: Way,
    marks: Marks,
    last: Option<Last>,
    placed: Placed,
) -> Result<Option<Last>, QueryError>
    requires { IsDeep last builder.old }
    ensures last { IfOk result
        (λ l. l ≡ (with_placed way marks.weights marks.prefix last placed builder.old).last) }
    ensures value { OnOk result
        (builder.new ≡ (with_placed way marks.weights marks.prefix last placed builder.old).trees) }
    ensures refused { IfErr result (IsOnlyPast
        (nodes_among (with_placed way marks.weights marks.prefix last placed builder.old).trees)) }
{
    let position = placed.position;
    let prefix = placed.prefix || marks.prefix;
    let Some(last) = last else {
        builder.operand(placed.lexeme, marks.weights, prefix)?;
        return Ok(Some(Last {
            position,
            distance: None,
        }));
    };
    if position == last.position {
        builder.operand(placed.lexeme, marks.weights, prefix)?;
        builder.and()?;
        return Ok(Some(last));
    }
    close(builder, way, last.distance)?;
    builder.operand(placed.lexeme, marks.weights, prefix)?;
    Ok(Some(Last {
        position,
        distance: Some(position.saturating_sub(last.position)),
    }))
}

/// Writes the position groups of placed lexemes, each lexeme with these marks, as one tree; nothing
/// where there are none.
pub fn write_groups(
    builder: &mut QueryBuilder,
    way: Way,
    marks: Marks,
    placed: Vec<Placed>,
) -> Result<(), QueryError>
    ensures value { OnOk result
        (builder.new ≡ joined_from way marks.weights marks.prefix None placed.items builder.old) }
    ensures refused { IfErr result (IsOnlyPast
        (nodes_among (joined_from way marks.weights marks.prefix None placed.items builder.old))) }
{
    let mut last = None;
    for lexeme in placed {
        last = write_placed(builder, way, marks, last, lexeme)?;
    }
    match last {
        Some(last) => close(builder, way, last.distance),
        None => Ok(()),
    }
}

// Vectors that are made of texts.
ghost use Rattle.std.specs.Prelude.{◌≡◌, ◌≤◌, All, map, min, IfOk, IfErr};
ghost use Rattle.ts_base.specs.declared.Weight.TheVariants.{D};
ghost use Rattle.ts_base.specs.Vectors.{IsPosition};
ghost use Rattle.ts_config.specs.Known.{IsWithin};
ghost use Rattle.ts_make.specs.Made.{made_entry, IsMadeVector, MadeVectorFails};

use std::alloc::{AllocError, Global};
use ts_base::{LAST_POSITION, Position, Weight};
use ts_config::{Config, Configs, Placed};
use ts_vector::{TsVector, VectorBuilder, VectorError};

/// The position of a lexeme in a vector: 16383 stands for each above it, and its weight is D.
fn position_of(at: usize) -> Position
    requires { 1 ≤ at }
    ensures at { result.at ≡ min at LAST_POSITION }
    ensures weight { result.weight ≡ D }
    ensures valid { IsPosition result }
{
    if at < LAST_POSITION as usize {
        return Position::new(at as u16, Weight::D);
    }
    Position::new(LAST_POSITION, Weight::D)
}

/// A vector that is built of each lexeme at its position.
fn builder_of(alloc: Global, placed: Vec<Placed>) -> Result<VectorBuilder, AllocError>
    requires { All (λ p. 1 ≤ p.position) placed.items }
    ensures { IfOk result (λ builder. builder ≡ map made_entry placed.items) }
{
    let mut builder = VectorBuilder::new(alloc)?;
    for Placed {
        lexeme,
        position,
        ..
    } in placed {
        builder.push(&lexeme, position_of(position))?;
    }
    Ok(builder)
}

/// The vector that a text is made, or why there is none.
pub type MadeVector = Result<TsVector, VectorError>;

/// The vector that a text is made by a configuration of these: its placed lexemes in normal form,
/// each position with the weight D. The mark of a prefix means nothing here.
///
/// ```
/// let configs = Configs::new(alloc)?;
/// if let Some(simple) = configs.config("simple") {
///     let vector = to_tsvector(alloc, &configs, simple, "The fat cat")?;
///     assert_eq!(rt; vector.to_text(alloc)?.as_str(), "'cat':3 'fat':2 'the':1");
/// }
/// ```
pub fn to_tsvector(alloc: Global, configs: &Configs, config: &Config, text: &str) -> MadeVector
    requires { IsWithin configs.now config.now }
    ensures value { IfOk result (IsMadeVector configs.now config.now text.now) }
    ensures refused { IfErr result (MadeVectorFails configs.now config.now text.now) }
{
    let Ok(placed) = configs.lexize_all(alloc, config, text) else {
        return Err(VectorError::OutOfMemory);
    };
    let Ok(builder) = builder_of(alloc, placed) else {
        return Err(VectorError::OutOfMemory);
    };
    builder.finish(alloc)
}

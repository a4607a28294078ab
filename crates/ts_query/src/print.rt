// The printed form of a query. Its parts are found from the last to the first, since an operator is after its operands.
ghost use Rattle.std.specs.Prelude.{◌≡◌, ◌<◌, ◌≤◌, ◌+◌, ◌↔◌, List, [], ◌∷◌, ◌++◌, IfOk, OnOk, IsTrue, length, reverse};
ghost use Rattle.std.specs.Prelude.{Some};
ghost use Rattle.std.specs.String.{string_bytes};
ghost use Rattle.ts_query.specs.Queries.{Tree, operands_in};
ghost use Rattle.ts_query.specs.Grammar.{level};
ghost use Rattle.ts_query.specs.Printing.{only_if, marks_of, marks_text, operand_text, joint_text, printed_at};
ghost use Rattle.ts_query.specs.Postfix.{nodes_for};
ghost use Rattle.ts_query.specs.Inner.Parsing.{link_joint};
ghost use Rattle.ts_query.specs.Inner.Pieces.{around, link_tasks, expansion, pieces_at, text_of};
ghost use Rattle.ts_query.specs.declared.print.Task.{Task};
ghost use Rattle.ts_query.specs.declared.print.Task.TheVariants.{Part};
ghost use Rattle.ts_query.specs.declared.print.Piece.TheVariants.{Open, Close};

use crate::parser::{Link, level_of};
use crate::query::{Node, Operand};
use std::alloc::{AllocError, Global};
use ts_base::push_quoted;

/// A part of the printed form. The operands come in their order.
#[derive(Clone, Copy)]
pub enum Piece {
    /// The next operand.
    Word,
    /// `!`.
    Bang,
    /// A binary operator.
    Joint(Link),
    /// An opening bracket.
    Open,
    /// A closing bracket.
    Close,
}

/// What is left to print: a tree where one of this level is wanted, or a part.
#[derive(Clone, Copy)]
pub enum Task {
    /// A tree where one of this level is wanted.
    Subtree(u8),
    /// A part.
    Part(Piece),
}

/// Adds the parts of `inner`, in brackets if its level is below the one that is wanted.
fn add_around(tasks: &mut Vec<Task>, own: u8, wanted: u8, inner: &[Task]) -> Result<(), AllocError>
    ensures { OnOk result (tasks.new.items ≡ tasks.old.items ++ around own wanted inner.now) }
{
    if own < wanted {
        tasks.push(Task::Part(Piece::Open))?;
        tasks.extend_from_slice(inner)?;
        tasks.push(Task::Part(Piece::Close))?;
        return Ok(());
    }
    tasks.extend_from_slice(inner)?;
    Ok(())
}

/// Adds the parts of two trees with an operator between them.
fn add_link(tasks: &mut Vec<Task>, link: Link, wanted: u8) -> Result<(), AllocError>
    ensures { OnOk result (tasks.new.items ≡ tasks.old.items ++ link_tasks link wanted) }
{
    let own = level_of(link);
    add_around(
        tasks,
        own,
        wanted,
        &[
            Task::Subtree(own),
            Task::Part(Piece::Joint(link)),
            Task::Subtree(own + 1),
        ],
    )
}

/// Adds what a tree with this root is printed as, from the first part to the last.
fn expand(tasks: &mut Vec<Task>, node: Node, wanted: u8) -> Result<(), AllocError>
    ensures { OnOk result (tasks.new.items ≡ tasks.old.items ++ expansion node wanted) }
{
    match node {
        Node::Leaf(_) => {
            tasks.push(Task::Part(Piece::Word))?;
            Ok(())
        }
        Node::Not => add_around(
            tasks,
            3,
            wanted,
            &[Task::Part(Piece::Bang), Task::Subtree(3)],
        ),
        Node::And => add_link(tasks, Link::And, wanted),
        Node::Or => add_link(tasks, Link::Or, wanted),
        Node::Phrase(distance) => add_link(tasks, Link::Phrase(distance), wanted),
    }
}

/// The parts of the tree with these nodes, from the last to the first.
fn parts_back(alloc: Global, nodes: &[Node]) -> Result<Vec<Piece>, AllocError>
    requires { (t : Tree) × (nodes.now ≡ nodes_for (Some t)) }
    ensures { IfOk result
        (λ v. (t : Tree) → nodes.now ≡ nodes_for (Some t) → reverse v.items ≡ pieces_at t 0) }
{
    let mut pieces = Vec::new(alloc);
    let mut tasks = Vec::new(alloc);
    tasks.push(Task::Subtree(0))?;
    let mut left = nodes.len();
    while let Some(task) = tasks.pop() {
        match task {
            Task::Part(piece) => pieces.push(piece)?,
            Task::Subtree(wanted) => {
                left -= 1;
                expand(&mut tasks, nodes[left], wanted)?;
            }
        }
    }
    Ok(pieces)
}

/// Appends the character, if it is to be there.
fn write_if(out: &mut String, is: bool, c: char) -> Result<(), AllocError>
    requires { c < 128 }
    ensures { OnOk result (string_bytes out.new ≡ string_bytes out.old ++ only_if is c) }
{
    if is {
        out.push(c)?;
        return Ok(());
    }
    Ok(())
}

/// The mark for a prefix and the weights, after `:`.
fn write_marks(out: &mut String, operand: &Operand) -> Result<(), AllocError>
    ensures { OnOk result
        (string_bytes out.new ≡ string_bytes out.old ++ marks_text (marks_of operand.now)) }
{
    let weights = operand.weights;
    if !(operand.prefix || weights.a || weights.b || weights.c || weights.d) {
        return Ok(());
    }
    out.push(':')?;
    write_if(out, operand.prefix, '*')?;
    write_if(out, weights.a, 'A')?;
    write_if(out, weights.b, 'B')?;
    write_if(out, weights.c, 'C')?;
    write_if(out, weights.d, 'D')?;
    Ok(())
}

/// Appends an operand: its lexeme in quotes, then its marks.
fn write_operand(out: &mut String, operand: &Operand) -> Result<(), AllocError>
    ensures { OnOk result
        (string_bytes out.new ≡ string_bytes out.old ++ operand_text operand.now) }
{
    push_quoted(out, operand.lexeme.as_str())?;
    write_marks(out, operand)?;
    Ok(())
}

/// Appends a binary operator between spaces.
fn write_link(out: &mut String, link: Link) -> Result<(), AllocError>
    ensures { OnOk result
        (string_bytes out.new ≡ string_bytes out.old ++ joint_text (link_joint link)) }
{
    match link {
        Link::Or => out.push_str(" | "),
        Link::And => out.push_str(" & "),
        Link::Phrase(1) => out.push_str(" <-> "),
        Link::Phrase(distance) => write!(out, " <{distance}> "),
    }
}

/// The text of parts, with the operands in their order.
fn write_parts(alloc: Global, parts: &[Piece], operands: &[Operand]) -> Result<String, AllocError>
    ensures { IfOk result (λ s. string_bytes s ≡ text_of parts.now operands.now) }
{
    let mut out = String::new(alloc);
    let mut next = 0;
    for part in parts {
        match *part {
            Piece::Word => {
                if next < operands.len() {
                    write_operand(&mut out, &operands[next])?;
                    next += 1;
                }
            }
            Piece::Bang => out.push('!')?,
            Piece::Joint(link) => write_link(&mut out, link)?,
            Piece::Open => out.push_str("( ")?,
            Piece::Close => out.push_str(" )")?,
        }
    }
    Ok(out)
}

/// The printed form of the query with these nodes and operands, which isn't empty.
pub fn print(alloc: Global, nodes: &[Node], operands: &[Operand]) -> Result<String, AllocError>
    requires { (t : Tree) × (nodes.now ≡ nodes_for (Some t)) × (operands.now ≡ operands_in t) }
    ensures { IfOk result
        (λ s. (t : Tree) → nodes.now ≡ nodes_for (Some t) → operands.now ≡ operands_in t
        → string_bytes s ≡ printed_at t 0) }
{
    let mut parts = parts_back(alloc, nodes)?;
    parts.reverse();
    let text = write_parts(alloc, parts.as_slice(), operands)?;
    Ok(text)
}

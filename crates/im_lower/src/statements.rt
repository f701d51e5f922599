ghost use Rattle.std.specs.Prelude.{◌≡◌, IfOk, OnOk, length};
ghost use Rattle.std.specs.Option.{option_map};
ghost use Rattle.im_typed.specs.ProgramOf.{expr_of, program_of, stmt_of};
ghost use Rattle.im_lower_plain.specs.Made.{close};
ghost use Rattle.im_lower_plain.specs.MakeStatement.{make_return, make_statement, test_made};
ghost use Rattle.im_lower.specs.MakeEach.{make_in_order, make_marked, marks_of};

use crate::builder::{Builder, Targets};
use crate::expressions::{Base, lower_test, lower_value};
use crate::initialise::lower_initialiser;
use crate::places::shape_of;
use crate::switch::{kind_in, put_cases};
use im_block::{Exit, Object};
use im_num::NoMemory;
use im_typed::{Expr, Prog, Stmt};

/// Puts the code of a statement. A `break` and a `continue` go on at blocks of these numbers. It
/// recurs as deep as statements are nested.
#[cycle(statements)]
pub(crate) fn lower_statement(
    code: &mut Builder,
    statement: &Stmt,
    breaks: u32,
    continues: u32,
    objects: &[Object],
    prog: &Prog,
    base: Base,
) -> Result<(), NoMemory>
    ensures { OnOk result (code.new ≡ make_statement (program_of prog.now) base.first base.low
        objects.now (stmt_of prog.now.types statement.now) breaks continues code.old) }
{
    match statement {
        Stmt::Expr(value) => lower_value(code, value, prog, base),
        Stmt::Forget(_) => Ok(()),
        Stmt::Initialise { local, pieces, .. } => {
            lower_initialiser(code, *local, pieces, objects, prog, base)
        }
        Stmt::Block(statements) => {
            lower_block(code, statements, breaks, continues, objects, prog, base)
        }
        Stmt::If(test, one, other) => {
            let join = code.close()?;
            lower_statement(code, other, breaks, continues, objects, prog, base)?;
            let fails = code.close()?;
            code.start(Exit::Jump(join))?;
            lower_statement(code, one, breaks, continues, objects, prog, base)?;
            let holds = code.close()?;
            lower_test(
                code,
                test,
                base.low,
                Targets { holds, fails },
                prog,
                base.first,
            )
        }
        Stmt::While(test, body) => {
            let join = code.close()?;
            let edge = lower_loop_test(code, test, join, prog, base)?;
            let check = code.close()?;
            lower_statement(code, body, join, check, objects, prog, base)?;
            let entry = code.close()?;
            code.turn(edge, entry);
            code.start(Exit::Jump(check))
        }
        Stmt::DoWhile(body, test) => {
            let join = code.close()?;
            let edge = lower_loop_test(code, test, join, prog, base)?;
            let check = code.close()?;
            lower_statement(code, body, join, check, objects, prog, base)?;
            let entry = code.close()?;
            code.turn(edge, entry);
            code.start(Exit::Jump(edge))
        }
        Stmt::For {
            first: start,
            test,
            step,
            body,
        } => {
            let join = code.close()?;
            let edge = lower_loop_test(code, test, join, prog, base)?;
            let check = code.close()?;
            lower_value(code, step, prog, base)?;
            let next = code.close()?;
            lower_statement(code, body, join, next, objects, prog, base)?;
            let entry = code.close()?;
            code.turn(edge, entry);
            code.start(Exit::Jump(check))?;
            lower_statement(code, start, breaks, continues, objects, prog, base)
        }
        Stmt::Switch {
            value,
            cases,
            otherwise,
            block,
        } => {
            let join = code.close()?;
            let labels = lower_marked(code, block, join, continues, objects, prog, base)?;
            let kind = kind_in(shape_of(value, prog));
            put_cases(code, base.low, kind, cases, *otherwise, &labels)?;
            lower_value(code, value, prog, base)
        }
        Stmt::Break => code.start(Exit::Jump(breaks)),
        Stmt::Continue => code.start(Exit::Jump(continues)),
        Stmt::Return(value) => lower_return(code, value, prog, base),
    }
}

/// Puts the code of statements in order.
#[cycle(statements)]
fn lower_block(
    code: &mut Builder,
    statements: &[Stmt],
    breaks: u32,
    continues: u32,
    objects: &[Object],
    prog: &Prog,
    base: Base,
) -> Result<(), NoMemory>
    ensures { OnOk result (code.new ≡ make_in_order (program_of prog.now) base.first prog.now.types
        base.low objects.now breaks continues statements.now code.old) }
{
    for index in (0..statements.len()).rev() {
        lower_statement(
            code,
            &statements[index],
            breaks,
            continues,
            objects,
            prog,
            base,
        )?;
    }
    Ok(())
}

/// Puts the code of statements in order, each of which begins a block, and so does what is behind
/// them. Gives the numbers of these blocks.
#[cycle(statements)]
fn lower_marked(
    code: &mut Builder,
    statements: &[Stmt],
    breaks: u32,
    continues: u32,
    objects: &[Object],
    prog: &Prog,
    base: Base,
) -> Result<Vec<u32>, NoMemory>
    ensures marked { OnOk result (code.new ≡ close
        (make_marked (program_of prog.now) base.first prog.now.types base.low objects.now breaks
        continues statements.now code.old)) }
    ensures marks { IfOk result (λ marks. marks.items
        ≡ marks_of (program_of prog.now) base.first prog.now.types base.low objects.now breaks
        continues statements.now code.old) }
{
    let mut marks = Vec::new(code.alloc());
    marks.push(code.close()?)?;
    for index in (0..statements.len()).rev() {
        lower_statement(
            code,
            &statements[index],
            breaks,
            continues,
            objects,
            prog,
            base,
        )?;
        marks.push(code.close()?)?;
    }
    marks.reverse();
    Ok(marks)
}

/// Puts a loop's test, which goes to the loop edge or behind the loop. Gives the number of the
/// loop edge's block, whose target is to be set.
fn lower_loop_test(
    code: &mut Builder,
    test: &Expr,
    join: u32,
    prog: &Prog,
    base: Base,
) -> Result<u32, NoMemory>
    ensures made { OnOk result (code.new ≡ test_made (program_of prog.now) base.first base.low
        (expr_of prog.now.types test.now) join code.old) }
    ensures edge { IfOk result (λ edge. edge ≡ length code.old.blocks) }
{
    code.start(Exit::Turn(0))?;
    let edge = code.close()?;
    let targets = Targets {
        holds: edge,
        fails: join,
    };
    lower_test(code, test, base.low, targets, prog, base.first)?;
    Ok(edge)
}

fn lower_return(
    code: &mut Builder,
    value: &Option<Expr>,
    prog: &Prog,
    base: Base,
) -> Result<(), NoMemory>
    ensures { OnOk result (code.new ≡ make_return (program_of prog.now) base.first base.low
        (option_map (expr_of prog.now.types) value.now) code.old) }
{
    match value {
        None => code.start(Exit::Return(None)),
        Some(value) => {
            code.start(Exit::Return(Some(base.low)))?;
            lower_value(code, value, prog, base)
        }
    }
}

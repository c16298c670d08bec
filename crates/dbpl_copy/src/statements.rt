//! Copies of statements.
ghost use Rattle.std.specs.Prelude.{◌≡◌, IfOk};

use crate::expressions::{
    copy_boxed_arguments, copy_boxed_expr, copy_boxed_range, copy_designator, copy_expr,
    copy_optional_expr,
};
use crate::names::copy_ident;
use crate::pair::{boxed, pair};
use dbpl_base::{Boxed, List, Memory, Place};
use dbpl_tree::{
    BoxedArguments, BoxedExpr, BoxedRange, Case, ChangeOperator, Designator, Elsif, Ident, Label,
    Statement, Statements,
};
use std::alloc::Global;

#[cycle(copy_statements)]
fn copy_statement(alloc: Global, s: &Statement) -> Result<Statement, Memory>
    ensures { IfOk result (λ copied. copied ≡ s.now) }
{
    match s {
        Statement::Empty(place) => Ok(Statement::Empty(*place)),
        Statement::Change(target, place, operator, e) => copy_change(
            alloc, target, *place, *operator, e,
        ),
        Statement::Call(d, a) => copy_call(alloc, d, a),
        Statement::If(place, e, body, elsifs, otherwise) => {
            let (((e, body), elsifs), otherwise) = pair(
                pair(
                    pair(copy_boxed_expr(alloc, e)?, copy_body(alloc, body))?,
                    copy_elsifs(alloc, elsifs),
                )?,
                copy_otherwise(alloc, otherwise),
            )?;
            Ok(Statement::If(*place, e, body, elsifs, otherwise))
        }
        Statement::Case(place, e, first, others, otherwise) => {
            let (((e, first), others), otherwise) = pair(
                pair(
                    pair(
                        copy_boxed_expr(alloc, e)?,
                        boxed(alloc, copy_case(alloc, first.get())),
                    )?,
                    copy_cases(alloc, others),
                )?,
                copy_otherwise(alloc, otherwise),
            )?;
            Ok(Statement::Case(*place, e, first, others, otherwise))
        }
        Statement::While(place, e, body) => copy_while(alloc, body, *place, e),
        Statement::Repeat(place, body, e) => copy_repeat(alloc, body, *place, e),
        Statement::Loop(place, body) => Ok(Statement::Loop(*place, copy_body(alloc, body)?)),
        Statement::Exit(place) => Ok(Statement::Exit(*place)),
        Statement::Return(place, e) => Ok(Statement::Return(*place, copy_optional_expr(alloc, e)?)),
        Statement::For(place, x, first, last, step, body) => copy_for(
            alloc,
            body.get(),
            *place,
            x,
            first,
            last,
            step,
        ),
        Statement::ForEach(place, each, x, r, e, body) => copy_for_each(
            alloc,
            body.get(),
            *place,
            *each,
            x,
            r,
            e,
        ),
    }
}

fn copy_change(
    alloc: Global,
    target: &Designator,
    place: Place,
    operator: ChangeOperator,
    e: &BoxedExpr,
) -> Result<Statement, Memory>
    ensures { IfOk result (λ copied. copied ≡ Statement.Change target.now place operator e.now) }
{
    let (target, e) = pair(copy_designator(alloc, target)?, copy_boxed_expr(alloc, e))?;
    Ok(Statement::Change(target, place, operator, e))
}

fn copy_call(alloc: Global, d: &Designator, a: &Option<BoxedArguments>) -> Result<Statement, Memory>
    ensures { IfOk result (λ copied. copied ≡ Statement.Call d.now a.now) }
{
    let (d, a) = pair(copy_designator(alloc, d)?, copy_boxed_arguments(alloc, a))?;
    Ok(Statement::Call(d, a))
}

#[cycle(copy_statements)]
fn copy_while(
    alloc: Global,
    body: &Statements,
    place: Place,
    e: &BoxedExpr,
) -> Result<Statement, Memory>
    ensures { IfOk result (λ copied. copied ≡ Statement.While place e.now body.now) }
{
    let (e, body) = pair(copy_boxed_expr(alloc, e)?, copy_body(alloc, body))?;
    Ok(Statement::While(place, e, body))
}

#[cycle(copy_statements)]
fn copy_repeat(
    alloc: Global,
    body: &Statements,
    place: Place,
    e: &BoxedExpr,
) -> Result<Statement, Memory>
    ensures { IfOk result (λ copied. copied ≡ Statement.Repeat place body.now e.now) }
{
    let (body, e) = pair(copy_body(alloc, body)?, copy_boxed_expr(alloc, e))?;
    Ok(Statement::Repeat(place, body, e))
}

/// From where to where FOR goes, and by which steps.
fn copy_steps(
    alloc: Global,
    first: &BoxedExpr,
    last: &BoxedExpr,
    step: &Option<BoxedExpr>,
) -> Result<((BoxedExpr, BoxedExpr), Option<BoxedExpr>), Memory>
    ensures { IfOk result (λ copied. copied ≡ ((first.now, last.now), step.now)) }
{
    pair(
        pair(copy_boxed_expr(alloc, first)?, copy_boxed_expr(alloc, last))?,
        copy_optional_expr(alloc, step),
    )
}

#[cycle(copy_statements)]
fn copy_for(
    alloc: Global,
    body: &Statements,
    place: Place,
    x: &Ident,
    first: &BoxedExpr,
    last: &BoxedExpr,
    step: &Option<BoxedExpr>,
) -> Result<Statement, Memory>
    ensures { IfOk result (λ copied. copied ≡ Statement.For place x.now first.now last.now step.now body.now) }
{
    let ((x, ((first, last), step)), body) = pair(
        pair(copy_ident(alloc, x)?, copy_steps(alloc, first, last, step))?,
        boxed(alloc, copy_body(alloc, body)),
    )?;
    Ok(Statement::For(place, x, first, last, step, body))
}

#[cycle(copy_statements)]
fn copy_for_each(
    alloc: Global,
    body: &Statements,
    place: Place,
    each: Place,
    x: &Ident,
    r: &BoxedRange,
    e: &BoxedExpr,
) -> Result<Statement, Memory>
    ensures { IfOk result (λ copied. copied ≡ Statement.ForEach place each x.now r.now e.now body.now) }
{
    let (((x, r), e), body) = pair(
        pair(
            pair(copy_ident(alloc, x)?, copy_boxed_range(alloc, r))?,
            copy_boxed_expr(alloc, e),
        )?,
        boxed(alloc, copy_body(alloc, body)),
    )?;
    Ok(Statement::ForEach(place, each, x, r, e, body))
}

#[cycle(copy_statements)]
fn copy_list(alloc: Global, others: &List<Statement>) -> Result<List<Statement>, Memory>
    ensures { IfOk result (λ copied. copied ≡ others.now) }
{
    let mut copied = List::new(alloc);
    for s in others.as_slice() {
        copied.push(copy_statement(alloc, s)?)?;
    }
    Ok(copied)
}

#[cycle(copy_statements)]
fn copy_body(alloc: Global, body: &Statements) -> Result<Statements, Memory>
    ensures { IfOk result (λ copied. copied ≡ body.now) }
{
    let (first, others) = pair(
        boxed(alloc, copy_statement(alloc, body.first.get()))?,
        copy_list(alloc, &body.others),
    )?;
    Ok(Statements { first, others })
}

pub fn copy_optional_body(
    alloc: Global,
    body: &Option<Statements>,
) -> Result<Option<Statements>, Memory>
    ensures { IfOk result (λ copied. copied ≡ body.now) }
{
    match body {
        Some(one) => Ok(Some(copy_body(alloc, one)?)),
        None => Ok(None),
    }
}

/// The branch ELSE.
#[cycle(copy_statements)]
fn copy_otherwise(
    alloc: Global,
    body: &Option<Boxed<Statements>>,
) -> Result<Option<Boxed<Statements>>, Memory>
    ensures { IfOk result (λ copied. copied ≡ body.now) }
{
    match body {
        Some(one) => Ok(Some(boxed(alloc, copy_body(alloc, one.get()))?)),
        None => Ok(None),
    }
}

#[cycle(copy_statements)]
fn copy_elsif(alloc: Global, elsif: &Elsif) -> Result<Elsif, Memory>
    ensures { IfOk result (λ copied. copied ≡ elsif.now) }
{
    let (condition, body) = pair(
        copy_expr(alloc, &elsif.condition)?,
        copy_body(alloc, &elsif.body),
    )?;
    Ok(Elsif { condition, body })
}

#[cycle(copy_statements)]
fn copy_elsifs(alloc: Global, elsifs: &List<Elsif>) -> Result<List<Elsif>, Memory>
    ensures { IfOk result (λ copied. copied ≡ elsifs.now) }
{
    let mut copied = List::new(alloc);
    for elsif in elsifs.as_slice() {
        copied.push(copy_elsif(alloc, elsif)?)?;
    }
    Ok(copied)
}

#[cycle(copy_statements)]
fn copy_case(alloc: Global, case: &Case) -> Result<Case, Memory>
    ensures { IfOk result (λ copied. copied ≡ case.now) }
{
    match case {
        Case::Empty(place) => Ok(Case::Empty(*place)),
        Case::Labelled(first, others, body) => {
            let ((first, others), body) = pair(
                pair(copy_label(alloc, first)?, copy_labels(alloc, others))?,
                copy_body(alloc, body),
            )?;
            Ok(Case::Labelled(first, others, body))
        }
    }
}

#[cycle(copy_statements)]
fn copy_cases(alloc: Global, others: &List<Case>) -> Result<List<Case>, Memory>
    ensures { IfOk result (λ copied. copied ≡ others.now) }
{
    let mut copied = List::new(alloc);
    for other in others.as_slice() {
        copied.push(copy_case(alloc, other)?)?;
    }
    Ok(copied)
}

fn copy_label(alloc: Global, label: &Label) -> Result<Label, Memory>
    ensures { IfOk result (λ copied. copied ≡ label.now) }
{
    let (low, high) = pair(
        copy_boxed_expr(alloc, &label.low)?,
        copy_optional_expr(alloc, &label.high),
    )?;
    Ok(Label { low, high })
}

fn copy_labels(alloc: Global, others: &List<Label>) -> Result<List<Label>, Memory>
    ensures { IfOk result (λ copied. copied ≡ others.now) }
{
    let mut copied = List::new(alloc);
    for other in others.as_slice() {
        copied.push(copy_label(alloc, other)?)?;
    }
    Ok(copied)
}

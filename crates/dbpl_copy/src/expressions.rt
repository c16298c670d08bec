//! Copies of expressions, factors, aggregates, elements and ranges, which stand inside one another.
ghost use Rattle.std.specs.Prelude.{◌≡◌, IfOk};

use crate::names::{copy_ident, copy_qual};
use crate::pair::{boxed, pair};
use dbpl_base::{Boxed, List, Memory};
use dbpl_tree::{
    Added, Aggregate, Arguments, BoxedArguments, BoxedExpr, BoxedRange, Compared, Designator, Each,
    Element, Expr, Exprs, Factor, Multiplied, Part, Range, Simple, Term,
};
use std::alloc::Global;

#[cycle(copy_phrases)]
fn copy_factor(alloc: Global, f: &Factor) -> Result<Factor, Memory>
    ensures { IfOk result (λ copied. copied ≡ f.now) }
{
    match f {
        Factor::Number(place, n) => Ok(Factor::Number(*place, *n)),
        Factor::CharCode(place, n) => Ok(Factor::CharCode(*place, *n)),
        Factor::Text(place, text) => Ok(Factor::Text(*place, text.copy(alloc)?)),
        Factor::Aggregate(a) => Ok(Factor::Aggregate(boxed(
            alloc,
            copy_aggregate(alloc, a.get()),
        )?)),
        Factor::Designator(d, a) => {
            let (d, a) = pair(
                copy_designator(alloc, d)?,
                copy_optional_arguments(alloc, a),
            )?;
            Ok(Factor::Designator(d, a))
        }
        Factor::Parenthesized(place, e) => {
            Ok(Factor::Parenthesized(*place, boxed(alloc, copy_expr(alloc, e.get()))?))
        }
        Factor::Not(place, operator, g) => Ok(Factor::Not(
            *place,
            *operator,
            boxed(alloc, copy_factor(alloc, g.get()))?,
        )),
        Factor::Quantified(place, quantifier, x, r, e) => {
            let ((x, r), e) = pair(
                pair(
                    copy_ident(alloc, x)?,
                    boxed(alloc, copy_range(alloc, r.get())),
                )?,
                boxed(alloc, copy_expr(alloc, e.get())),
            )?;
            Ok(Factor::Quantified(*place, *quantifier, x, r, e))
        }
    }
}

#[cycle(copy_phrases)]
fn copy_multiplied(alloc: Global, others: &List<Multiplied>) -> Result<List<Multiplied>, Memory>
    ensures { IfOk result (λ copied. copied ≡ others.now) }
{
    let mut copied = List::new(alloc);
    for m in others.as_slice() {
        copied.push(Multiplied {
            place: m.place,
            operator: m.operator,
            factor: copy_factor(alloc, &m.factor)?,
        })?;
    }
    Ok(copied)
}

#[cycle(copy_phrases)]
fn copy_term(alloc: Global, t: &Term) -> Result<Term, Memory>
    ensures { IfOk result (λ copied. copied ≡ t.now) }
{
    let (first, others) = pair(
        copy_factor(alloc, &t.first)?,
        copy_multiplied(alloc, &t.others),
    )?;
    Ok(Term {
        place: t.place,
        first,
        others,
    })
}

#[cycle(copy_phrases)]
fn copy_added(alloc: Global, others: &List<Added>) -> Result<List<Added>, Memory>
    ensures { IfOk result (λ copied. copied ≡ others.now) }
{
    let mut copied = List::new(alloc);
    for a in others.as_slice() {
        copied.push(Added {
            place: a.place,
            operator: a.operator,
            term: copy_term(alloc, &a.term)?,
        })?;
    }
    Ok(copied)
}

#[cycle(copy_phrases)]
fn copy_simple(alloc: Global, s: &Simple) -> Result<Simple, Memory>
    ensures { IfOk result (λ copied. copied ≡ s.now) }
{
    let (first, others) = pair(copy_term(alloc, &s.first)?, copy_added(alloc, &s.others))?;
    Ok(Simple {
        place: s.place,
        sign: s.sign,
        first,
        others,
    })
}

#[cycle(copy_phrases)]
fn copy_compared(
    alloc: Global,
    c: &Option<Boxed<Compared>>,
) -> Result<Option<Boxed<Compared>>, Memory>
    ensures { IfOk result (λ copied. copied ≡ c.now) }
{
    match c {
        Some(c) => {
            let c = c.get();
            let right = copy_simple(alloc, &c.right)?;
            Ok(Some(Boxed::new(
                alloc,
                Compared {
                    place: c.place,
                    relation: c.relation,
                    right,
                },
            )?))
        }
        None => Ok(None),
    }
}

#[cycle(copy_phrases)]
pub fn copy_expr(alloc: Global, e: &Expr) -> Result<Expr, Memory>
    ensures { IfOk result (λ copied. copied ≡ e.now) }
{
    let (left, right) = pair(copy_simple(alloc, &e.left)?, copy_compared(alloc, &e.right))?;
    Ok(Expr {
        place: e.place,
        left,
        right,
    })
}

#[cycle(copy_phrases)]
fn copy_expr_list(alloc: Global, others: &List<Expr>) -> Result<List<Expr>, Memory>
    ensures { IfOk result (λ copied. copied ≡ others.now) }
{
    let mut copied = List::new(alloc);
    for e in others.as_slice() {
        copied.push(copy_expr(alloc, e)?)?;
    }
    Ok(copied)
}

#[cycle(copy_phrases)]
fn copy_exprs(alloc: Global, es: &Exprs) -> Result<Exprs, Memory>
    ensures { IfOk result (λ copied. copied ≡ es.now) }
{
    let (first, others) = pair(
        boxed(alloc, copy_expr(alloc, es.first.get()))?,
        copy_expr_list(alloc, &es.others),
    )?;
    Ok(Exprs { first, others })
}

#[cycle(copy_phrases)]
fn copy_part(alloc: Global, p: &Part) -> Result<Part, Memory>
    ensures { IfOk result (λ copied. copied ≡ p.now) }
{
    match p {
        Part::Field(x) => Ok(Part::Field(copy_ident(alloc, x)?)),
        Part::Subscripts(place, es) => Ok(Part::Subscripts(*place, copy_exprs(alloc, es)?)),
    }
}

#[cycle(copy_phrases)]
fn copy_parts(alloc: Global, parts: &List<Part>) -> Result<List<Part>, Memory>
    ensures { IfOk result (λ copied. copied ≡ parts.now) }
{
    let mut copied = List::new(alloc);
    for part in parts.as_slice() {
        copied.push(copy_part(alloc, part)?)?;
    }
    Ok(copied)
}

#[cycle(copy_phrases)]
pub fn copy_designator(alloc: Global, d: &Designator) -> Result<Designator, Memory>
    ensures { IfOk result (λ copied. copied ≡ d.now) }
{
    let (head, parts) = pair(copy_ident(alloc, &d.head)?, copy_parts(alloc, &d.parts))?;
    Ok(Designator { head, parts })
}

#[cycle(copy_phrases)]
fn copy_arguments(alloc: Global, a: &Arguments) -> Result<Arguments, Memory>
    ensures { IfOk result (λ copied. copied ≡ a.now) }
{
    match a {
        Arguments {
            place,
            exprs: Some(es),
        } => Ok(Arguments {
            place: *place,
            exprs: Some(copy_exprs(alloc, es)?),
        }),
        Arguments { place, exprs: None } => Ok(Arguments {
            place: *place,
            exprs: None,
        }),
    }
}

#[cycle(copy_phrases)]
fn copy_optional_arguments(
    alloc: Global,
    a: &Option<Boxed<Arguments>>,
) -> Result<Option<Boxed<Arguments>>, Memory>
    ensures { IfOk result (λ copied. copied ≡ a.now) }
{
    match a {
        Some(one) => Ok(Some(boxed(alloc, copy_arguments(alloc, one.get()))?)),
        None => Ok(None),
    }
}

#[cycle(copy_phrases)]
pub fn copy_aggregate(alloc: Global, a: &Aggregate) -> Result<Aggregate, Memory>
    ensures { IfOk result (λ copied. copied ≡ a.now) }
{
    let (kind, elements) = pair(
        copy_qual(alloc, &a.kind)?,
        copy_elements(alloc, &a.elements),
    )?;
    Ok(Aggregate { kind, elements })
}

#[cycle(copy_phrases)]
fn copy_elements(alloc: Global, elements: &List<Element>) -> Result<List<Element>, Memory>
    ensures { IfOk result (λ copied. copied ≡ elements.now) }
{
    let mut copied = List::new(alloc);
    for element in elements.as_slice() {
        copied.push(copy_element(alloc, element)?)?;
    }
    Ok(copied)
}

#[cycle(copy_phrases)]
fn copy_element(alloc: Global, element: &Element) -> Result<Element, Memory>
    ensures { IfOk result (λ copied. copied ≡ element.now) }
{
    match element {
        Element::Each(c, e) => {
            let (c, e) = pair(
                copy_each(alloc, c)?,
                boxed(alloc, copy_expr(alloc, e.get())),
            )?;
            Ok(Element::Each(c, e))
        }
        Element::Plain(e) => Ok(Element::Plain(copy_expr(alloc, e)?)),
        Element::Of(target, c, cs, e) => {
            let (((target, c), cs), e) = pair(
                pair(
                    pair(
                        boxed(alloc, copy_expr(alloc, target.get()))?,
                        copy_each(alloc, c),
                    )?,
                    copy_eachs(alloc, cs),
                )?,
                boxed(alloc, copy_expr(alloc, e.get())),
            )?;
            Ok(Element::Of(target, c, cs, e))
        }
    }
}

#[cycle(copy_phrases)]
fn copy_each(alloc: Global, c: &Each) -> Result<Each, Memory>
    ensures { IfOk result (λ copied. copied ≡ c.now) }
{
    let (variable, range) = pair(copy_ident(alloc, &c.variable)?, copy_range(alloc, &c.range))?;
    Ok(Each {
        place: c.place,
        variable,
        range,
    })
}

#[cycle(copy_phrases)]
fn copy_eachs(alloc: Global, cs: &List<Each>) -> Result<List<Each>, Memory>
    ensures { IfOk result (λ copied. copied ≡ cs.now) }
{
    let mut copied = List::new(alloc);
    for c in cs.as_slice() {
        copied.push(copy_each(alloc, c)?)?;
    }
    Ok(copied)
}

#[cycle(copy_phrases)]
fn copy_range(alloc: Global, r: &Range) -> Result<Range, Memory>
    ensures { IfOk result (λ copied. copied ≡ r.now) }
{
    match r {
        Range::Designator(d) => Ok(Range::Designator(copy_designator(alloc, d)?)),
        Range::Aggregate(a) => Ok(Range::Aggregate(boxed(alloc, copy_aggregate(alloc, a.get()))?)),
    }
}

pub fn copy_boxed_expr(alloc: Global, e: &BoxedExpr) -> Result<BoxedExpr, Memory>
    ensures { IfOk result (λ copied. copied ≡ e.now) }
{
    BoxedExpr::new(alloc, copy_expr(alloc, e.get())?)
}

pub fn copy_optional_expr(alloc: Global, e: &Option<BoxedExpr>) -> Result<Option<BoxedExpr>, Memory>
    ensures { IfOk result (λ copied. copied ≡ e.now) }
{
    match e {
        Some(one) => Ok(Some(copy_boxed_expr(alloc, one)?)),
        None => Ok(None),
    }
}

pub fn copy_boxed_range(alloc: Global, r: &BoxedRange) -> Result<BoxedRange, Memory>
    ensures { IfOk result (λ copied. copied ≡ r.now) }
{
    BoxedRange::new(alloc, copy_range(alloc, r.get())?)
}

pub fn copy_boxed_arguments(
    alloc: Global,
    a: &Option<BoxedArguments>,
) -> Result<Option<BoxedArguments>, Memory>
    ensures { IfOk result (λ copied. copied ≡ a.now) }
{
    match a {
        Some(one) => Ok(Some(BoxedArguments::new(alloc, copy_arguments(alloc, one.get())?)?)),
        None => Ok(None),
    }
}

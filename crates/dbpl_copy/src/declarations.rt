//! Copies of headings and declarations.
ghost use Rattle.std.specs.Prelude.{◌≡◌, IfOk};

use crate::expressions::{copy_aggregate, copy_boxed_expr, copy_expr};
use crate::names::{copy_ident, copy_idents, copy_optional_qual, copy_qual};
use crate::pair::{boxed, pair};
use crate::statements::copy_optional_body;
use crate::types::copy_type;
use dbpl_base::{List, Memory};
use dbpl_tree::{
    BoxedExpr, Common, ConstDecl, Decl, DefinitionItem, Heading, Ident, Params, PlainDecl, Qual,
    Routine, Section, Signature, TypeDecl, VarDecl,
};
use std::alloc::Global;

fn copy_section(alloc: Global, s: &Section) -> Result<Section, Memory>
    ensures { IfOk result (λ copied. copied ≡ s.now) }
{
    let (names, kind) = pair(copy_idents(alloc, &s.names)?, copy_qual(alloc, &s.kind))?;
    Ok(Section {
        place: s.place,
        by_reference: s.by_reference,
        names,
        kind,
    })
}

fn copy_params(alloc: Global, params: &Params) -> Result<Params, Memory>
    ensures { IfOk result (λ copied. copied ≡ params.now) }
{
    let mut sections = List::new(alloc);
    for section in params.sections.as_slice() {
        sections.push(copy_section(alloc, section)?)?;
    }
    Ok(Params {
        place: params.place,
        sections,
    })
}

fn copy_optional_params(alloc: Global, params: &Option<Params>) -> Result<Option<Params>, Memory>
    ensures { IfOk result (λ copied. copied ≡ params.now) }
{
    match params {
        Some(one) => Ok(Some(copy_params(alloc, one)?)),
        None => Ok(None),
    }
}

fn copy_signature(alloc: Global, s: &Option<Signature>) -> Result<Option<Signature>, Memory>
    ensures { IfOk result (λ copied. copied ≡ s.now) }
{
    match s {
        Some(one) => {
            let (params, result) = pair(
                copy_params(alloc, &one.params)?,
                copy_optional_qual(alloc, &one.result),
            )?;
            Ok(Some(Signature { params, result }))
        }
        None => Ok(None),
    }
}

fn copy_heading(alloc: Global, h: &Heading) -> Result<Heading, Memory>
    ensures { IfOk result (λ copied. copied ≡ h.now) }
{
    let (name, signature) = pair(
        copy_ident(alloc, &h.name)?,
        copy_signature(alloc, &h.signature),
    )?;
    Ok(Heading {
        place: h.place,
        word: h.word,
        name,
        signature,
    })
}

fn copy_const(alloc: Global, d: &ConstDecl) -> Result<ConstDecl, Memory>
    ensures { IfOk result (λ copied. copied ≡ d.now) }
{
    let (name, value) = pair(copy_ident(alloc, &d.name)?, copy_expr(alloc, &d.value))?;
    Ok(ConstDecl { name, value })
}

fn copy_consts(alloc: Global, ds: &List<ConstDecl>) -> Result<List<ConstDecl>, Memory>
    ensures { IfOk result (λ copied. copied ≡ ds.now) }
{
    let mut copied = List::new(alloc);
    for d in ds.as_slice() {
        copied.push(copy_const(alloc, d)?)?;
    }
    Ok(copied)
}

fn copy_type_decl(alloc: Global, d: &TypeDecl) -> Result<TypeDecl, Memory>
    ensures { IfOk result (λ copied. copied ≡ d.now) }
{
    let (name, kind) = pair(copy_ident(alloc, &d.name)?, copy_type(alloc, &d.kind))?;
    Ok(TypeDecl { name, kind })
}

fn copy_type_decls(alloc: Global, ds: &List<TypeDecl>) -> Result<List<TypeDecl>, Memory>
    ensures { IfOk result (λ copied. copied ≡ ds.now) }
{
    let mut copied = List::new(alloc);
    for d in ds.as_slice() {
        copied.push(copy_type_decl(alloc, d)?)?;
    }
    Ok(copied)
}

fn copy_var(alloc: Global, d: &VarDecl) -> Result<VarDecl, Memory>
    ensures { IfOk result (λ copied. copied ≡ d.now) }
{
    let (names, kind) = pair(copy_idents(alloc, &d.names)?, copy_type(alloc, &d.kind))?;
    Ok(VarDecl { names, kind })
}

fn copy_vars(alloc: Global, ds: &List<VarDecl>) -> Result<List<VarDecl>, Memory>
    ensures { IfOk result (λ copied. copied ≡ ds.now) }
{
    let mut copied = List::new(alloc);
    for d in ds.as_slice() {
        copied.push(copy_var(alloc, d)?)?;
    }
    Ok(copied)
}

fn copy_plain(alloc: Global, d: &PlainDecl) -> Result<PlainDecl, Memory>
    ensures { IfOk result (λ copied. copied ≡ d.now) }
{
    match d {
        PlainDecl::Const(place, ds) => Ok(PlainDecl::Const(*place, copy_consts(alloc, ds)?)),
        PlainDecl::Type(place, ds) => Ok(PlainDecl::Type(*place, copy_type_decls(alloc, ds)?)),
        PlainDecl::Var(place, ds) => Ok(PlainDecl::Var(*place, copy_vars(alloc, ds)?)),
    }
}

/// A name, and the parameters behind it.
fn copy_named(
    alloc: Global,
    name: &Ident,
    params: &Option<Params>,
) -> Result<(Ident, Option<Params>), Memory>
    ensures { IfOk result (λ copied. copied ≡ (name.now, params.now)) }
{
    pair(
        copy_ident(alloc, name)?,
        copy_optional_params(alloc, params),
    )
}

/// The variable of a selector, the type of what it ranges over, and the predicate.
fn copy_selected(
    alloc: Global,
    x: &Ident,
    q: &Qual,
    e: &BoxedExpr,
) -> Result<((Ident, Qual), BoxedExpr), Memory>
    ensures { IfOk result (λ copied. copied ≡ ((x.now, q.now), e.now)) }
{
    pair(
        pair(copy_ident(alloc, x)?, copy_qual(alloc, q))?,
        copy_boxed_expr(alloc, e),
    )
}

fn copy_common(alloc: Global, d: &Common) -> Result<Common, Memory>
    ensures { IfOk result (λ copied. copied ≡ d.now) }
{
    match d {
        Common::Plain(p) => Ok(Common::Plain(copy_plain(alloc, p)?)),
        Common::Selector(place, name, params, x, q, e) => {
            let ((name, params), ((x, q), e)) = pair(
                copy_named(alloc, name, params)?,
                copy_selected(alloc, x, q, e),
            )?;
            Ok(Common::Selector(*place, name, params, x, q, e))
        }
        Common::Constructor(place, name, params, a) => {
            let ((name, params), a) = pair(
                copy_named(alloc, name, params)?,
                copy_aggregate(alloc, a),
            )?;
            Ok(Common::Constructor(*place, name, params, a))
        }
    }
}

pub fn copy_commons(alloc: Global, ds: &List<Common>) -> Result<List<Common>, Memory>
    ensures { IfOk result (λ copied. copied ≡ ds.now) }
{
    let mut copied = List::new(alloc);
    for d in ds.as_slice() {
        copied.push(copy_common(alloc, d)?)?;
    }
    Ok(copied)
}

fn copy_plains(alloc: Global, ds: &List<PlainDecl>) -> Result<List<PlainDecl>, Memory>
    ensures { IfOk result (λ copied. copied ≡ ds.now) }
{
    let mut copied = List::new(alloc);
    for d in ds.as_slice() {
        copied.push(copy_plain(alloc, d)?)?;
    }
    Ok(copied)
}

fn copy_routine(alloc: Global, r: &Routine) -> Result<Routine, Memory>
    ensures { IfOk result (λ copied. copied ≡ r.now) }
{
    let (((heading, declarations), body), end_name) = pair(
        pair(
            pair(
                copy_heading(alloc, &r.heading)?,
                copy_plains(alloc, &r.declarations),
            )?,
            copy_optional_body(alloc, &r.body),
        )?,
        copy_ident(alloc, &r.end_name),
    )?;
    Ok(Routine {
        heading,
        declarations,
        body,
        end: r.end,
        end_name,
    })
}

fn copy_decl(alloc: Global, d: &Decl) -> Result<Decl, Memory>
    ensures { IfOk result (λ copied. copied ≡ d.now) }
{
    match d {
        Decl::Common(c) => Ok(Decl::Common(copy_common(alloc, c)?)),
        Decl::Routine(r) => Ok(Decl::Routine(boxed(alloc, copy_routine(alloc, r.get()))?)),
    }
}

pub fn copy_decls(alloc: Global, ds: &List<Decl>) -> Result<List<Decl>, Memory>
    ensures { IfOk result (λ copied. copied ≡ ds.now) }
{
    let mut copied = List::new(alloc);
    for d in ds.as_slice() {
        copied.push(copy_decl(alloc, d)?)?;
    }
    Ok(copied)
}

fn copy_item(alloc: Global, d: &DefinitionItem) -> Result<DefinitionItem, Memory>
    ensures { IfOk result (λ copied. copied ≡ d.now) }
{
    match d {
        DefinitionItem::Common(c) => Ok(DefinitionItem::Common(copy_common(alloc, c)?)),
        DefinitionItem::Heading(h) => Ok(DefinitionItem::Heading(copy_heading(alloc, h)?)),
    }
}

pub fn copy_items(alloc: Global, ds: &List<DefinitionItem>) -> Result<List<DefinitionItem>, Memory>
    ensures { IfOk result (λ copied. copied ≡ ds.now) }
{
    let mut copied = List::new(alloc);
    for d in ds.as_slice() {
        copied.push(copy_item(alloc, d)?)?;
    }
    Ok(copied)
}

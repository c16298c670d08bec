//! Copies of modules.
ghost use Rattle.std.specs.Prelude.{◌≡◌, IfOk};

use crate::declarations::{copy_commons, copy_decls, copy_items};
use crate::names::{copy_ident, copy_idents};
use crate::pair::pair;
use crate::statements::copy_optional_body;
use dbpl_base::{List, Memory};
use dbpl_tree::{DataUnit, Decl, DefinitionUnit, Ident, Import, Program, Statements, Unit};
use std::alloc::Global;

fn copy_import(alloc: Global, i: &Import) -> Result<Import, Memory>
    ensures { IfOk result (λ copied. copied ≡ i.now) }
{
    match i {
        Import::Whole(place, names) => Ok(Import::Whole(*place, copy_idents(alloc, names)?)),
        Import::From(place, name, names) => {
            let (name, names) = pair(copy_ident(alloc, name)?, copy_idents(alloc, names))?;
            Ok(Import::From(*place, name, names))
        }
    }
}

fn copy_imports(alloc: Global, imports: &List<Import>) -> Result<List<Import>, Memory>
    ensures { IfOk result (λ copied. copied ≡ imports.now) }
{
    let mut copied = List::new(alloc);
    for import in imports.as_slice() {
        copied.push(copy_import(alloc, import)?)?;
    }
    Ok(copied)
}

/// What every module has: its name, its imports, and its name behind END.
fn copy_frame(
    alloc: Global,
    name: &Ident,
    imports: &List<Import>,
    end_name: &Ident,
) -> Result<((Ident, List<Import>), Ident), Memory>
    ensures { IfOk result (λ copied. copied ≡ ((name.now, imports.now), end_name.now)) }
{
    pair(
        pair(copy_ident(alloc, name)?, copy_imports(alloc, imports))?,
        copy_ident(alloc, end_name),
    )
}

/// Declarations, and the body behind them.
fn copy_block(
    alloc: Global,
    declarations: &List<Decl>,
    body: &Option<Statements>,
) -> Result<(List<Decl>, Option<Statements>), Memory>
    ensures { IfOk result (λ copied. copied ≡ (declarations.now, body.now)) }
{
    pair(
        copy_decls(alloc, declarations)?,
        copy_optional_body(alloc, body),
    )
}

fn copy_program(alloc: Global, p: &Program) -> Result<Program, Memory>
    ensures { IfOk result (λ copied. copied ≡ p.now) }
{
    let (((name, imports), end_name), (declarations, body)) = pair(
        copy_frame(alloc, &p.name, &p.imports, &p.end_name)?,
        copy_block(alloc, &p.declarations, &p.body),
    )?;
    Ok(Program {
        place: p.place,
        name,
        imports,
        declarations,
        body,
        end_name,
    })
}

fn copy_definition(alloc: Global, d: &DefinitionUnit) -> Result<DefinitionUnit, Memory>
    ensures { IfOk result (λ copied. copied ≡ d.now) }
{
    let (((name, imports), end_name), items) = pair(
        copy_frame(alloc, &d.name, &d.imports, &d.end_name)?,
        copy_items(alloc, &d.items),
    )?;
    Ok(DefinitionUnit {
        place: d.place,
        name,
        imports,
        items,
        end_name,
    })
}

fn copy_data(alloc: Global, d: &DataUnit) -> Result<DataUnit, Memory>
    ensures { IfOk result (λ copied. copied ≡ d.now) }
{
    let (((name, imports), end_name), items) = pair(
        copy_frame(alloc, &d.name, &d.imports, &d.end_name)?,
        copy_commons(alloc, &d.items),
    )?;
    Ok(DataUnit {
        place: d.place,
        name,
        imports,
        items,
        end_name,
    })
}

/// Want of memory is its one refusal.
pub fn copy_unit(alloc: Global, unit: &Unit) -> Result<Unit, Memory>
    ensures { IfOk result (λ copied. copied ≡ unit.now) }
{
    match unit {
        Unit::Program(p) => Ok(Unit::Program(copy_program(alloc, p)?)),
        Unit::Implementation(place, p) => Ok(Unit::Implementation(*place, copy_program(alloc, p)?)),
        Unit::Definition(d) => Ok(Unit::Definition(copy_definition(alloc, d)?)),
        Unit::Data(d) => Ok(Unit::Data(copy_data(alloc, d)?)),
    }
}

//! The standard names.
ghost use Rattle.std.specs.Prelude.{◌≡◌, IfOk, OnOk};
ghost use Rattle.dbpl_symbols.specs.Scopes.{with_pair};
ghost use Rattle.dbpl_symbols.specs.StandardNames.{declared_in_turn, function_pairs, own, procedure_pairs, standard_scope, truth_pairs, type_pairs};
ghost use Rattle.dbpl_symbols.specs.declared.decl.Decl.TheVariants as decls;
ghost use Rattle.dbpl_value.specs.declared.db_type.DbType.TheVariants as kinds;

use crate::{Decl, Origin, Scope, StandardProcedure};
use dbpl_base::{Memory, Shared, name_of};
use dbpl_value::DbType;
use std::alloc::Global;

/// A scope with one level, that of the standard names.
pub fn make_scope(alloc: Global) -> Result<Scope, Memory>
    ensures { IfOk result (λ scope. scope ≡ standard_scope) }
{
    let mut scope = Scope::new(alloc);
    add_types(alloc, &mut scope)?;
    add_truth_values(alloc, &mut scope)?;
    add_functions(alloc, &mut scope)?;
    add_procedures(alloc, &mut scope)?;
    Ok(scope)
}

fn add_types(alloc: Global, scope: &mut Scope) -> Result<(), Memory>
    ensures { OnOk result (scope.new ≡ declared_in_turn type_pairs scope.old) }
{
    add_type(alloc, scope, b"INTEGER", DbType::Int)?;
    add_type(alloc, scope, b"CARDINAL", DbType::Card)?;
    add_type(alloc, scope, b"BOOLEAN", DbType::Bool)?;
    add_type(alloc, scope, b"CHAR", DbType::Char)?;
    Ok(())
}

fn add_truth_values(alloc: Global, scope: &mut Scope) -> Result<(), Memory>
    ensures { OnOk result (scope.new ≡ declared_in_turn truth_pairs scope.old) }
{
    add_truth_value(alloc, scope, b"FALSE", 0)?;
    add_truth_value(alloc, scope, b"TRUE", 1)?;
    Ok(())
}

fn add_functions(alloc: Global, scope: &mut Scope) -> Result<(), Memory>
    ensures { OnOk result (scope.new ≡ declared_in_turn function_pairs scope.old) }
{
    add_standard(alloc, scope, b"ABS", StandardProcedure::Abs)?;
    add_standard(alloc, scope, b"ODD", StandardProcedure::Odd)?;
    add_standard(alloc, scope, b"CAP", StandardProcedure::Cap)?;
    add_standard(alloc, scope, b"CHR", StandardProcedure::Chr)?;
    add_standard(alloc, scope, b"ORD", StandardProcedure::Ord)?;
    add_standard(alloc, scope, b"VAL", StandardProcedure::Val)?;
    add_standard(alloc, scope, b"MIN", StandardProcedure::Min)?;
    add_standard(alloc, scope, b"MAX", StandardProcedure::Max)?;
    add_standard(alloc, scope, b"CARD", StandardProcedure::Card)?;
    Ok(())
}

fn add_procedures(alloc: Global, scope: &mut Scope) -> Result<(), Memory>
    ensures { OnOk result (scope.new ≡ declared_in_turn procedure_pairs scope.old) }
{
    add_standard(alloc, scope, b"INC", StandardProcedure::Inc)?;
    add_standard(alloc, scope, b"DEC", StandardProcedure::Dec)?;
    add_standard(alloc, scope, b"HALT", StandardProcedure::Halt)?;
    add_standard(alloc, scope, b"ABORT", StandardProcedure::Abort)?;
    Ok(())
}

fn add_type(alloc: Global, scope: &mut Scope, name: &[u8], kind: DbType) -> Result<(), Memory>
    ensures { OnOk result (scope.new ≡ with_pair (own name.now (decls.Kind kind)) scope.old) }
{
    let kind = Shared::new(alloc, kind)?;
    add_name(alloc, scope, name, Decl::Kind(kind))
}

fn add_truth_value(alloc: Global, scope: &mut Scope, name: &[u8], number: i64) -> Result<(), Memory>
    ensures { OnOk result (scope.new ≡ with_pair (own name.now (decls.Num kinds.Bool number)) scope.old) }
{
    let kind = Shared::new(alloc, DbType::Bool)?;
    add_name(alloc, scope, name, Decl::Num(kind, number))
}

fn add_standard(
    alloc: Global,
    scope: &mut Scope,
    name: &[u8],
    procedure: StandardProcedure,
) -> Result<(), Memory>
    ensures { OnOk result (scope.new ≡ with_pair (own name.now (decls.Standard procedure)) scope.old) }
{
    add_name(alloc, scope, name, Decl::Standard(procedure))
}

fn add_name(alloc: Global, scope: &mut Scope, name: &[u8], decl: Decl) -> Result<(), Memory>
    ensures { OnOk result (scope.new ≡ with_pair (own name.now decl) scope.old) }
{
    let name = name_of(alloc, name)?;
    scope.add(alloc, &name, decl, Origin::Declared)
}

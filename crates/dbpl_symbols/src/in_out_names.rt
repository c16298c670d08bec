//! The names of the module InOut.
ghost use Rattle.std.specs.Prelude.{◌≡◌, ◌++◌, [], ◌∷◌, IfOk, OnOk};
ghost use Rattle.dbpl_symbols.specs.InOutNames.{in_out_exports, number_params as number_params_of, reading_pairs, routine as routine_pair, value_param as value_param_of, var_param as var_param_of, writing_pairs};
ghost use Rattle.dbpl_symbols.specs.StandardNames.{own};

use crate::{Decl, Exports, Origin, Pair, Sort};
use dbpl_base::{List, Memory, Shared, name_of};
use dbpl_core::InOutProcedure;
use dbpl_value::{DbType, Head, Param};
use std::alloc::Global;

/// What InOut exports, with the headings of its procedures.
pub fn in_out(alloc: Global) -> Result<Exports, Memory>
    ensures { IfOk result (λ exports. exports ≡ in_out_exports) }
{
    let mut pairs = List::new(alloc);
    add_reading(alloc, &mut pairs)?;
    add_writing(alloc, &mut pairs)?;
    let kind = Shared::new(alloc, DbType::Bool)?;
    add_name(alloc, &mut pairs, b"Done", Decl::Variable(kind, Sort::Done))?;
    let module = Shared::new(alloc, name_of(alloc, b"InOut")?)?;
    Ok(Exports { module, pairs })
}

fn add_reading(alloc: Global, pairs: &mut List<Pair>) -> Result<(), Memory>
    ensures { OnOk result (pairs.new ≡ pairs.old ++ reading_pairs) }
{
    let params = one_param(alloc, var_param(alloc, b"c", DbType::Char)?)?;
    add_routine(alloc, pairs, InOutProcedure::Read, b"Read", params)?;
    let params = one_param(alloc, var_param(alloc, b"x", DbType::Int)?)?;
    add_routine(alloc, pairs, InOutProcedure::ReadInt, b"ReadInt", params)?;
    let params = one_param(alloc, var_param(alloc, b"x", DbType::Card)?)?;
    add_routine(alloc, pairs, InOutProcedure::ReadCard, b"ReadCard", params)?;
    Ok(())
}

fn add_writing(alloc: Global, pairs: &mut List<Pair>) -> Result<(), Memory>
    ensures { OnOk result (pairs.new ≡ pairs.old ++ writing_pairs) }
{
    let params = one_param(alloc, value_param(alloc, b"c", DbType::Char)?)?;
    add_routine(alloc, pairs, InOutProcedure::Write, b"Write", params)?;
    add_routine(
        alloc,
        pairs,
        InOutProcedure::WriteLn,
        b"WriteLn",
        List::new(alloc),
    )?;
    let string = Decl::InOut(InOutProcedure::WriteString, None);
    add_name(alloc, pairs, b"WriteString", string)?;
    let params = number_params(alloc, DbType::Int)?;
    add_routine(alloc, pairs, InOutProcedure::WriteInt, b"WriteInt", params)?;
    let params = number_params(alloc, DbType::Card)?;
    add_routine(
        alloc,
        pairs,
        InOutProcedure::WriteCard,
        b"WriteCard",
        params,
    )?;
    Ok(())
}

/// A procedure with its heading.
fn add_routine(
    alloc: Global,
    pairs: &mut List<Pair>,
    routine: InOutProcedure,
    name: &[u8],
    params: List<Param>,
) -> Result<(), Memory>
    ensures { OnOk result (pairs.new ≡ pairs.old ++ routine_pair routine name.now params ∷ []) }
{
    let head = Shared::new(
        alloc,
        Head {
            name: name_of(alloc, name)?,
            transaction: false,
            params,
            result: None,
        },
    )?;
    add_name(alloc, pairs, name, Decl::InOut(routine, Some(head)))
}

fn add_name(alloc: Global, pairs: &mut List<Pair>, name: &[u8], decl: Decl) -> Result<(), Memory>
    ensures { OnOk result (pairs.new ≡ pairs.old ++ own name.now decl ∷ []) }
{
    let name = name_of(alloc, name)?;
    pairs.push(Pair {
        name,
        decl,
        origin: Origin::Declared,
    })
}

/// The number that is printed, and the width.
fn number_params(alloc: Global, kind: DbType) -> Result<List<Param>, Memory>
    ensures { IfOk result (λ params. params ≡ number_params_of kind) }
{
    let mut params = one_param(alloc, value_param(alloc, b"x", kind)?)?;
    params.push(value_param(alloc, b"n", DbType::Card)?)?;
    Ok(params)
}

fn one_param(alloc: Global, param: Param) -> Result<List<Param>, Memory>
    ensures { IfOk result (λ params. params ≡ param ∷ []) }
{
    let mut params = List::new(alloc);
    params.push(param)?;
    Ok(params)
}

fn var_param(alloc: Global, name: &[u8], kind: DbType) -> Result<Param, Memory>
    ensures { IfOk result (λ param. param ≡ var_param_of name.now kind) }
{
    let kind = Shared::new(alloc, kind)?;
    Ok(Param {
        name: name_of(alloc, name)?,
        kind,
        by_ref: true,
    })
}

fn value_param(alloc: Global, name: &[u8], kind: DbType) -> Result<Param, Memory>
    ensures { IfOk result (λ param. param ≡ value_param_of name.now kind) }
{
    let kind = Shared::new(alloc, kind)?;
    Ok(Param {
        name: name_of(alloc, name)?,
        kind,
        by_ref: false,
    })
}

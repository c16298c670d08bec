//! The routines of the scope.
use crate::types::{Sample, shared_name, shared_type};
use dbpl_base::{List, Memory, Shared, name_of};
use dbpl_judging::pair;
use dbpl_symbols::Decl;
use dbpl_value::{DbType, Head, Param};
use std::alloc::Global;

/// A routine of a module, with parameters of these types, each of which is a VAR parameter or not.
pub(crate) fn routine(
    alloc: Global,
    module: &str,
    name: &str,
    params: &[(bool, Sample)],
    gives: Option<Sample>,
) -> Result<Decl, Memory> {
    let (module, head) = pair(
        shared_name(alloc, module)?,
        head_of(alloc, name, params, gives),
    )?;
    Ok(Decl::Routine(module, head))
}

/// A heading.
pub(crate) fn head_of(
    alloc: Global,
    name: &str,
    params: &[(bool, Sample)],
    gives: Option<Sample>,
) -> Result<Shared<Head>, Memory> {
    let (params, result) = pair(params_of(alloc, params)?, result_of(alloc, gives))?;
    let ((params, result), name) = pair((params, result), name_of(alloc, name.as_bytes()))?;
    Shared::new(
        alloc,
        Head {
            name,
            transaction: false,
            params,
            result,
        },
    )
}

fn result_of(alloc: Global, gives: Option<Sample>) -> Result<Option<Shared<DbType>>, Memory> {
    match gives {
        Some(sample) => Ok(Some(shared_type(alloc, sample)?)),
        None => Ok(None),
    }
}

fn params_of(alloc: Global, samples: &[(bool, Sample)]) -> Result<List<Param>, Memory> {
    let mut params = List::new(alloc);
    for (by_ref, sample) in samples {
        params.push(param_of(alloc, *by_ref, *sample)?)?;
    }
    Ok(params)
}

fn param_of(alloc: Global, by_ref: bool, sample: Sample) -> Result<Param, Memory> {
    let (name, kind) = pair(name_of(alloc, b"x")?, shared_type(alloc, sample))?;
    Ok(Param { name, kind, by_ref })
}

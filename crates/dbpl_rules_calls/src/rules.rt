//! The tests of the rules of calls.
ghost use Rattle.std.specs.Prelude.{◌≡◌};
ghost use Rattle.std.specs.Option.{option_copied};
ghost use Rattle.dbpl_rules_calls.specs.Arguments.{is_built as is_procedure_built};
ghost use Rattle.dbpl_rules_calls.specs.Rules.{S36, S38, S39, S40, S40_characters, S40_type, gives as procedure_gives, has_order_number as has_number, is_relation_phrase, is_count_for as is_count_of_head, is_count_of as is_count_of_procedure};

use crate::Denoted;
use dbpl_base::Shared;
use dbpl_judging::{Facts, Kind};
use dbpl_rules_operators::{Host, fits, lies_in, phrase_host};
use dbpl_symbols::{Decl, StandardProcedure};
use dbpl_value::{DbType, Head, is_char_array, range_of, same_type};

pub(crate) fn is_count_of(which: StandardProcedure, count: usize) -> bool
    ensures { result ≡ is_count_of_procedure which count }
{
    match which {
        StandardProcedure::Inc | StandardProcedure::Dec => count == 1 || count == 2,
        StandardProcedure::Val => count == 2,
        StandardProcedure::Halt | StandardProcedure::Abort => count == 0,
        _ => count == 1,
    }
}

fn is_count_for(head: Option<&Shared<Head>>, count: usize) -> bool
    ensures { result ≡ is_count_of_head (option_copied head.entry) count }
{
    match head {
        Some(head) => count == head.get().params.len(),
        None => count == 1,
    }
}

/// S36
pub fn takes_count(decl: &Decl, count: usize) -> bool
    ensures { result ≡ S36 decl.now count }
{
    match decl {
        Decl::Routine(_, head) => is_count_for(Some(head), count),
        Decl::InOut(_, head) => is_count_for(head.as_ref(), count),
        Decl::Standard(which) => is_count_of(*which, count),
        _ => true,
    }
}

fn gives(which: StandardProcedure) -> bool
    ensures { result ≡ procedure_gives which }
{
    !matches!(
        which,
        StandardProcedure::Inc
            | StandardProcedure::Dec
            | StandardProcedure::Halt
            | StandardProcedure::Abort
    )
}

/// S39
pub(crate) fn is_function(decl: &Decl) -> bool
    ensures { result ≡ S39 decl.now }
{
    match decl {
        Decl::Routine(_, head) => head.get().result.is_some(),
        Decl::Standard(which) => gives(*which),
        _ => false,
    }
}

pub(crate) fn is_built(which: StandardProcedure) -> bool
    ensures { result ≡ is_procedure_built which }
{
    !matches!(which, StandardProcedure::Card)
}

/// S38
pub(crate) fn takes_variable(t: &DbType, denoted: &Denoted) -> bool
    ensures { result ≡ S38 t.now denoted.now }
{
    denoted.may_change && same_type(denoted.kind.get(), t)
}

fn has_order_number(host: Host, number: Option<i64>) -> bool
    ensures { result ≡ has_number host number }
{
    match (host, number) {
        (Host::Integer | Host::Other, _) => false,
        (Host::Whole, Some(n)) => 0 <= n,
        _ => true,
    }
}

fn is_relation(kind: &Kind) -> bool
    ensures { result ≡ is_relation_phrase kind.now }
{
    match kind {
        Kind::Of(t) => matches!(t.get(), DbType::Rel(..)),
        _ => false,
    }
}

/// S40
pub(crate) fn takes_value(which: StandardProcedure, facts: &Facts) -> bool
    ensures { result ≡ S40 which facts.now }
{
    let host = phrase_host(&facts.kind);
    match which {
        StandardProcedure::Abs => fits(&DbType::Int, facts),
        StandardProcedure::Odd
        | StandardProcedure::Val
        | StandardProcedure::Inc
        | StandardProcedure::Dec => host.is_whole(),
        StandardProcedure::Chr => host.is_whole() && lies_in(&DbType::Char, facts.number),
        StandardProcedure::Cap => host.is_character(),
        StandardProcedure::Ord => has_order_number(host, facts.number),
        StandardProcedure::Card => is_relation(&facts.kind),
        _ => true,
    }
}

/// S40, of a type
pub(crate) fn takes_type(t: &DbType) -> bool
    ensures { result ≡ S40_type t.now }
{
    range_of(t).is_some()
}

/// S40, of WriteString
pub(crate) fn are_characters(kind: &Kind) -> bool
    ensures { result ≡ S40_characters kind.now }
{
    match kind {
        Kind::Text(_, _) => true,
        Kind::Of(t) => is_char_array(t.get()),
        Kind::Whole => false,
    }
}

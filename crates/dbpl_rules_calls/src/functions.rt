//! The rules that the name of a function and the number of its arguments keep.
ghost use Rattle.std.specs.Option.{option_copied};
ghost use Rattle.dbpl_judging.specs.Judgements.{of};
ghost use Rattle.dbpl_judging.specs.Judging.{Judges};
ghost use Rattle.dbpl_rules_calls.specs.Results.{function_rules as judged};

use crate::rules::{is_function, takes_count};
use dbpl_base::{Memory, Place};
use dbpl_judging::Checker;
use dbpl_symbols::{Decl, copy_decl};

/// A function that is called at this place with so many arguments, whatever these are. The declaration is as it was, with
/// one owner more.
#[tactic(auto, unfolding(crate::specs::Results::function_rules))]
pub fn function_rules(
    checker: &mut Checker,
    place: Place,
    count: usize,
    decl: Option<&Decl>,
) -> Result<Option<Decl>, Memory>
    ensures { Judges (of (judged place count) (option_copied decl.entry)) result checker.old checker.new }
{
    let Some(decl) = decl else {
        return Ok(None);
    };
    let counted = checker.asks(36, place, takes_count(decl, count));
    let gives = checker.asks(39, place, is_function(decl));
    if counted && gives {
        Ok(Some(copy_decl(decl)?))
    } else {
        Ok(None)
    }
}

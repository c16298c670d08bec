//! Parts of a list, which are let go of here, where their type is any.
ghost use Rattle.std.specs.Prelude.{◌≡◌, ◌++◌, IfOk, option_to_list};
ghost use Rattle.dbpl_rules_calls.specs.Results.{one_or_two as few};

use dbpl_base::{List, Memory};

/// The list with one part more, where there is one.
pub(crate) fn with_part<T: Drop>(list: List<T>, part: Option<T>) -> Result<List<T>, Memory>
    ensures { IfOk result (λ longer. longer ≡ list ++ option_to_list part) }
{
    let mut list = list;
    match part {
        Some(part) => {
            list.push(part)?;
            Ok(list)
        }
        None => Ok(list),
    }
}

/// The last of one or two parts, and the one before it where there are two.
pub(crate) fn one_or_two<T: Drop>(list: List<T>) -> Option<(Option<T>, T)>
    ensures { result ≡ few list }
{
    let mut list = list;
    let last = list.pop()?;
    let before = list.pop();
    if list.is_empty() {
        Some((before, last))
    } else {
        None
    }
}

//! Constants as they stand in the text.
ghost use Rattle.std.specs.Prelude.{◌≡◌, IfOk, pos};
ghost use Rattle.dbpl_judging.specs.Judging.{Judges};
ghost use Rattle.dbpl_rules_operators.specs.Literals.{character as judged_character, number as judged_number, numbered as constant_of, ordinal_constant as constant_of_type, text as judged_text, text_constant as constant_text, text_kind as kind_of_text, text_number as number_of_text, whole_constant as constant_whole};

use dbpl_base::{Boxed, Memory, Name, Place, Shared};
use dbpl_core::CoreExpr;
use dbpl_judging::{Checker, Facts, Kind, Typed, boxed};
use dbpl_value::DbType;
use std::alloc::Global;

/// A constant by its number.
fn numbered(alloc: Global, kind: Kind, place: Place, n: i64) -> Result<Typed, Memory>
    ensures { IfOk result (λ e. e ≡ constant_of kind place n) }
{
    let tree = Boxed::new(alloc, CoreExpr::Number(place, n))?;
    let facts = Facts {
        place,
        kind,
        number: Some(n),
    };
    Ok(Typed { facts, tree })
}

/// A whole constant.
pub fn whole_constant(alloc: Global, place: Place, n: i64) -> Result<Typed, Memory>
    ensures { IfOk result (λ e. e ≡ constant_whole place n) }
{
    numbered(alloc, Kind::Whole, place, n)
}

/// A constant of an ordinal type that isn't whole.
pub fn ordinal_constant(
    alloc: Global,
    t: Shared<DbType>,
    place: Place,
    n: i64,
) -> Result<Typed, Memory>
    ensures { IfOk result (λ e. e ≡ constant_of_type t place n) }
{
    numbered(alloc, Kind::Of(t), place, n)
}

fn text_kind(text: &[u8]) -> Kind
    ensures { result ≡ kind_of_text text.now }
{
    match text.first() {
        Some(first) => Kind::Text(text.len() as u64, *first),
        None => Kind::Text(0, 0),
    }
}

fn text_number(text: &[u8]) -> Option<i64>
    ensures { result ≡ number_of_text text.now }
{
    match text {
        [only] => Some(i64::from(*only)),
        _ => None,
    }
}

/// A string.
pub fn text_constant(alloc: Global, place: Place, text: Shared<Name>) -> Result<Typed, Memory>
    ensures { IfOk result (λ e. e ≡ constant_text place text) }
{
    let bytes = text.get().as_bytes();
    let facts = Facts {
        place,
        kind: text_kind(bytes),
        number: text_number(bytes),
    };
    let (facts, tree) = boxed(alloc, facts, CoreExpr::Text(place, None, text))?;
    Ok(Typed { facts, tree })
}

/// A number.
pub fn number(
    alloc: Global,
    checker: &mut Checker,
    place: Place,
    n: u64,
) -> Result<Option<Typed>, Memory>
    ensures { Judges (judged_number place n) result checker.old checker.new }
{
    match u32::try_from(n) {
        Ok(n) => Ok(Some(whole_constant(alloc, place, i64::from(n))?)),
        Err(_) => {
            checker.breaks(13, place);
            Ok(None)
        }
    }
}

/// A character by its code.
pub fn character(
    alloc: Global,
    checker: &mut Checker,
    place: Place,
    code: u64,
) -> Result<Option<Typed>, Memory>
    ensures { Judges (judged_character place code) result checker.old checker.new }
{
    match u8::try_from(code) {
        Ok(code) => {
            let t = Shared::new(alloc, DbType::Char)?;
            Ok(Some(ordinal_constant(alloc, t, place, i64::from(code))?))
        }
        Err(_) => {
            checker.breaks(13, place);
            Ok(None)
        }
    }
}

/// A string as it stands in the text.
pub fn text(
    alloc: Global,
    checker: &mut Checker,
    place: Place,
    bytes: &Name,
) -> Result<Option<Typed>, Memory>
    ensures { Judges (judged_text place bytes.now) result checker.old checker.new }
{
    let text = Shared::new(alloc, bytes.copy(alloc)?)?;
    Ok(Some(text_constant(alloc, place, text)?))
}

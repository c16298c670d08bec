//! Calls with arguments of each sort, with ample memory.
use crate::{
    Argument, Asked, Denoted, asked_at, called, characters_argument, counted_argument,
    function_rules, kind_argument, standard_argument, value_argument, variable_argument,
};
use dbpl_base::{Boxed, List, Memory, Place, Shared, name_of};
use dbpl_core::{CoreDesignator, CoreExpr, InOutProcedure, Root};
use dbpl_judging::{Checker, Facts, Kind, Setting, Typed, pair, pushed};
use dbpl_rules_operators::{Host, ordinal_constant, phrase_host, text_constant, whole_constant};
use dbpl_symbols::{Decl, StandardProcedure, make_scope};
use dbpl_value::{DbType, Head, Param};
use std::alloc::Global;

#[derive(Clone, Copy)]
enum Type {
    Cardinal,
    Integer,
    Boolean,
    Char,
    /// (red, green, blue)
    Colours,
    /// [red .. green]
    Some,
    /// ['b' .. 'd']
    Letters,
    /// ARRAY ['b' .. 'd'] OF CHAR
    Chars,
    /// RELATION OF RECORD END
    Relation,
}

/// What stands between the parentheses.
#[derive(Clone, Copy)]
enum Given {
    Absent,
    Whole(i64),
    Constant(Type, i64),
    /// The first so many of `abcd`, as a string.
    Text(usize),
    Variable(Type),
    /// A variable that may not be changed.
    Fixed(Type),
    Name(Type),
}

/// What is called.
#[derive(Clone, Copy)]
enum Callee {
    Standard(StandardProcedure),
    /// In a statement, so that its arguments alone are judged here.
    Statement(StandardProcedure),
    WriteString,
    /// A procedure of no parameters and no result.
    Procedure,
    /// A function of a Letters and a Chars, which gives a BOOLEAN.
    Function,
    /// A function of a VAR parameter, a CARDINAL, which gives a CARDINAL.
    Changing,
}

/// The column and the rule of the least breach, or the host and the number of what a call gives. Of a statement there is
/// only that its arguments are taken.
#[derive(Clone, Copy, PartialEq, Eq)]
enum Answer {
    Breaks(u32, u16),
    Makes(Host, Option<i64>),
    Takes,
    Nothing,
}

type Row = (Callee, Given, Given, Answer);

fn checker_of(alloc: Global) -> Result<Checker, Memory> {
    let (scope, module) = pair(
        make_scope(alloc)?,
        Shared::new(alloc, name_of(alloc, b"M")?),
    )?;
    Ok(Checker::new(Setting {
        scope,
        module,
        heading: None,
        in_loop: false,
        has_relations: false,
    }))
}

/// The call stands in column 1, its arguments in columns 3 and 5.
fn at(col: u32) -> Place {
    Place {
        unit: 0,
        line: 1,
        col,
    }
}

fn colours(alloc: Global) -> Result<DbType, Memory> {
    let mut names = List::new(alloc);
    names.push(name_of(alloc, b"red")?)?;
    names.push(name_of(alloc, b"green")?)?;
    names.push(name_of(alloc, b"blue")?)?;
    Ok(DbType::Enum(names))
}

fn letters(alloc: Global) -> Result<DbType, Memory> {
    Ok(DbType::Sub(Boxed::new(alloc, DbType::Char)?, 98, 100))
}

fn chars(alloc: Global) -> Result<DbType, Memory> {
    let index = Boxed::new(alloc, letters(alloc)?)?;
    let (index, element) = pair(index, Boxed::new(alloc, DbType::Char))?;
    Ok(DbType::Arr(index, element))
}

fn relation(alloc: Global) -> Result<DbType, Memory> {
    let record_type = Boxed::new(alloc, DbType::Rec(List::new(alloc)))?;
    Ok(DbType::Rel(List::new(alloc), record_type))
}

fn type_of(alloc: Global, t: Type) -> Result<Shared<DbType>, Memory> {
    let t = match t {
        Type::Cardinal => DbType::Card,
        Type::Integer => DbType::Int,
        Type::Boolean => DbType::Bool,
        Type::Char => DbType::Char,
        Type::Colours => colours(alloc)?,
        Type::Some => DbType::Sub(Boxed::new(alloc, colours(alloc)?)?, 0, 1),
        Type::Letters => letters(alloc)?,
        Type::Chars => chars(alloc)?,
        Type::Relation => relation(alloc)?,
    };
    Shared::new(alloc, t)
}

fn variable_of(alloc: Global, col: u32, t: Type) -> Result<Typed, Memory> {
    let facts = Facts {
        place: at(col),
        kind: Kind::Of(type_of(alloc, t)?),
        number: None,
    };
    let (facts, tree) = pair(facts, Boxed::new(alloc, CoreExpr::Number(at(col), 0)))?;
    Ok(Typed { facts, tree })
}

fn string_of(alloc: Global, col: u32, length: usize) -> Result<Typed, Memory> {
    let text = Shared::new(alloc, name_of(alloc, b"abcd".split_at(length.min(4)).0)?)?;
    text_constant(alloc, at(col), text)
}

/// The phrase as a value.
fn value_of(alloc: Global, col: u32, given: Given) -> Result<Option<Typed>, Memory> {
    match given {
        Given::Whole(n) => Ok(Some(whole_constant(alloc, at(col), n)?)),
        Given::Constant(t, n) => Ok(Some(ordinal_constant(alloc, type_of(alloc, t)?, at(col), n)?)),
        Given::Text(length) => Ok(Some(string_of(alloc, col, length)?)),
        Given::Variable(t) | Given::Fixed(t) => Ok(Some(variable_of(alloc, col, t)?)),
        _ => Ok(None),
    }
}

fn denoted(alloc: Global, col: u32, t: Type, may_change: bool) -> Result<Denoted, Memory> {
    let kind = type_of(alloc, t)?;
    let (kind, root_kind) = pair(kind, type_of(alloc, t))?;
    Ok(Denoted {
        designator: CoreDesignator {
            place: at(col),
            root: Root::Frame(0),
            root_kind,
            steps: List::new(alloc),
        },
        kind,
        may_change,
    })
}

/// The phrase as a variable.
fn denoted_of(alloc: Global, col: u32, given: Given) -> Result<Option<Denoted>, Memory> {
    match given {
        Given::Variable(t) => Ok(Some(denoted(alloc, col, t, true)?)),
        Given::Fixed(t) => Ok(Some(denoted(alloc, col, t, false)?)),
        _ => Ok(None),
    }
}

/// The phrase as the name of a type.
fn named_of(alloc: Global, given: Given) -> Result<Option<Shared<DbType>>, Memory> {
    match given {
        Given::Name(t) => Ok(Some(type_of(alloc, t)?)),
        _ => Ok(None),
    }
}

fn param_of(alloc: Global, t: Type, by_ref: bool) -> Result<Param, Memory> {
    let name = name_of(alloc, b"n")?;
    let (name, kind) = pair(name, type_of(alloc, t))?;
    Ok(Param { name, kind, by_ref })
}

fn params_of(alloc: Global, callee: Callee) -> Result<List<Param>, Memory> {
    let mut params = List::new(alloc);
    match callee {
        Callee::Function => {
            params.push(param_of(alloc, Type::Letters, false)?)?;
            params.push(param_of(alloc, Type::Chars, false)?)?;
        }
        Callee::Changing => params.push(param_of(alloc, Type::Cardinal, true)?)?,
        _ => {}
    }
    Ok(params)
}

fn result_of(alloc: Global, callee: Callee) -> Result<Option<Shared<DbType>>, Memory> {
    match callee {
        Callee::Function => Ok(Some(type_of(alloc, Type::Boolean)?)),
        Callee::Changing => Ok(Some(type_of(alloc, Type::Cardinal)?)),
        _ => Ok(None),
    }
}

fn head_of(alloc: Global, callee: Callee) -> Result<Shared<Head>, Memory> {
    let (name, params) = pair(name_of(alloc, b"f")?, params_of(alloc, callee))?;
    let ((name, params), result) = pair((name, params), result_of(alloc, callee))?;
    Shared::new(
        alloc,
        Head {
            name,
            transaction: false,
            params,
            result,
        },
    )
}

fn decl_of(alloc: Global, callee: Callee) -> Result<Decl, Memory> {
    match callee {
        Callee::Standard(which) | Callee::Statement(which) => Ok(Decl::Standard(which)),
        Callee::WriteString => Ok(Decl::InOut(InOutProcedure::WriteString, None)),
        _ => {
            let owner = Shared::new(alloc, name_of(alloc, b"M")?)?;
            let (owner, head) = pair(owner, head_of(alloc, callee))?;
            Ok(Decl::Routine(owner, head))
        }
    }
}

fn argument(
    alloc: Global,
    checker: &mut Checker,
    asked: &Asked,
    col: u32,
    given: Given,
) -> Result<Option<Argument>, Memory> {
    match asked {
        Asked::Value(t) => value_argument(alloc, checker, t, value_of(alloc, col, given)?),
        Asked::Variable(t) => {
            variable_argument(checker, t.get(), denoted_of(alloc, col, given)?)
        }
        Asked::Standard(which) => {
            standard_argument(alloc, checker, *which, value_of(alloc, col, given)?)
        }
        Asked::Counted => counted_argument(checker, denoted_of(alloc, col, given)?),
        Asked::Kind => kind_argument(checker, at(col), named_of(alloc, given)?),
        Asked::Characters => characters_argument(checker, value_of(alloc, col, given)?),
        Asked::Nothing => Ok(Some(Argument::Nothing)),
    }
}

fn count_of(first: Given, second: Given) -> usize {
    match (first, second) {
        (Given::Absent, _) => 0,
        (_, Given::Absent) => 1,
        _ => 2,
    }
}

/// The arguments, each judged by its place.
fn arguments(
    alloc: Global,
    checker: &mut Checker,
    decl: &Decl,
    first: Given,
    second: Given,
) -> Result<Option<List<Argument>>, Memory> {
    let count = count_of(first, second);
    let mut list = Some(List::new(alloc));
    if count > 0 {
        let asked = asked_at(Some(decl), count, 0)?;
        list = pushed(list, argument(alloc, checker, &asked, 3, first))?;
    }
    if count > 1 {
        let asked = asked_at(Some(decl), count, 1)?;
        list = pushed(list, argument(alloc, checker, &asked, 5, second))?;
    }
    Ok(list)
}

fn is_statement(callee: Callee) -> bool {
    matches!(callee, Callee::Statement(_) | Callee::WriteString)
}

fn answer_of(checker: &Checker, e: Option<Typed>) -> Answer {
    match (checker.least(), e) {
        (Some(least), None) => Answer::Breaks(least.place.col, least.rule),
        (None, Some(e)) => Answer::Makes(phrase_host(&e.facts.kind), e.facts.number),
        _ => Answer::Nothing,
    }
}

fn taken(checker: &Checker, given: Option<List<Argument>>) -> Answer {
    match (checker.least(), given) {
        (Some(least), None) => Answer::Breaks(least.place.col, least.rule),
        (None, Some(_)) => Answer::Takes,
        _ => Answer::Nothing,
    }
}

fn statement(alloc: Global, callee: Callee, first: Given, second: Given) -> Result<Answer, Memory> {
    let mut checker = checker_of(alloc)?;
    let decl = decl_of(alloc, callee)?;
    let given = arguments(alloc, &mut checker, &decl, first, second)?;
    Ok(taken(&checker, given))
}

fn expression(
    alloc: Global,
    callee: Callee,
    first: Given,
    second: Given,
) -> Result<Answer, Memory> {
    let mut checker = checker_of(alloc)?;
    let decl = decl_of(alloc, callee)?;
    let count = count_of(first, second);
    let function = function_rules(&mut checker, at(1), count, Some(&decl))?;
    let (function, given) = pair(
        function,
        arguments(alloc, &mut checker, &decl, first, second),
    )?;
    let e = called(alloc, &mut checker, at(1), function, given)?;
    Ok(answer_of(&checker, e))
}

fn are_answered(alloc: Global, rows: &[Row]) -> Result<bool, Memory> {
    for (callee, first, second, wanted) in rows {
        let answer = if is_statement(*callee) {
            statement(alloc, *callee, *first, *second)?
        } else {
            expression(alloc, *callee, *first, *second)?
        };
        if answer != *wanted {
            return Ok(false);
        }
    }
    Ok(true)
}

#[test]
fn calls(rt: HostRuntime) -> Result<(), Memory> {
    let alloc = rt.alloc();
    let rows = [
        (
            Callee::Standard(StandardProcedure::Abs),
            Given::Variable(Type::Cardinal),
            Given::Absent,
            Answer::Makes(Host::Integer, None),
        ),
        (
            Callee::Standard(StandardProcedure::Abs),
            Given::Whole(-5),
            Given::Absent,
            Answer::Makes(Host::Integer, None),
        ),
        (
            Callee::Standard(StandardProcedure::Abs),
            Given::Whole(4_294_967_295),
            Given::Absent,
            Answer::Breaks(3, 40),
        ),
        (
            Callee::Standard(StandardProcedure::Abs),
            Given::Variable(Type::Boolean),
            Given::Absent,
            Answer::Breaks(3, 40),
        ),
        (
            Callee::Standard(StandardProcedure::Abs),
            Given::Absent,
            Given::Absent,
            Answer::Breaks(1, 36),
        ),
        (
            Callee::Standard(StandardProcedure::Abs),
            Given::Whole(1),
            Given::Variable(Type::Boolean),
            Answer::Breaks(1, 36),
        ),
        (
            Callee::Standard(StandardProcedure::Odd),
            Given::Variable(Type::Integer),
            Given::Absent,
            Answer::Makes(Host::Boolean, None),
        ),
        (
            Callee::Standard(StandardProcedure::Odd),
            Given::Text(1),
            Given::Absent,
            Answer::Breaks(3, 40),
        ),
        (
            Callee::Standard(StandardProcedure::Cap),
            Given::Text(1),
            Given::Absent,
            Answer::Makes(Host::Char, None),
        ),
        (
            Callee::Standard(StandardProcedure::Cap),
            Given::Text(2),
            Given::Absent,
            Answer::Breaks(3, 40),
        ),
        (
            Callee::Standard(StandardProcedure::Chr),
            Given::Whole(65),
            Given::Absent,
            Answer::Makes(Host::Char, Some(65)),
        ),
        (
            Callee::Standard(StandardProcedure::Chr),
            Given::Whole(256),
            Given::Absent,
            Answer::Breaks(3, 40),
        ),
        (
            Callee::Standard(StandardProcedure::Chr),
            Given::Variable(Type::Cardinal),
            Given::Absent,
            Answer::Makes(Host::Char, None),
        ),
        (
            Callee::Standard(StandardProcedure::Ord),
            Given::Whole(-1),
            Given::Absent,
            Answer::Breaks(3, 40),
        ),
        (
            Callee::Standard(StandardProcedure::Ord),
            Given::Text(1),
            Given::Absent,
            Answer::Makes(Host::Whole, Some(97)),
        ),
        (
            Callee::Standard(StandardProcedure::Ord),
            Given::Variable(Type::Integer),
            Given::Absent,
            Answer::Breaks(3, 40),
        ),
        (
            Callee::Standard(StandardProcedure::Ord),
            Given::Variable(Type::Cardinal),
            Given::Absent,
            Answer::Makes(Host::Cardinal, None),
        ),
        (
            Callee::Standard(StandardProcedure::Ord),
            Given::Constant(Type::Colours, 2),
            Given::Absent,
            Answer::Makes(Host::Whole, Some(2)),
        ),
        (
            Callee::Standard(StandardProcedure::Val),
            Given::Name(Type::Letters),
            Given::Whole(99),
            Answer::Makes(Host::Char, None),
        ),
        (
            Callee::Standard(StandardProcedure::Val),
            Given::Name(Type::Cardinal),
            Given::Constant(Type::Boolean, 1),
            Answer::Breaks(5, 40),
        ),
        (
            Callee::Standard(StandardProcedure::Val),
            Given::Name(Type::Chars),
            Given::Whole(1),
            Answer::Breaks(3, 40),
        ),
        (
            Callee::Standard(StandardProcedure::Min),
            Given::Name(Type::Integer),
            Given::Absent,
            Answer::Makes(Host::Whole, Some(-2_147_483_648)),
        ),
        (
            Callee::Standard(StandardProcedure::Max),
            Given::Name(Type::Cardinal),
            Given::Absent,
            Answer::Makes(Host::Whole, Some(4_294_967_295)),
        ),
        (
            Callee::Standard(StandardProcedure::Min),
            Given::Name(Type::Letters),
            Given::Absent,
            Answer::Makes(Host::Char, Some(98)),
        ),
        (
            Callee::Standard(StandardProcedure::Max),
            Given::Name(Type::Some),
            Given::Absent,
            Answer::Makes(Host::Enumeration, Some(1)),
        ),
        (
            Callee::Standard(StandardProcedure::Max),
            Given::Name(Type::Chars),
            Given::Absent,
            Answer::Breaks(3, 40),
        ),
        (
            Callee::Standard(StandardProcedure::Inc),
            Given::Variable(Type::Cardinal),
            Given::Absent,
            Answer::Breaks(1, 39),
        ),
        (
            Callee::Standard(StandardProcedure::Card),
            Given::Variable(Type::Chars),
            Given::Absent,
            Answer::Breaks(3, 40),
        ),
        (
            Callee::Standard(StandardProcedure::Card),
            Given::Variable(Type::Relation),
            Given::Absent,
            Answer::Breaks(1, 109),
        ),
        (
            Callee::Function,
            Given::Constant(Type::Char, 98),
            Given::Text(3),
            Answer::Makes(Host::Boolean, None),
        ),
        (
            Callee::Function,
            Given::Text(1),
            Given::Text(3),
            Answer::Breaks(3, 37),
        ),
        (
            Callee::Function,
            Given::Variable(Type::Char),
            Given::Text(4),
            Answer::Breaks(5, 37),
        ),
        (
            Callee::Function,
            Given::Variable(Type::Char),
            Given::Absent,
            Answer::Breaks(1, 36),
        ),
        (
            Callee::Changing,
            Given::Variable(Type::Cardinal),
            Given::Absent,
            Answer::Makes(Host::Cardinal, None),
        ),
        (
            Callee::Changing,
            Given::Variable(Type::Integer),
            Given::Absent,
            Answer::Breaks(3, 38),
        ),
        (
            Callee::Changing,
            Given::Fixed(Type::Cardinal),
            Given::Absent,
            Answer::Breaks(3, 38),
        ),
        (
            Callee::Procedure,
            Given::Absent,
            Given::Absent,
            Answer::Breaks(1, 39),
        ),
        (
            Callee::Statement(StandardProcedure::Inc),
            Given::Variable(Type::Some),
            Given::Absent,
            Answer::Takes,
        ),
        (
            Callee::Statement(StandardProcedure::Dec),
            Given::Variable(Type::Cardinal),
            Given::Variable(Type::Integer),
            Answer::Takes,
        ),
        (
            Callee::Statement(StandardProcedure::Inc),
            Given::Variable(Type::Cardinal),
            Given::Variable(Type::Boolean),
            Answer::Breaks(5, 40),
        ),
        (
            Callee::Statement(StandardProcedure::Inc),
            Given::Variable(Type::Chars),
            Given::Absent,
            Answer::Breaks(3, 40),
        ),
        (
            Callee::Statement(StandardProcedure::Dec),
            Given::Fixed(Type::Boolean),
            Given::Absent,
            Answer::Takes,
        ),
        (
            Callee::WriteString,
            Given::Text(2),
            Given::Absent,
            Answer::Takes,
        ),
        (
            Callee::WriteString,
            Given::Variable(Type::Chars),
            Given::Absent,
            Answer::Takes,
        ),
        (
            Callee::WriteString,
            Given::Variable(Type::Char),
            Given::Absent,
            Answer::Breaks(3, 40),
        ),
    ];
    assert!(rt; are_answered(alloc, rows.as_slice())?);
    Ok(())
}

/// What a text is read as: a unit, or a phrase that it begins with.
#[derive(Clone, Copy, Debug)]
pub(crate) enum Kind {
    Unit,
    Expr,
    Designator,
    Range,
    Aggregate,
}

/// The kind that a line asks for by its first word, and the answer that it expects.
pub(crate) fn asked(line: &str) -> (Kind, &str) {
    match line.split_once(' ') {
        Some(("expr", expected)) => (Kind::Expr, expected),
        Some(("designator", expected)) => (Kind::Designator, expected),
        Some(("range", expected)) => (Kind::Range, expected),
        Some(("aggregate", expected)) => (Kind::Aggregate, expected),
        _ => (Kind::Unit, line),
    }
}

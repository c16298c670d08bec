//! Designators that may be the name of a type.
ghost use Rattle.std.specs.Prelude.{◌≡◌};
ghost use Rattle.dbpl_grammar.specs.Expressions as spec;

use dbpl_tree::{Designator, DesignatorOf, PartOf, Qual};

/// Whether it is a name, or a name and a field.
pub fn is_qual(found: &Designator) -> bool
    ensures { result ≡ spec.is_qual found.now }
{
    matches!(found.parts.as_slice(), [] | [PartOf::Field(_)])
}

/// The name that it is, where it is one.
pub fn qual_in(found: Designator) -> Qual
    ensures { result ≡ spec.qual_in found }
{
    let DesignatorOf { head, mut parts } = found;
    if parts.is_empty() {
        return Qual {
            first: head,
            second: None,
        };
    }
    let second = match parts.remove(0) {
        PartOf::Field(name) => Some(name),
        PartOf::Subscripts(_, _) => None,
    };
    Qual {
        first: head,
        second,
    }
}

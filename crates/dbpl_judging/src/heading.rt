ghost use Rattle.std.specs.Prelude.{◌≡◌, IfOk};
ghost use Rattle.dbpl_judging.specs.Headings.{gives_of, heading_of as heading_of_head};

use crate::Gives;
use dbpl_base::{Memory, Shared};
use dbpl_value::{DbType, Head};

/// What the phrases in a routine ask of its heading. It is there of a heading that was refused, too, whatever is wrong
/// with it.
#[derive(Drop)]
pub struct Heading {
    /// Whether the routine is a transaction.
    pub transaction: bool,
    pub result: Gives,
}

/// What is asked of this heading, which was not refused.
pub fn heading_of(head: &Head) -> Result<Heading, Memory>
    ensures { IfOk result (λ heading. heading ≡ heading_of_head head.now) }
{
    let result = given_by(&head.result)?;
    Ok(Heading {
        transaction: head.transaction,
        result,
    })
}

fn given_by(kind: &Option<Shared<DbType>>) -> Result<Gives, Memory>
    ensures { IfOk result (λ given. given ≡ gives_of kind.now) }
{
    match kind {
        Some(t) => Ok(Gives::Value(t.share()?)),
        None => Ok(Gives::Nothing),
    }
}

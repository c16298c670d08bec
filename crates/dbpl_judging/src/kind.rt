ghost use Rattle.std.specs.Prelude.{◌≡◌, IfOk};

use dbpl_base::{Memory, Shared};
use dbpl_value::DbType;

/// What the value of a phrase is. Constants of no type of their own take that of the place where they stand.
#[derive(Drop)]
pub enum Kind {
    /// A whole constant, of either whole host.
    Whole,
    /// A string constant of so many characters, and the first of them, or 0 where there is none.
    Text(u64, u8),
    Of(Shared<DbType>),
}

impl Kind {
    /// The same once more. The type isn't copied, but has one owner more.
    pub fn share(&self) -> Result<Kind, Memory>
        ensures { IfOk result (λ kind. kind ≡ self.now) }
    {
        match self {
            Kind::Whole => Ok(Kind::Whole),
            Kind::Text(length, first) => Ok(Kind::Text(*length, *first)),
            Kind::Of(t) => Ok(Kind::Of(t.share()?)),
        }
    }
}

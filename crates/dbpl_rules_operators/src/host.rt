ghost use Rattle.std.specs.Prelude.{◌≡◌, IfOk};
ghost use Rattle.dbpl_rules_operators.specs.Hosts.{is_boolean, is_character, is_other, is_whole, joined, result_host, whole_kind};

use dbpl_base::{Memory, Shared};
use dbpl_core::WholeHost;
use dbpl_judging::Kind;
use dbpl_value::DbType;
use std::alloc::Global;

/// What a phrase counts as for the rules of operators: its host, where it is ordinal. The host of a subrange is the type of
/// its bounds.
#[derive(Clone, Copy, Debug, PartialEq, Eq)]
pub enum Host {
    /// A whole constant, which has no type of its own.
    Whole,
    Integer,
    Cardinal,
    Boolean,
    /// CHAR, and a string of one character.
    Char,
    /// An enumeration. Which one it is its type says.
    Enumeration,
    /// Of no ordinal type.
    Other,
}

impl Host {
    pub fn is_whole(self) -> bool
        ensures { result ≡ is_whole self }
    {
        matches!(self, Host::Whole | Host::Integer | Host::Cardinal)
    }

    pub fn is_boolean(self) -> bool
        ensures { result ≡ is_boolean self }
    {
        matches!(self, Host::Boolean)
    }

    pub fn is_character(self) -> bool
        ensures { result ≡ is_character self }
    {
        matches!(self, Host::Char)
    }

    pub fn is_other(self) -> bool
        ensures { result ≡ is_other self }
    {
        matches!(self, Host::Other)
    }

    /// The host of two whole operands: that of the one that isn't a constant.
    pub fn joined(self, other: Host) -> Host
        ensures { result ≡ joined self other }
    {
        match self {
            Host::Whole => other,
            _ => self,
        }
    }

    /// The host in which a result must lie, and none for that of constants.
    pub fn result_host(self) -> Option<WholeHost>
        ensures { result ≡ result_host self }
    {
        match self {
            Host::Integer => Some(WholeHost::Integer),
            Host::Cardinal => Some(WholeHost::Cardinal),
            _ => None,
        }
    }

    /// What a result in this whole host is.
    pub fn whole_kind(self, alloc: Global) -> Result<Kind, Memory>
        ensures { IfOk result (λ kind. kind ≡ whole_kind self) }
    {
        match self {
            Host::Integer => Ok(Kind::Of(Shared::new(alloc, DbType::Int)?)),
            Host::Cardinal => Ok(Kind::Of(Shared::new(alloc, DbType::Card)?)),
            _ => Ok(Kind::Whole),
        }
    }
}

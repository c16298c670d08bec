//! Types and values of the language: what they are, how they begin, how they compare, how large they are when they
//! are stored, and paths to their parts. And databases, which are relation variables with types and values.
#![tactic(auto)]

mod bound;
mod copies;
mod db_type;
mod depths;
mod different;
mod equality;
mod field;
mod fields;
mod head;
mod identifiers;
mod key_fields;
mod keys;
mod levels;
mod name_rules;
mod param;
mod path_err;
mod paths;
mod range;
mod scalars;
mod sizes;
mod soundness;
mod start;
mod step;
#[cfg(test)]
mod tests;
mod value;
mod variable;

pub use bound::Bound;
pub use copies::{copy, copy_type};
pub use db_type::DbType;
pub use depths::{are_relations_within, are_types_within};
pub use different::{are_different, are_fields_different};
pub use equality::{equal, same_type};
pub use field::{Field, field_of};
pub use fields::{key_type, type_named};
pub use head::Head;
pub use identifiers::is_identifier;
pub use keys::{key_order, order_to_key};
pub use levels::{
    count_of, element_of, fields_of, is_char_array, is_host, keys_of, number_of, parts_of, range_of,
};
pub use param::Param;
pub use path_err::PathErr;
pub use paths::{at_path, put_path};
pub use range::Range;
pub use scalars::scalars_of;
pub use sizes::size_of;
pub use soundness::{is_subrange, is_type};
pub use start::start_value;
pub use step::Step;
pub use value::Value;
pub use variable::Variable;

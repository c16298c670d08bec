//! The bytes of values and of types: one spelling for each, and nothing else is read.
#![tactic(auto)]

mod descriptors;
mod fronts;
mod keys;
mod laws;
mod numbers;
mod read_err;
mod reads;
mod type_reads;
mod types;
mod values;

pub use descriptors::read_type;
pub use keys::key_bytes;
pub use laws::{coded_size, key_byte_order, one_type, one_value};
pub use read_err::ReadErr;
pub use reads::read_value;
pub use types::write_type;
pub use values::write_value;

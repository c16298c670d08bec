//! The scanner: from the bytes of a text to its tokens.
#![tactic(auto)]

mod bytes;
mod comments;
mod front;
mod numbers;
mod places;
mod scan_err;
mod scanner;
mod signs;
mod strings;
mod tables;
#[cfg(test)]
mod tests;
mod words;

pub use scan_err::ScanErr;
pub use scanner::scan;

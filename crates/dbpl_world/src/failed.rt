// The answer of a call to the outside that failed. Its count says that it did.

#[derive(Clone, Copy, Debug, PartialEq, Eq)]
pub struct Failed;

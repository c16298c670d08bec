/// The type in which the result of a sign or an operator must lie: the host of its operands, which is the type of their
/// bounds where they are subranges.
#[derive(Clone, Copy)]
pub enum WholeHost {
    Integer,
    Cardinal,
}

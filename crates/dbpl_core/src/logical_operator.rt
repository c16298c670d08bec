/// What stands between two conditions. The right one is evaluated only where the left one doesn't decide.
#[derive(Clone, Copy)]
pub enum LogicalOperator {
    /// `AND` and `&`
    And,
    /// `OR`
    Or,
}

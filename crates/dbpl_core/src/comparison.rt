/// What two operands are compared as.
#[derive(Clone, Copy)]
pub enum Comparison {
    /// By their numbers: two ordinals of one host, or whole constants.
    Numbers,
    /// As values of one array or record type. The order of arrays of characters is that of their bytes.
    Values,
}

/// A procedure or function that every text knows. None has a heading: what each takes is said of each by itself.
#[derive(Clone, Copy, Debug, PartialEq, Eq)]
pub enum StandardProcedure {
    Abs,
    Odd,
    Cap,
    Chr,
    Ord,
    Val,
    Min,
    Max,
    Inc,
    Dec,
    Halt,
    Abort,
    Card,
}

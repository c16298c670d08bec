use dbpl_base::Place;

/// Why tokens spell no tree.
#[derive(Clone, Copy, Debug, PartialEq, Eq)]
pub enum ParseErr {
    /// At the token at this place it shows that no tree is spelled.
    Syntax(Place),
    /// A phrase begins at this place, and stands inside too many others.
    Deep(Place),
    /// Memory was wanting.
    Memory,
}

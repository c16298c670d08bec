use dbpl_base::Place;
use dbpl_value::Range;

/// One step from a record or an array to a part of it, with indexes of the type `E`: made of `.f`, and of each index in
/// brackets.
#[derive(Drop)]
pub enum CoreStepOf<E> {
    /// `.f`, by the position of the field in its record, from 0.
    Field(u32),
    /// One index between `[` and `]`: its place, the numbers of the array's index type, and the index. A number outside
    /// them is trap 4 at the place.
    Index(Place, Range, E),
}

/// What was asked for lies outside a text, with the text's bounds.
///
/// The three numbers are in one unit, and mean one of three things:
///
/// | refused | `position` | `low`, `high` | unit |
/// |---|---|---|---|
/// | an index | the index's position | where the text begins and ends | the one in which the index is read |
/// | a walk that would leave the text | where the walk begins, a place of the text | where the text begins and ends | code units of the storage |
/// | an offset in a view | the offset | 0, and the number of elements | elements of the view |
#[derive(Clone, Copy, Debug, PartialEq, Eq)]
pub struct OutOfBounds {
    /// The place that was refused, or from which no way leads on.
    pub position: u64,
    /// Where the text begins.
    pub low: u64,
    /// Where the text ends, which is a place of it too.
    pub high: u64,
}

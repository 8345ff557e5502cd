// A row of a follower's table.

// An entry in each of the two columns.
#[derive(Clone, Copy, PartialEq, Eq, Debug)]
pub struct Row<T> {
    pub left: T,
    pub right: T,
}

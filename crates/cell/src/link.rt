// What passes from cell to cell in one beat: one bit of a and one of b.

// A start mark comes with the lowest bits, and δ and twos beside it. They are 0 in every other link.
#[derive(Clone, Copy, PartialEq, Eq, Debug, Default)]
pub struct Link {
    pub start: bool,
    pub a: bool,
    pub b: bool,
    pub delta: i16,
    pub twos: u16,
}

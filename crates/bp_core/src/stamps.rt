// Boxes as they are drawn over a page.
use crate::rectangle::Rect;
use crate::review::Basis;

/// How a box is drawn.
#[derive(Clone, Copy, Debug, PartialEq, Eq)]
pub enum Ink {
    /// All black.
    Black,
    /// Black, with the code of its ground in white where the box is large enough.
    Lettered,
}

/// A box over a page, in pixels of the page, and the ground on which it covers them.
#[derive(Clone, Copy, Debug, PartialEq, Eq)]
pub struct Stamp {
    pub rect: Rect,
    pub basis: Basis,
}

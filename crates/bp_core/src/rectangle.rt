// Rectangles of pixels, as word boxes and redaction boxes give them.
ghost use Rattle.std.specs.Prelude.{◌≡◌, ◌+◌, ◌<◌, ◌≤◌, ◌↔◌, IsTrue};
ghost use Rattle.bp_core.specs.Rectangle.{has_pixel, lies_inside, spans_meet, touches, HasPixel, LiesInside, Touches};

/// A rectangle of pixels: its first column and row, counted from 0, and its sides, all in pixels.
#[derive(Clone, Copy, Debug, PartialEq, Eq)]
pub struct Rect {
    pub left: u32,
    pub top: u32,
    pub width: u32,
    pub height: u32,
}

impl Rect {
    /// Whether the pixel in that row and column, counted from 0, lies in the rectangle.
    pub fn has(&self, row: u32, col: u32) -> bool
        ensures value { result ≡ has_pixel self.now row col }
        ensures fact { IsTrue result ↔ HasPixel self.now row col }
    {
        self.top <= row
            && row - self.top < self.height
            && self.left <= col
            && col - self.left < self.width
    }

    /// Whether no pixel of the rectangle passes the right or the lower edge of a page of these
    /// sides, in pixels: `left + width` and `top + height`, as whole numbers, are at most the sides.
    pub fn inside(&self, width: u32, height: u32) -> bool
        ensures value { result ≡ lies_inside self.now width height }
        ensures fact { IsTrue result ↔ LiesInside self.now width height }
    {
        self.left <= width
            && self.width <= width - self.left
            && self.top <= height
            && self.height <= height - self.top
    }

    /// Whether some pixel lies in both rectangles.
    pub fn touches(&self, other: &Rect) -> bool
        ensures value { result ≡ touches self.now other.now }
        ensures fact { IsTrue result ↔ Touches self.now other.now }
    {
        spans_meet(self.left, self.width, other.left, other.width)
            && spans_meet(self.top, self.height, other.top, other.height)
    }
}

// Whether two spans, each from a place on and so long, have a place in common.
fn spans_meet(from: u32, long: u32, other_from: u32, other_long: u32) -> bool
    ensures { result ≡ spans_meet from long other_from other_long }
{
    let end = u64::from(from) + u64::from(long);
    let other_end = u64::from(other_from) + u64::from(other_long);
    u64::from(from.max(other_from)) < end.min(other_end)
}

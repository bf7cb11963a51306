// The shape of a frame.
ghost use Rattle.std.specs.Prelude.{◌≡◌, cond};
ghost use Rattle.frame.specs.Shape.{is_frame, needed, scratch_for};

use answer::{LONGEST, WIDEST};

// A frame's width and height in pixels, and how many bytes its rows are apart.
#[derive(Clone, Copy, PartialEq, Eq, Debug)]
pub struct Shape {
    pub width: usize,
    pub height: usize,
    pub stride: usize,
}

impl Shape {
    // Whether the three numbers are in their ranges.
    pub fn is_frame(self) -> bool
        ensures { result ≡ is_frame self }
    {
        (1..=LONGEST).contains(&self.width)
            && (1..=LONGEST).contains(&self.height)
            && (self.width..=WIDEST).contains(&self.stride)
    }

    // The bytes that a frame of this shape needs; 0 where rule 1 refuses it.
    // Not an `Option`, here and in `scratch`, since their clauses promise every caller a number.
    pub fn bytes(self) -> usize
        ensures { result ≡ cond (is_frame self) (needed self) 0 }
    {
        if self.is_frame() {
            (self.height - 1) * self.stride + self.width
        } else {
            0
        }
    }

    // The bytes of scratch that the calls on a frame of this shape need for its lines; 0 where rule 1 refuses it.
    pub fn scratch(self) -> usize
        ensures { result ≡ cond (is_frame self) (scratch_for self) 0 }
    {
        if self.is_frame() {
            8 * self.width.max(self.height)
        } else {
            0
        }
    }
}

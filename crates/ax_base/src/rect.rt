//! Points and rectangles.
ghost use Rattle.std.specs.Prelude.{◌≡◌, IsTrue, ◌↔◌, SomeIff, pos, ◌≤ℤ◌, ◌<ℤ◌, ◌+ℤ◌};
ghost use Rattle.ax_base.specs.Area.{IsArea, HoldsPoint};

use std::marker::Model;

/// A point of the plane: `x` counts to the right, `y` downwards.
#[derive(Clone, Copy, Debug, PartialEq, Eq)]
pub struct Point {
    pub x: i32,
    pub y: i32,
}

/// A rectangle of the plane: its left upper corner, its width and its height. Neither side is negative, and no edge is
/// beyond 2,147,483,647.
#[derive(Clone, Copy, Debug, PartialEq, Eq)]
pub struct Rect {
    x: i32,
    y: i32,
    w: i32,
    h: i32,
}

impl Model for Rect {
    ghost use Rattle.ax_base.specs.Area.{Area, IsArea};

    ghost Value = { Area };

    ghost view = { λ r. record { x = r.x; y = r.y; w = r.w; h = r.h } };

    ghost invariant = { λ r. IsArea r.x r.y r.w r.h };

    ghost inverse = { λ a. record { x = a.x; y = a.y; w = a.w; h = a.h } };
}

impl Rect {
    /// `None` where a side is negative or an edge too far.
    // One test an `if`: what a chain of `||` rules out isn't known after it.
    pub fn new(x: i32, y: i32, w: i32, h: i32) -> Option<Rect>
        ensures { SomeIff result (IsArea x y w h) (record { x = x; y = y; w = w; h = h }) }
    {
        if w < 0 {
            return None;
        }
        if h < 0 {
            return None;
        }
        if x > i32::MAX - w {
            return None;
        }
        if y > i32::MAX - h {
            return None;
        }
        Some(Rect { x, y, w, h })
    }

    /// The empty rectangle at the origin.
    pub fn blank() -> Rect
        ensures { result ≡ record { x = pos 0; y = pos 0; w = pos 0; h = pos 0 } }
    {
        Rect {
            x: 0,
            y: 0,
            w: 0,
            h: 0,
        }
    }

    pub fn x(&self) -> i32
        ensures { result ≡ self.now.x }
    {
        self.x
    }

    pub fn y(&self) -> i32
        ensures { result ≡ self.now.y }
    {
        self.y
    }

    pub fn w(&self) -> i32
        ensures value { result ≡ self.now.w }
        ensures positive { pos 0 ≤ℤ result }
        ensures right { (self.now.x +ℤ result) ≤ℤ pos 2147483647 }
    {
        self.w
    }

    pub fn h(&self) -> i32
        ensures value { result ≡ self.now.h }
        ensures positive { pos 0 ≤ℤ result }
        ensures bottom { (self.now.y +ℤ result) ≤ℤ pos 2147483647 }
    {
        self.h
    }

    pub fn same(&self, other: &Rect) -> bool
        ensures { IsTrue result ↔ (self.now ≡ other.now) }
    {
        self.x == other.x && self.y == other.y && self.w == other.w && self.h == other.h
    }

    /// Whether the point is within: the left and upper edges are, the right and lower ones aren't.
    pub fn holds(&self, p: Point) -> bool
        ensures { IsTrue result ↔ HoldsPoint self.now p.x p.y }
    {
        let across = within(self.x, self.w, p.x);
        let down = within(self.y, self.h, p.y);
        across && down
    }
}

/// Whether a number stands from `start` on and before the end.
fn within(start: i32, len: i32, at: i32) -> bool
    requires positive { pos 0 ≤ℤ len }
    requires fits { (start +ℤ len) ≤ℤ pos 2147483647 }
    ensures { IsTrue result ↔ ((start ≤ℤ at) × (at <ℤ (start +ℤ len))) }
{
    let end = start + len;
    if at < start {
        return false;
    }
    at < end
}

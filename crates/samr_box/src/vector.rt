//! Cells and other triples of whole numbers, and the three axes.

ghost use Rattle.std.specs.Prelude.{◌≡◌, ◌↔◌, ℤ, pos, ◌+ℤ◌, ◌-ℤ◌, ◌≤ℤ◌, int_lt, IsTrue};
ghost use Rattle.samr_box.specs.Vector.{at, put, alike, at_most, AtMost, plus, minus, times, least, greatest, raised, lowered, FitsVector, InRange};

/// One of the three axes of the grid.
#[derive(Clone, Copy, Debug, PartialEq, Eq)]
pub enum Axis {
    I,
    J,
    K,
}

/// A cell, or three whole numbers, one an axis. Ordered by `k`, then `j`, then `i`.
#[derive(Clone, Copy, Debug, PartialEq, Eq, PartialOrd, Ord)]
pub struct IVec {
    pub k: i64,
    pub j: i64,
    pub i: i64,
}

impl IVec {
    /// The cell with these coordinates.
    pub fn new(i: i64, j: i64, k: i64) -> IVec
        ensures { result ≡ record { k = k; j = j; i = i } }
    {
        IVec { k, j, i }
    }

    /// The same number on each axis.
    pub fn alike(number: i64) -> IVec
        ensures { result ≡ alike number }
    {
        IVec {
            k: number,
            j: number,
            i: number,
        }
    }

    /// The number on an axis.
    pub fn at(self, axis: Axis) -> i64
        ensures { result ≡ at axis self }
    {
        match axis {
            Axis::I => self.i,
            Axis::J => self.j,
            Axis::K => self.k,
        }
    }

    /// The same triple with another number on an axis.
    pub fn put(self, axis: Axis, number: i64) -> IVec
        ensures { result ≡ put axis self number }
    {
        match axis {
            Axis::I => IVec { i: number, ..self },
            Axis::J => IVec { j: number, ..self },
            Axis::K => IVec { k: number, ..self },
        }
    }

    /// Whether each number is at most the other's on the same axis.
    pub fn at_most(self, other: IVec) -> bool
        ensures value { result ≡ at_most self other }
        ensures means { IsTrue result ↔ AtMost self other }
    {
        if self.k > other.k {
            return false;
        }
        if self.j > other.j {
            return false;
        }
        self.i <= other.i
    }

    /// The sum on each axis.
    pub fn plus(self, other: IVec) -> IVec
        requires { FitsVector (plus self other) }
        ensures { result ≡ plus self other }
    {
        IVec {
            k: self.k + other.k,
            j: self.j + other.j,
            i: self.i + other.i,
        }
    }

    /// The difference on each axis.
    pub fn minus(self, other: IVec) -> IVec
        requires { FitsVector (minus self other) }
        ensures { result ≡ minus self other }
    {
        IVec {
            k: self.k - other.k,
            j: self.j - other.j,
            i: self.i - other.i,
        }
    }

    /// The product on each axis.
    pub fn times(self, other: IVec) -> IVec
        requires { FitsVector (times self other) }
        ensures { result ≡ times self other }
    {
        IVec {
            k: self.k * other.k,
            j: self.j * other.j,
            i: self.i * other.i,
        }
    }

    /// The lesser number on each axis.
    pub fn least(self, other: IVec) -> IVec
        ensures { result ≡ least self other }
    {
        IVec {
            k: self.k.min(other.k),
            j: self.j.min(other.j),
            i: self.i.min(other.i),
        }
    }

    /// The greater number on each axis.
    pub fn greatest(self, other: IVec) -> IVec
        ensures { result ≡ greatest self other }
    {
        IVec {
            k: self.k.max(other.k),
            j: self.j.max(other.j),
            i: self.i.max(other.i),
        }
    }

    /// Whether the number on an axis is less than the other's.
    pub fn is_below(self, axis: Axis, other: IVec) -> bool
        ensures value { result ≡ int_lt (at axis self) (at axis other) }
    {
        match axis {
            Axis::I => self.i < other.i,
            Axis::J => self.j < other.j,
            Axis::K => self.k < other.k,
        }
    }

    /// The same triple, on an axis raised to the other's number where that is greater.
    pub fn raised(self, axis: Axis, other: IVec) -> IVec
        ensures { result ≡ raised axis self other }
    {
        match axis {
            Axis::I => IVec {
                i: self.i.max(other.i),
                ..self
            },
            Axis::J => IVec {
                j: self.j.max(other.j),
                ..self
            },
            Axis::K => IVec {
                k: self.k.max(other.k),
                ..self
            },
        }
    }

    /// The same triple, on an axis lowered to the other's number where that is less.
    pub fn lowered(self, axis: Axis, other: IVec) -> IVec
        ensures { result ≡ lowered axis self other }
    {
        match axis {
            Axis::I => IVec {
                i: self.i.min(other.i),
                ..self
            },
            Axis::J => IVec {
                j: self.j.min(other.j),
                ..self
            },
            Axis::K => IVec {
                k: self.k.min(other.k),
                ..self
            },
        }
    }

    /// The same triple, on an axis one less than the other.
    pub fn just_before(self, axis: Axis, other: IVec) -> IVec
        requires { InRange other }
        ensures { result ≡ put axis self (at axis other -ℤ pos 1) }
    {
        match axis {
            Axis::I => IVec {
                i: other.i - 1,
                ..self
            },
            Axis::J => IVec {
                j: other.j - 1,
                ..self
            },
            Axis::K => IVec {
                k: other.k - 1,
                ..self
            },
        }
    }

    /// The same triple, on an axis one more than the other.
    pub fn just_after(self, axis: Axis, other: IVec) -> IVec
        requires { InRange other }
        ensures { result ≡ put axis self (at axis other +ℤ pos 1) }
    {
        match axis {
            Axis::I => IVec {
                i: other.i + 1,
                ..self
            },
            Axis::J => IVec {
                j: other.j + 1,
                ..self
            },
            Axis::K => IVec {
                k: other.k + 1,
                ..self
            },
        }
    }

    /// The same triple, moved ahead on an axis.
    pub fn ahead(self, axis: Axis, count: u64) -> IVec
        requires here { InRange self }
        requires there { (at axis self +ℤ pos count) ≤ℤ pos 1073741824 }
        ensures { result ≡ put axis self (at axis self +ℤ pos count) }
    {
        match axis {
            Axis::I => IVec {
                i: self.i + count as i64,
                ..self
            },
            Axis::J => IVec {
                j: self.j + count as i64,
                ..self
            },
            Axis::K => IVec {
                k: self.k + count as i64,
                ..self
            },
        }
    }
}

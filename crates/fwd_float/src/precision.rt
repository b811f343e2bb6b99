//! The two formats, and what a float's bits say of its size.

ghost use Rattle.std.specs.Prelude.{◌≡◌, ◌+◌, ◌*◌, ◌^◌, ◌<◌, ◌≤◌};
ghost use Rattle.std.specs.Float.Ieee.{low, hid, ones, top};
ghost use Rattle.fwd_float.specs.Format.{format_of};
ghost use Rattle.fwd_float.specs.Layout.{most_digits, most_zeros};
ghost use Rattle.fwd_float.specs.Shortest.{units};

#[derive(Clone, Copy)]
pub(crate) enum Precision {
    Single,
    Double,
}

/// A float's size: `significand * 2 ^ exponent` times the least float above 0.
#[derive(Clone, Copy)]
pub(crate) struct Size {
    pub(crate) significand: u64,
    pub(crate) exponent: u64,
}

impl Precision {
    /// The bit of a significand's first digit, which the bits of a float leave out.
    fn hidden(self) -> u64
        ensures { result ≡ hid (format_of self) }
    {
        match self {
            Precision::Single => 0x80_0000,
            Precision::Double => 0x10_0000_0000_0000,
        }
    }

    /// The least float above 0 is `2 ^ -lowest`.
    pub(crate) fn lowest(self) -> u64
        ensures { result ≡ low (format_of self) }
    {
        match self {
            Precision::Single => 149,
            Precision::Double => 1074,
        }
    }

    /// The sign bit.
    pub(crate) fn sign(self) -> u64
        ensures { result ≡ top (format_of self) }
    {
        match self {
            Precision::Single => 0x8000_0000,
            Precision::Double => 0x8000_0000_0000_0000,
        }
    }

    /// The bits of infinity.
    pub(crate) fn infinity(self) -> u64
        ensures { result ≡ ones (format_of self) * hid (format_of self) }
    {
        match self {
            Precision::Single => 0x7f80_0000,
            Precision::Double => 0x7ff0_0000_0000_0000,
        }
    }

    /// The most digits before the point that are written with no exponent.
    pub(crate) fn most_digits(self) -> u64
        ensures { result ≡ most_digits (format_of self) }
    {
        match self {
            Precision::Single => 13,
            Precision::Double => 16,
        }
    }

    /// The most zeros after the point that are written with no exponent.
    pub(crate) fn most_zeros(self) -> u64
        ensures { result ≡ most_zeros (format_of self) }
    {
        match self {
            Precision::Single => 5,
            Precision::Double => 4,
        }
    }

    /// The size of a finite float above 0.
    pub(crate) fn size(self, bits: u64) -> Size
        requires { (0 < bits) × (bits < ones (format_of self) * hid (format_of self)) }
        ensures units { units (format_of self) bits ≡ result.significand * 2 ^ result.exponent }
        ensures significand { (0 < result.significand) × (result.significand < 2 ^ 53) }
        ensures exponent { result.exponent ≤ low (format_of self) + 971 }
    {
        let hidden = self.hidden();
        if bits < hidden {
            return Size {
                significand: bits,
                exponent: 0,
            };
        }
        Size {
            significand: hidden + bits % hidden,
            exponent: bits / hidden - 1,
        }
    }
}

//! Natural numbers of up to 2560 bits.

ghost use Rattle.std.specs.Prelude.{◌≡◌, ℕ, ◌+◌, ◌*◌, ◌^◌, ◌<◌, ◌≤◌, length, slice_index};
ghost use Rattle.std.specs.Ordering.{nat_cmp};
ghost use Rattle.fwd_float.specs.Limbs.{value_below, limb_weight, AreZeroFrom};

use std::cmp::Ordering;
use std::marker::Model;

const LIMBS: usize = 40;

/// A number as limbs of 64 bits, the lowest first.
#[derive(Drop)]
pub(crate) struct Big {
    limbs: [u64; LIMBS],
    len: usize,
}

impl Model for Big {
    ghost Value = { ℕ };

    ghost view = { λ b. value_below b.limbs b.len };

    ghost invariant = { λ b. (b.len ≤ 40) × AreZeroFrom b.limbs b.len };
}

/// Multiplies and adds in the first `len` limbs, and returns the carry.
fn multiply_add_limbs(limbs: &mut [u64; LIMBS], len: usize, by: u64, add: u64) -> u64
    requires { len ≤ 40 }
    ensures value { value_below limbs.new len + result * limb_weight len
        ≡ value_below limbs.old len * by + add }
    ensures others { (i : ℕ) → len ≤ i → slice_index limbs.new i ≡ slice_index limbs.old i }
{
    let mut carry = add;
    for i in 0..len {
        let wide = limbs[i] as u128 * by as u128 + carry as u128;
        limbs[i] = (wide & 0xffff_ffff_ffff_ffff) as u64;
        carry = (wide >> 64) as u64;
    }
    carry
}

/// Compares the first `len` limbs, from the highest down.
fn compare_limbs(a: &[u64], b: &[u64], len: usize) -> Ordering
    requires { (len ≤ length a.now) × (len ≤ length b.now) }
    ensures { result ≡ nat_cmp (value_below a.now len) (value_below b.now len) }
{
    let mut i = len;
    while i > 0 {
        i -= 1;
        if a[i] < b[i] {
            return Ordering::Less;
        }
        if a[i] > b[i] {
            return Ordering::Greater;
        }
    }
    Ordering::Equal
}

impl Big {
    pub(crate) fn new(n: u64) -> Big
        ensures { result ≡ n }
    {
        let mut big = Big {
            limbs: [0; LIMBS],
            len: 0,
        };
        big.multiply_add(1, n);
        big
    }

    fn multiply_add(&mut self, by: u64, add: u64)
        requires { self.old * by + add < limb_weight 40 }
        ensures { self.new ≡ self.old * by + add }
    {
        let len = self.len;
        let carry = multiply_add_limbs(&mut self.limbs, len, by, add);
        if carry > 0 {
            self.limbs[len] = carry;
            self.len = len + 1;
        }
    }

    /// The product, beside the number.
    pub(crate) fn times(&self, by: u64) -> Big
        requires { self.now * by < limb_weight 40 }
        ensures { result ≡ self.now * by }
    {
        let mut product = Big {
            limbs: self.limbs,
            len: self.len,
        };
        product.multiply_add(by, 0);
        product
    }

    pub(crate) fn multiply_by_ten_to(&mut self, n: u64)
        requires { self.old * 10 ^ n < limb_weight 40 }
        ensures { self.new ≡ self.old * 10 ^ n }
    {
        let mut left = n;
        while left > 19 {
            self.multiply_add(10_000_000_000_000_000_000, 0);
            left -= 19;
        }
        self.multiply_add(10u64.pow(left as u32), 0);
    }

    pub(crate) fn multiply_by_two_to(&mut self, n: u64)
        requires { self.old * 2 ^ n < limb_weight 40 }
        ensures { self.new ≡ self.old * 2 ^ n }
    {
        let mut left = n;
        while left > 63 {
            self.multiply_add(1 << 63, 0);
            left -= 63;
        }
        self.multiply_add(1 << left, 0);
    }

    pub(crate) fn compare(&self, other: &Big) -> Ordering
        ensures { result ≡ nat_cmp self.now other.now }
    {
        compare_limbs(&self.limbs, &other.limbs, self.len.max(other.len))
    }
}

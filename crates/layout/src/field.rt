// The fields of a state: each takes so many octets, by which it is written and from which it is read.
ghost use Rattle.std.specs.Prelude.{◌≡◌, List, ℕ, ◌+◌, ◌*◌, ◌≤◌, length};
ghost use Rattle.octets.specs.Octets.{value, octets};
ghost use Rattle.xgem.specs.Writes.{put};
ghost use Rattle.layout.specs.Rows.{part, each, many};
ghost use Rattle.layout.specs.Offsets.{id_width, mark_width};
ghost use Rattle.layout.specs.Layout.{alloc_octets, alloc_of, port_octets, port_of, mark_octets, mark_of_lem};

use super::offsets;
use ids::{AllocId, PortId};
use octets::Number;
use std::array;

pub(crate) trait Field: Copy + Drop {
    ghost WIDTH: { ℕ };

    const WIDTH: usize;

    // What octets show, and the octets that show it.
    ghost field_of: { List ℕ → Self };

    ghost octets_of: { Self → List ℕ };

    fn shown(c: &[u8]) -> Self
        requires { length c.now ≡ WIDTH }
        ensures { result ≡ field_of c.now };

    fn lay(self, out: &mut [u8])
        requires { WIDTH ≤ length out.old }
        ensures { (out.new ≡ put out.old (octets_of self)) × (length (octets_of self) ≡ WIDTH) };
}

// The numbers have an impl each: one for every Number would overlap with those of the identifiers.
impl Field for u8 {
    ghost WIDTH = { 1 };

    const WIDTH: usize = 1;

    ghost field_of = { value };

    ghost octets_of = { octets 1 };

    fn shown(c: &[u8]) -> u8 {
        u8::read(c)
    }

    fn lay(self, out: &mut [u8]) {
        self.put(out);
    }
}

impl Field for u16 {
    ghost WIDTH = { 2 };

    const WIDTH: usize = 2;

    ghost field_of = { value };

    ghost octets_of = { octets 2 };

    fn shown(c: &[u8]) -> u16 {
        u16::read(c)
    }

    fn lay(self, out: &mut [u8]) {
        self.put(out);
    }
}

impl Field for u32 {
    ghost WIDTH = { 4 };

    const WIDTH: usize = 4;

    ghost field_of = { value };

    ghost octets_of = { octets 4 };

    fn shown(c: &[u8]) -> u32 {
        u32::read(c)
    }

    fn lay(self, out: &mut [u8]) {
        self.put(out);
    }
}

impl Field for AllocId {
    ghost WIDTH = { id_width };

    const WIDTH: usize = offsets::ID_WIDTH;

    ghost field_of = { alloc_of };

    ghost octets_of = { alloc_octets };

    fn shown(c: &[u8]) -> AllocId {
        AllocId(u16::read(c))
    }

    fn lay(self, out: &mut [u8]) {
        self.0.put(out);
    }
}

impl Field for PortId {
    ghost WIDTH = { id_width };

    const WIDTH: usize = offsets::ID_WIDTH;

    ghost field_of = { port_of };

    ghost octets_of = { port_octets };

    fn shown(c: &[u8]) -> PortId {
        PortId(u16::read(c))
    }

    fn lay(self, out: &mut [u8]) {
        self.0.put(out);
    }
}

impl Field for bool {
    ghost WIDTH = { mark_width };

    const WIDTH: usize = offsets::MARK_WIDTH;

    ghost field_of = { mark_of_lem };

    ghost octets_of = { mark_octets };

    fn shown(c: &[u8]) -> bool {
        u8::read(c) == 1
    }

    fn lay(self, out: &mut [u8]) {
        u8::from(self).put(out);
    }
}

// The field at a place.
pub(crate) fn field_at<T: Field>(c: &[u8], at: usize) -> T
    requires { at + T.WIDTH ≤ length c.now }
    ensures { result ≡ T.field_of (part at T.WIDTH c.now) }
{
    T::shown(&c[at..at + T::WIDTH])
}

// So many fields, one after another from a place on.
pub(crate) fn fields_at<T: Field, const N: usize>(c: &[u8], at: usize) -> [T; N]
    requires { at + T.WIDTH * N ≤ length c.now }
    ensures { result ≡ many T.field_of T.WIDTH N (part at (T.WIDTH * N) c.now) }
{
    let l = &c[at..at + T::WIDTH * N];
    array::from_fn(
        |i: usize| -> T
            requires { T.WIDTH * i + T.WIDTH ≤ length l.now }
        { field_at(l, T::WIDTH * i) },
    )
}

pub(crate) fn octets_at<const N: usize>(c: &[u8], at: usize) -> [u8; N]
    requires { at + N ≤ length c.now }
    ensures { result ≡ part at N c.now }
{
    let mut l = [0u8; N];
    l.copy_from_slice(&c[at..at + N]);
    l
}

pub(crate) fn lay_each<T: Field, const N: usize>(l: &[T; N], out: &mut [u8])
    requires { T.WIDTH * N ≤ length out.old }
    ensures { (out.new ≡ put out.old (each T.octets_of l.now)) × (length (each T.octets_of l.now) ≡ T.WIDTH * N) }
{
    for (i, x) in l.iter().enumerate() {
        x.lay(&mut out[T::WIDTH * i..]);
    }
}

pub(crate) fn lay_octets(l: &[u8], out: &mut [u8])
    requires { length l.now ≤ length out.old }
    ensures { out.new ≡ put out.old l.now }
{
    out[..l.len()].copy_from_slice(l);
}

ghost use Rattle.std.specs.Prelude.{◌≡◌, ◌<◌, ◌^◌};
ghost use Rattle.im_ctype.specs.Layout as Layout;

/// How much an object of a type takes: bytes, cells, and the number of bytes of which each of its
/// addresses is a multiple.
#[derive(Clone, Copy, PartialEq, Eq, Debug)]
pub struct Extent {
    pub size: u64,
    pub alignment: u64,
    pub cells: u64,
}

/// The least multiple of the alignment that is not below the offset.
pub(crate) fn round_up(offset: u64, alignment: u64) -> u64
    requires nonzero { 0 < alignment }
    requires held { Layout.round_up offset alignment < 2 ^ 64 }
    ensures { result ≡ Layout.round_up offset alignment }
{
    offset + (alignment - offset % alignment) % alignment
}

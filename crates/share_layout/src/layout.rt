//! The two layouts of a share: the version and the width of the numbers behind it.

ghost use Rattle.std.specs.Prelude.{◌≡◌, ◌+◌, ◌≤◌, length, nat_eq};
ghost use Rattle.share_layout.specs.Offsets.{number_at};
ghost use Rattle.share_layout.specs.Layout.{spelled, width};

/// A layout of a share. Its header is a version in four bytes and eight numbers, and the length of
/// the extension block is one more such number.
#[derive(Clone, Copy, PartialEq, Eq)]
pub enum Layout {
    /// Version 1, numbers of four bytes, a header of 36.
    One,
    /// Version 2, numbers of eight bytes, a header of 68.
    Two,
}

impl Layout {
    ghost use Rattle.share_layout.specs.Layout.{header_size, version, width};
    ghost use Rattle.share_layout.specs.Offsets.{layout_in};

    /// The version, with which a share begins.
    pub fn version(self) -> u32
        ensures { result ≡ version self }
    {
        match self {
            Layout::One => 1,
            Layout::Two => 2,
        }
    }

    /// How many bytes a number behind the version has: 4 or 8.
    pub fn width(self) -> usize
        ensures value { result ≡ width self }
        ensures range { (4 ≤ result) × (result ≤ 8) }
    {
        match self {
            Layout::One => 4,
            Layout::Two => 8,
        }
    }

    /// The length of a header in bytes: 36 or 68.
    pub fn header_size(self) -> usize
        ensures value { result ≡ header_size self }
        ensures range { (36 ≤ result) × (result ≤ 68) }
    {
        4 + 8 * self.width()
    }

    /// The layout by which a header is measured: the second where bytes begin with its version, and
    /// the first for any others.
    pub fn in_header(bytes: &[u8]) -> Layout
        ensures { result ≡ layout_in bytes.now }
    {
        if bytes.starts_with(&Layout::Two.version().to_be_bytes()) {
            Layout::Two
        } else {
            Layout::One
        }
    }
}

/// The number at an offset of a share, in as many bytes as the layout gives it.
pub fn number_at(layout: Layout, bytes: &[u8], offset: usize) -> u64
    requires { offset + width layout ≤ length bytes.now }
    ensures { result ≡ number_at layout bytes.now offset }
{
    let n = &bytes[offset..offset + layout.width()];
    match layout {
        Layout::One => u64::from(u32::from_be_bytes([n[0], n[1], n[2], n[3]])),
        Layout::Two => u64::from_be_bytes([n[0], n[1], n[2], n[3], n[4], n[5], n[6], n[7]]),
    }
}

/// Writes a number over bytes, as many as the layout gives it.
pub(crate) fn spell(layout: Layout, number: u64, out: &mut [u8])
    requires { length out.old ≡ width layout }
    ensures { out.new ≡ spelled layout number }
{
    out.copy_from_slice(&number.to_be_bytes()[8 - layout.width()..]);
}

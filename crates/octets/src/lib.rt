#![tactic(auto)]

// Numbers in bytes, lowest byte first, and bytes put over the start of a buffer.
ghost use Rattle.std.specs.Prelude.{◌≡◌, ◌+◌, ◌≤◌, length};
ghost use Rattle.octets.specs.Octets.{le2, le4, twos, signed, over};

// The number in two bytes. It stays beside `four`: each is one read of the library's, and a const parameter can't pick that.
pub fn two(s: &[u8], at: usize) -> usize
    requires { at + 2 ≤ length s.now }
    ensures { result ≡ le2 s.now at }
{
    usize::from(u16::from_le_bytes([s[at], s[at + 1]]))
}

// The number in four bytes.
pub fn four(s: &[u8], at: usize) -> usize
    requires { at + 4 ≤ length s.now }
    ensures { result ≡ le4 s.now at }
{
    u32::from_le_bytes([s[at], s[at + 1], s[at + 2], s[at + 3]]) as usize
}

// The 32 bits of a signed number, in two's complement.
pub fn twos(x: i32) -> u32
    ensures { result ≡ twos x }
{
    x.cast_unsigned()
}

// The signed number of 32 bits.
pub fn signed(x: u32) -> i32
    ensures { result ≡ signed x }
{
    x.cast_signed()
}

// Puts `src` over the start of `dst`. Bytes behind it stay.
#[tactic(auto, unfolding(crate::specs::Octets::over))]
pub fn put(dst: &mut [u8], src: &[u8])
    requires { length src.now ≤ length dst.old }
    ensures { dst.new ≡ over src.now dst.old }
{
    dst[..src.len()].copy_from_slice(src);
}

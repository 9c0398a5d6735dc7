// Numbers of 32 bits, least significant byte first.
ghost use Rattle.std.specs.Prelude.{◌≡◌, ◌+◌, ◌≤◌, length};
ghost use Rattle.wire.specs.Format.{number_at};

// Put together from its last byte down in one running value.
pub(crate) fn number_at(bytes: &[u8], at: usize) -> u32
    requires { at + 4 ≤ length bytes.now }
    ensures { result ≡ number_at bytes.now at }
{
    let mut value = u32::from(bytes[at + 3]);
    value = value * 256 + u32::from(bytes[at + 2]);
    value = value * 256 + u32::from(bytes[at + 1]);
    value = value * 256 + u32::from(bytes[at]);
    value
}

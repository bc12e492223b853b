// The CRC-32 for a host, as the crate crc32_host_c exports it.

#![tactic(auto)]

ghost use Rattle.std.specs.Prelude.{◌≡◌};
ghost use Rattle.crc32.specs.Crc32.{crc32};

// The CRC-32 of `bytes`.
pub fn crc32_of(bytes: &[u8]) -> u32
    ensures { result ≡ crc32 bytes.now }
{
    crc32::crc32(bytes)
}

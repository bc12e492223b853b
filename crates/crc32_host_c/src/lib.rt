// The function of crc32_host, exported for C and Rust. A list is passed as a pointer and then a length.

#![tactic(auto)]

ghost use Rattle.std.specs.Prelude.{◌≡◌};
ghost use Rattle.crc32.specs.Crc32.{crc32};

// The CRC-32 of `bytes`.
#[unsafe(no_mangle)]
pub extern "C" fn crc32_of(bytes: &[u8]) -> u32
    ensures { result ≡ crc32 bytes.now }
{
    crc32_host::crc32_of(bytes)
}

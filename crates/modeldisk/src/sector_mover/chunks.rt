ghost use Rattle.std.specs.Prelude.{◌≡◌, ◌≢◌, ◌<◌, ℕ};
ghost use Rattle.bdev.specs.DriverState.{chunk};

/// The k-th 512 bytes.
pub fn chunk_at(buffer: &[u8; 4096], k: usize) -> [u8; 512]
    requires { k < 8 }
    ensures { result ≡ chunk k buffer.now }
{
    let mut bytes = [0; 512];
    bytes.copy_from_slice(&buffer[512 * k..512 * k + 512]);
    bytes
}

/// Puts the k-th 512 bytes.
pub fn put_chunk(buffer: &mut [u8; 4096], k: usize, bytes: &[u8; 512])
    requires { k < 8 }
    ensures put { chunk k buffer.new ≡ bytes.now }
    ensures others { (i : ℕ) → i ≢ k → chunk i buffer.new ≡ chunk i buffer.old }
{
    buffer[512 * k..512 * k + 512].copy_from_slice(bytes);
}

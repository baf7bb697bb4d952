// What every byte is.
ghost use Rattle.std.specs.Prelude.{◌<◌, All};

/// Each byte is a number below 256. It does nothing.
pub fn are_below_256(bytes: &[u8])
    ensures { All (λ b. b < 256) bytes.now }
{
    let _length = bytes.len();
}

// Buffers.
ghost use Rattle.std.specs.Prelude.{◌≡◌, length};

// As many zeros as are wanted: 4,096, the most bytes that a path has, or 65,536, for a page or the data of one.
pub fn buffer<const N: usize>() -> [u8; N]
    ensures { N ≡ length result }
{
    [0; N]
}

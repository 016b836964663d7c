// Bytes of a buffer by value, and written back: a flit, or a number in it. A copy through a value is faster than one from slice to slice.
ghost use Rattle.std.specs.Prelude.{◌≡◌, length};

// The bytes that a part of a buffer holds.
pub fn taken<const N: usize>(part: &[u8]) -> [u8; N]
    requires { length part.now ≡ N }
    ensures { result ≡ part.now }
{
    *part.as_array().unwrap()
}

// Writes bytes over a part of a buffer. `copy_from_slice` takes longer: it looks first whether the two overlap.
pub fn put<const N: usize>(part: &mut [u8], bytes: [u8; N])
    requires { length part.old ≡ N }
    ensures { part.new ≡ bytes.entry }
{
    *part.as_mut_array().unwrap() = bytes;
}

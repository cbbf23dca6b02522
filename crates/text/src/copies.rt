// Bytes that are copied.
ghost use Rattle.std.specs.Prelude.{◌≡◌, length};

// Copies bytes over as many others. Out of line, so that the compiler knows nothing of where they are, and one by one: the library's copy
// is a call of `memcpy` or `memmove` where the number of bytes is no constant, and the archive for C asks for neither.
#[inline(never)]
pub fn copy(to: &mut [u8], from: &[u8])
    requires { length to.old ≡ length from.now }
    ensures { to.new ≡ from.now }
{
    for (i, b) in from.iter().enumerate() {
        to[i] = *b;
    }
}

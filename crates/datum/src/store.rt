// Stores strings at the front of a buffer that has room for them.
ghost use Rattle.std.specs.Prelude.{◌≡◌, [], ◌∷◌, ◌+◌, ◌*◌, ◌<◌, length};
ghost use Rattle.std.proofs.lemmas.List.Edits.{sets};
ghost use Rattle.text.specs.Parts.{stored};
ghost use Rattle.datum.specs.Encoding.{terminated, widened};

use text::copies;

// Stores a string and a zero byte.
pub fn put_string(buffer: &mut [u8], s: &[u8])
    requires { length s.now < length buffer.old }
    ensures { buffer.new ≡ stored (terminated s.now) buffer.old }
{
    copies::copy(&mut buffer[..s.len()], s);
    buffer[s.len()] = 0;
}

// Stores a byte and a zero byte at an offset.
fn put_pair(buffer: &mut [u8], at: usize, b: u8)
    requires { at + 1 < length buffer.old }
    ensures { buffer.new ≡ sets buffer.old at (b ∷ 0 ∷ []) }
{
    buffer[at..at + 2].copy_from_slice(&[b, 0]);
}

// Stores a zero byte after each byte of a string, and two zero bytes at the end.
pub fn put_wide(buffer: &mut [u8], s: &[u8])
    requires { 2 * length s.now + 1 < length buffer.old }
    ensures { buffer.new ≡ stored (widened s.now) buffer.old }
{
    for (i, b) in s.iter().enumerate() {
        put_pair(buffer, 2 * i, *b);
    }
    put_pair(buffer, 2 * s.len(), 0);
}

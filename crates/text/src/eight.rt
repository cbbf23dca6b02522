// Eight bytes at once: the compiler makes one load of them.
ghost use Rattle.std.specs.Prelude.{◌≡◌, ◌≤◌, length};
ghost use Rattle.text.specs.Order.{equal};
ghost use Rattle.text.specs.Numbers.{little_endian, AreBytes};

// The number in eight bytes, the lowest first. That all of them are bytes is handed on, for proofs.
pub fn number(s: &[u8]) -> u64
    requires { length s.now ≡ 8 }
    ensures { (result ≡ little_endian 8 0 s.now) × AreBytes 8 0 s.now }
{
    u64::from_le_bytes([s[0], s[1], s[2], s[3], s[4], s[5], s[6], s[7]])
}

// Whether eight bytes equal eight others.
// Stays: two loads and one comparison. `a == b` has to ask for the length first and takes a call for eight bytes.
pub fn is_equal(a: &[u8], b: &[u8]) -> bool
    requires { (length a.now ≡ 8) × (length b.now ≡ 8) }
    ensures { result ≡ equal a.now b.now }
{
    number(a) == number(b)
}

// The settings that the lines of a file make, as records in front of the table.
#![tactic(auto)]

ghost use Rattle.std.specs.Prelude.{◌≡◌, List, [], ◌∷◌, ◌++◌, ◌≤◌, length, None, MatchOption};
ghost use Rattle.text.specs.Order.{equal};
ghost use Rattle.text.specs.Numbers.{lowest_bytes};
ghost use Rattle.settings.specs.Table.{name_of, records};
ghost use Rattle.own.specs.Own.{Own, padded};
ghost use Rattle.own.specs.Index.{place_among};
ghost use Rattle.own.specs.Putting.{Holds, IsSetting, Puts};

use text::{bytes, copies, order};
use units::Offset;

// The largest number of settings.
const MAX_OWN: usize = 64;

// What a record holds beside its name.
#[derive(Clone, Copy)]
pub struct Content {
    pub kind: u8,
    pub len: u8,
    pub bytes: [u8; 56],
}

// Whether two texts are equal: their last bytes first, since names often begin alike.
fn is_same(a: &[u8], b: &[u8]) -> bool
    ensures { result ≡ equal a.now b.now }
{
    let last = Offset(a.len().saturating_sub(1));
    bytes::byte_at(a, last) == bytes::byte_at(b, last) && order::is_equal(a, b)
}

// Whether this is the name of a record. Where the name in the record ends is checked before its bytes.
#[tactic(auto, using(crate::proofs::FieldNames::name_tests))]
fn has_name(r: &[u8], name: &[u8]) -> bool
    requires { length r.now ≡ 128 }
    ensures { result ≡ equal (name_of r.now) name.now }
{
    let field = &r[..64];
    let n = name.len();
    n <= field.len()
        && bytes::byte_at(field, Offset(n)) == 0
        && is_same(&field[..n], name)
        && !name.contains(&0)
}

// The index of the first record with a name. Bytes after the last whole record are no record.
pub fn index_of(own: &[u8], name: &[u8]) -> Option<usize>
    ensures { result ≡ place_among (records own.now) name.now }
{
    own.chunks_exact(128).position(|r| has_name(r, name))
}

// Fills a buffer with the bytes of a string and then zeros. Bytes without room are left out.
#[tactic(auto, using(crate::proofs::Fields::filled))]
fn fill(buffer: &mut [u8], s: &[u8])
    ensures { buffer.new ≡ padded (length buffer.old) s.now }
{
    let (front, rest) = buffer.split_at_mut(s.len().min(buffer.len()));
    copies::copy(front, &s[..front.len()]);
    rest.fill(0);
}

// Writes the fields of a record over 128 bytes.
fn fill_record(r: &mut [u8], name: &[u8], content: &Content)
    requires { length r.old ≡ 128 }
    ensures { r.new ≡ padded 64 name.now ++ (padded 8 (content.now.kind ∷ content.now.len ∷ []) ++ content.now.bytes) }
{
    fill(&mut r[..64], name);
    fill(&mut r[64..72], &[content.kind, content.len]);
    r[72..].copy_from_slice(&content.bytes);
}

// Puts a setting into the buffer, over the one with its name, or else after the last if there is room: how many bytes of the buffer are used
// then.
// Stays: `Running` of the crate progress, which is repr(C), holds the number of used bytes, and its caller lends the buffer beside it.
#[tactic(auto, using(crate::proofs::Index::index_within))]
pub fn put(own: &mut [u8; 8192], used: usize, name: &[u8], content: &Content) -> Option<usize>
    requires { used ≤ 8192 }
    ensures used_bound { MatchOption result Unit (λ n. n ≤ 8192) }
    ensures length { length own.new ≡ 8192 }
    ensures puts { (x : Own) (o : List Own) → IsSetting x name.now content.now.kind content.now.len content.now.bytes → Holds own.old used o → Puts x o own.new result }
    ensures unchanged { result ≡ None → own.new ≡ own.old }
{
    let i = index_of(&own[..used], name).unwrap_or(used / 128);
    if i == MAX_OWN {
        return None;
    }
    let at = 128 * i;
    let end = at + 128;
    fill_record(&mut own[at..end], name, content);
    Some(used.max(end))
}

// The content of a record with a number.
#[tactic(auto, using(crate::proofs::NumberBytes::bytes_lowest))]
pub fn number_content(x: u64) -> [u8; 56]
    ensures { result ≡ padded 56 (lowest_bytes 8 x) }
{
    text_content(&x.to_le_bytes())
}

// The content of a record with a string. Bytes without room are left out.
pub fn text_content(s: &[u8]) -> [u8; 56]
    ensures { result ≡ padded 56 s.now }
{
    let mut content = [0; 56];
    fill(&mut content, s);
    content
}

// The record under a name in a table of settings, found by halving.
#![tactic(auto)]

ghost use Rattle.std.specs.Prelude.{◌≡◌, ◌≤◌, length, take};
ghost use Rattle.text.specs.Order.{compared};
ghost use Rattle.text.specs.Runs.{span};
ghost use Rattle.text.specs.declared.runs.Set.TheVariants.{NonZero};
ghost use Rattle.settings.specs.Table.{records, unpadded};
ghost use Rattle.halving.specs.Halving.{halving};

use std::cmp::Ordering;
use text::runs::Set;
use text::{bytes, eight, parts, runs};
use units::Offset;

// Which record has the name, counted from 0, if one has it, and how many names were compared.
#[derive(Clone, Copy)]
pub struct Found {
    pub at: Option<usize>,
    pub rounds: usize,
}

// How many of the first 64 bytes of a name come before its first zero.
fn filled_bytes(name: &[u8]) -> usize
    ensures { (result ≤ 64) × (result ≤ span NonZero name.now) }
{
    runs::run_end(parts::part(name, Offset(0), 64), Offset(0), Set::NonZero).0
}

// A number of bytes that both begin with, a multiple of eight.
fn shared(a: &[u8], b: &[u8], most: usize) -> usize
    requires { (most ≤ length a.now) × (most ≤ length b.now) }
    ensures { (result ≤ most) × (take result a.now ≡ take result b.now) }
{
    let mut i = 0;
    // Stays: `zip` of the two `chunks_exact(8)` was tried, and misses the speed of this loop: a search took a quarter longer.
    while 8 <= most - i {
        let next = i + 8;
        if !eight::is_equal(&a[i..next], &b[i..next]) {
            break;
        }
        i = next;
    }
    i
}

// The order of a name and the one in a name field. None of the first `filled` bytes of the name is zero.
#[tactic(auto, using(crate::proofs::Beside::beside))]
fn order_of(name: &[u8], filled: usize, field: &[u8]) -> Ordering
    requires { (filled ≤ span NonZero name.now) × (filled ≤ length field.now) }
    ensures { result ≡ compared name.now (unpadded field.now) }
{
    for i in shared(name, field, filled)..name.len() {
        let a = name[i];
        let b = bytes::byte_at(field, Offset(i));
        if a < b {
            return Ordering::Less;
        }
        if b < a || b == 0 {
            return Ordering::Greater;
        }
    }
    if bytes::byte_at(field, Offset(name.len())) == 0 {
        Ordering::Equal
    } else {
        Ordering::Less
    }
}

// A round compares the name with one record's, that in the middle.
#[tactic(auto, using(crate::proofs::Steps::turning))]
fn search(table: &[u8], name: &[u8]) -> Found
    ensures { result ≡ halving (records table.now) name.now }
{
    let filled = filled_bytes(name);
    let mut low = 0;
    let mut high = table.len() / 128;
    let mut rounds = 0;
    // Stays: the clause of `find` and the theorems on rounds (at_most_ten) count the comparisons, which `binary_search_by` doesn't tell.
    while low < high {
        let middle = low + (high - low) / 2;
        let at = 128 * middle;
        let end = at + 64;
        rounds += 1;
        match order_of(name, filled, &table[at..end]) {
            Ordering::Less => high = middle,
            Ordering::Equal => {
                return Found {
                    at: Some(middle),
                    rounds,
                };
            }
            Ordering::Greater => low = middle + 1,
        }
    }
    Found { at: None, rounds }
}

// The record under a name. No record's name is longer than 64 bytes, so the rest of a longer name is not even handed on.
#[tactic(auto, using(crate::proofs::Beginning::first_bytes_decide))]
pub fn find(table: &[u8], name: &[u8]) -> Found
    ensures { result ≡ halving (records table.now) name.now }
{
    search(table, parts::part(name, Offset(0), 65))
}

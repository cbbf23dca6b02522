// The setting under a name in a table of settings.
#![tactic(auto)]

ghost use Rattle.std.specs.Prelude.{◌≡◌, ◌+◌, ◌*◌, ◌^◌, ◌<◌, ◌≤◌, length, ◌++◌, take, drop};
ghost use Rattle.settings.specs.Table.{length_byte};
ghost use Rattle.lookup.specs.Setting.{value_of, in_table, clipped, value_at, setting_under, start_of, moved as moved_by, Looked, LooksUp};

use text::eight;
use units::Offset;

// The memory that a string is in.
#[derive(Clone, Copy)]
pub enum Home {
    Expression,
    Table,
}

// The place of a string: a part of its home.
// Stays: that a place in a table is within one record (`InRecord`) is no ghost field, since `value_at` and `moved` of specs/ make places at any byte.
#[derive(Clone, Copy)]
pub struct Place {
    pub home: Home,
    pub start: Offset,
    pub len: usize,
}

// The kinds of strings.
#[derive(Clone, Copy)]
pub enum TextKind {
    String,
    Wide,
}

// A value.
#[derive(Clone, Copy)]
pub enum Value {
    Number(u64),
    Text(TextKind, Place),
}

// The value of a name that may be set; one that is not set has the number 0.
pub fn value_of(setting: Option<Value>) -> Value
    ensures { result ≡ value_of setting }
{
    setting.unwrap_or(Value::Number(0))
}

// The place of the content of a record that begins at `at` in the table. Its byte 65 has the length, which is at most 56 in a plain record.
fn content_place(at: Offset, r: &[u8]) -> Place
    requires { (length r.now ≡ 128) × (at.0 + 72 < 2 ^ 64) }
    ensures { result ≡ in_table (at.0 + 72) (clipped (length_byte r.now)) }
{
    Place {
        home: Home::Table,
        start: Offset(at.0 + 72),
        len: usize::from(r[65]).min(56),
    }
}

// The value of a record that begins at `at` in the table. A plain record has one of the three kinds.
#[tactic(auto, using(crate::proofs::Numbers::number_there), unfolding(crate::specs::Setting::value_at))]
fn value_at(at: Offset, r: &[u8]) -> Value
    requires { (length r.now ≡ 128) × (at.0 + 72 < 2 ^ 64) }
    ensures { result ≡ value_at at.0 r.now }
{
    match r[64] {
        0 => Value::Number(eight::number(&r[72..80])),
        1 => Value::Text(TextKind::String, content_place(at, r)),
        2 => Value::Text(TextKind::Wide, content_place(at, r)),
        _ => Value::Number(0),
    }
}

// The value of the record with this number, counted from 0.
fn value_of_record(table: &[u8], i: usize) -> Value
    requires { 128 * i + 128 ≤ length table.now }
    ensures { result ≡ value_at (128 * i) (take 128 (drop (128 * i) table.now)) }
{
    let at = 128 * i;
    value_at(Offset(at), &table[at..at + 128])
}

// The setting under a name in a table: its value, if the name is set.
#[tactic(auto, using(crate::proofs::Halved::nothing, crate::proofs::Halved::inside))]
pub fn lookup(table: &[u8], name: &[u8]) -> Option<Value>
    ensures { LooksUp table.now name.now result }
{
    let i = halving::find(table, name).at?;
    Some(value_of_record(table, i))
}

// The value in a table that has this many bytes in front of it.
fn moved(front: usize, v: Value) -> Value
    requires { start_of v + front < 2 ^ 64 }
    ensures { result ≡ moved_by front v }
{
    match v {
        Value::Number(_) => v,
        Value::Text(kind, place) => {
            let start = Offset(place.start.0 + front);
            Value::Text(kind, Place { start, ..place })
        }
    }
}

// The settings that a line sees: records that lines before it made, in front of an ordered table.
#[derive(Clone, Copy)]
pub struct Settings<'a> {
    pub own: &'a [u8],
    pub table: &'a [u8],
    ghost looked: { Looked own.now table.now },
}

impl<'a> Settings<'a> {
    // The setting under a name: that of the first of the records with the name, else the table's.
    #[tactic(auto, using(crate::proofs::InFront::own_inside, crate::proofs::InFront::in_front, crate::proofs::InFront::not_in_front))]
    pub fn get(self, name: &[u8]) -> Option<Value>
        ensures { result ≡ setting_under (self.entry.own.now ++ self.entry.table.now) name.now }
    {
        // Most files make no settings of their own.
        if self.own.is_empty() {
            return lookup(self.table, name);
        }
        if let Some(i) = own::index_of(self.own, name) {
            return Some(value_of_record(self.own, i));
        }
        let value = lookup(self.table, name)?;
        Some(moved(self.own.len(), value))
    }
}

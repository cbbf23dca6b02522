// The calls on a table of settings.
ghost use Rattle.std.specs.Prelude.{◌≡◌, true};
ghost use Rattle.units.specs.Refusals.{TABLE_MALFORMED};
ghost use Rattle.text.specs.Bytes.{pick};
ghost use Rattle.text.specs.Parts.{stored};
ghost use Rattle.settings.specs.Table.{ordered, well_formed};
ghost use Rattle.lookup.specs.Setting.{setting_under};
ghost use Rattle.value.specs.Kinds.{kind_number, of_text};
ghost use Rattle.marshal.specs.Calls.{value_shown, setting_shown, Shows};
ghost use Rattle.units.specs.declared.Reason.TheVariants.{TableMalformed};

use lookup::Value;
use units::Reason;
use value::Kind;

// 0 if the table is well formed, else 1.
pub fn check(table: &[u8]) -> u8
    ensures { result ≡ pick (well_formed table.now) 0 TABLE_MALFORMED }
{
    if settings::is_well_formed(table) {
        0
    } else {
        Reason::TableMalformed.into()
    }
}

// A setting as three numbers: its kind, its number or the start of its string, and the length of the string; 255 if it is missing.
fn shown(setting: Option<Value>) -> [u64; 3]
    ensures { result ≡ setting_shown setting }
{
    match setting {
        Some(Value::Number(x)) => [0, x, 0],
        Some(Value::Text(kind, place)) => {
            let number = Kind::from(kind).number();
            [u64::from(number), place.start.0 as u64, place.len as u64]
        }
        None => [255, 0, 0],
    }
}

// The setting under a name: 0 and the setting in `out`; or 1 if the table is malformed, and `out` as it was.
pub fn look_up(table: &[u8], name: &[u8], out: &mut [u64; 3]) -> u8
    ensures { Shows table.now name.now out.old result out.new }
{
    if !settings::is_well_formed(table) {
        return Reason::TableMalformed.into();
    }
    *out = shown(lookup::lookup(table, name));
    0
}

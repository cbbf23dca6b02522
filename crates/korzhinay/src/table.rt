// The check of a table.
ghost use Rattle.std.specs.Prelude.{◌≡◌};
ghost use Rattle.units.specs.Refusals.{TABLE_MALFORMED};
ghost use Rattle.text.specs.Bytes.{pick};
ghost use Rattle.settings.specs.Table.{well_formed};

// 0 if the table is well formed, else 1.
pub fn korzhinay_table(table: &[u8]) -> u8
    ensures { result ≡ pick (well_formed table.now) 0 TABLE_MALFORMED }
{
    marshal::tables::check(table)
}

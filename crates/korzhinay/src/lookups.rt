// The setting under a name.
ghost use Rattle.marshal.specs.Calls.{Shows};

// The setting under a name: 0 and the setting in `out`; or 1 if the table is malformed, and `out` as it was.
pub fn korzhinay_lookup(table: &[u8], name: &[u8], out: &mut [u64; 3]) -> u8
    ensures { Shows table.now name.now out.old result out.new }
{
    marshal::tables::look_up(table, name, out)
}

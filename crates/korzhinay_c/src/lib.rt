// The static library that C, Rust and Python link: one exported function for each call of the crate `korzhinay`, with the call's name,
// parameters and promise. include/korzhinay.h declares them.
#![tactic(auto)]

ghost use Rattle.std.specs.Prelude.{◌≡◌};
ghost use Rattle.units.specs.Refusals.{TABLE_MALFORMED};
ghost use Rattle.text.specs.Bytes.{pick};
ghost use Rattle.settings.specs.Table.{well_formed};
ghost use Rattle.token.specs.Tokens.{reading};
ghost use Rattle.marshal.specs.Calls.{dialect_of, Shows, Lists, Answers, Fills, Marks};

use korzhinay::{evaluate, fields, lookups, selections, table, tokens};

// 0 if the table is well formed, else 1.
#[unsafe(no_mangle)]
pub extern "C" fn korzhinay_table(table: &[u8]) -> u8
    ensures { result ≡ pick (well_formed table.now) 0 TABLE_MALFORMED }
{
    table::korzhinay_table(table)
}

// The setting under a name: 0 and the setting in `out`; or 1 if the table is malformed, and `out` as it was.
#[unsafe(no_mangle)]
pub extern "C" fn korzhinay_lookup(table: &[u8], name: &[u8], out: &mut [u64; 3]) -> u8
    ensures { Shows table.now name.now out.old result out.new }
{
    lookups::korzhinay_lookup(table, name, out)
}

// The tokens of an expression: the refusal number or 0, the number of tokens that were read, the offset of the refusal or 0, and the codes,
// starts, lengths and values of the tokens.
// Bit 0 of `dialect` is the edition, 1 for the old one.
#[unsafe(no_mangle)]
pub extern "C" fn korzhinay_tokens(
    expr: &[u8],
    dialect: u8,
    out: &mut [u64; 3],
    codes: &mut [u8; 200],
    starts: &mut [u16; 200],
    lens: &mut [u16; 200],
    values: &mut [u64; 200],
)
    ensures { Lists (reading expr.now (dialect_of dialect)) out.old codes.old starts.old lens.old values.old out.new codes.new starts.new lens.new values.new }
{
    tokens::korzhinay_tokens(expr, dialect, out, codes, starts, lens, values)
}

// The value of an expression over a table: 0 and the value in `out`; or the refusal number, and `out` is all zeros except for the offset of
// the refusal, its last entry.
// Bit 0 of `dialect` is the edition, 1 for the old one.
#[unsafe(no_mangle)]
pub extern "C" fn korzhinay_evaluate<'a>(
    expr: &'a [u8],
    table: &'a [u8],
    dialect: u8,
    out: &mut [u64; 7],
) -> u8
    ensures { Answers expr.now table.now (dialect_of dialect) out.old result out.new }
{
    evaluate::korzhinay_evaluate(expr, table, dialect, out)
}

// The bytes of a data field: 0, the length of the field in `out`, and the field at the front of `buffer`; or the refusal number, its offset in
// `out`, and `buffer` as it was.
// Bit 0 of `dialect` is the edition, 1 for the old one.
#[unsafe(no_mangle)]
pub extern "C" fn korzhinay_field<'a>(
    buffer: &mut [u8],
    expr: &'a [u8],
    table: &'a [u8],
    datum: u8,
    dialect: u8,
    out: &mut [u64; 2],
) -> u8
    ensures { Fills expr.now table.now datum (dialect_of dialect) buffer.old out.old result buffer.new out.new }
{
    fields::korzhinay_field(buffer, expr, table, datum, dialect, out)
}

// Marks the lines of a file: 0, and the number of lines and the sum of counts in `out`; or the refusal number, its line and its offset there
// in `out`, and every mark 255.
// Bit 0 of `dialect` is the edition, 1 for the old one.
#[unsafe(no_mangle)]
pub extern "C" fn korzhinay_select<'a>(
    marks: &mut [u8],
    file: &'a [u8],
    table: &'a [u8],
    dialect: u8,
    out: &mut [u64; 4],
) -> u8
    ensures { Marks file.now table.now (dialect_of dialect) marks.old out.old result marks.new out.new }
{
    selections::korzhinay_select(marks, file, table, dialect, out)
}

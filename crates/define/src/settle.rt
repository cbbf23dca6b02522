// The setting that a DEFINE line makes, or its refusal. The settings so far are the first `used` bytes of a buffer, which takes the new one.
// Stays: `Running` of the crate progress, which is repr(C), holds the number of used bytes, and its caller lends the buffer beside it.
ghost use Rattle.std.specs.Prelude.{◌≡◌, true, List, ◌%◌, ◌≤◌, length, take, MatchResult, OnErr};
ghost use Rattle.settings.specs.Table.{ordered};
ghost use Rattle.own.specs.Own.{Own};
ghost use Rattle.own.specs.Putting.{Holds, IsSetting};
ghost use Rattle.lookup.specs.Setting.{InRecord};
ghost use Rattle.value.specs.Places.{over_all, bytes_at};
ghost use Rattle.evaluation.specs.Evaluation.{denote_answer};
ghost use Rattle.define.specs.Define.{of_text, limited, limited_text, of_answer, definition_of};
ghost use Rattle.define.specs.Settling.{Handed, Does};

use crate::{Defined, shape};
use condition::places;
use evaluation::{Evaluated, outcome};
use lookup::{Place, Settings, TextKind, Value};
use own::Content;
use text::runs::Set;
use text::{parts, runs};
use units::{Dialect, Fault, Offset, Reason, Refusal};
use value::{Kind, Memory, Strings};

// Puts a setting to those so far: refused if there is no room for another name.
fn put(
    own: &mut [u8; 8192],
    used: usize,
    name: &[u8],
    content: &Content,
    count: usize,
) -> Result<Defined, Fault>
    requires { used ≤ 8192 }
    ensures used_bound { MatchResult result (λ z. z.used ≤ 8192) (λ f. Unit) × (length own.new ≡ 8192) }
    ensures does { (x : Own) (o : List Own) → IsSetting x name.now content.now.kind content.now.len content.now.bytes → Holds own.old used o → Does (limited o x count) o own.new result }
    ensures unchanged { OnErr result (own.new ≡ own.old) }
{
    let used = own::put(own, used, name, content).ok_or(Reason::DefinedMany)?;
    Ok(Defined { used, count })
}

// The largest number of bytes in a string that is set.
const MAX_CONTENT: usize = 56;

// Sets a macro to a string, which may be a part of the settings so far.
fn put_text<'a>(
    own: &mut [u8; 8192],
    used: usize,
    table: &'a [u8],
    expr: &'a [u8],
    name: &[u8],
    kind: TextKind,
    p: Place,
    count: usize,
) -> Result<Defined, Fault>
    requires { (used ≤ 8192) × (used % 128 ≡ 0) × (length own.old ≡ 8192) × InRecord p }
    ensures used_bound { MatchResult result (λ z. z.used ≤ 8192) (λ f. Unit) × (length own.new ≡ 8192) }
    ensures does { (o : List Own) → Holds own.old used o → Does (limited_text o (of_text name.now kind (bytes_at (over_all expr.now (take used own.old) table.now) p)) count) o own.new result }
    ensures unchanged { OnErr result (own.new ≡ own.old) }
{
    let strings = Strings {
        expr,
        own: &own[..used],
        table,
    };
    let s = strings.bytes(p);
    if MAX_CONTENT < s.len() {
        return Err(Reason::DefinedLong.into());
    }
    let content = Content {
        kind: Kind::from(kind).number(),
        len: s.len() as u8,
        bytes: own::text_content(s),
    };
    put(own, used, name, &content, count)
}

// Sets a macro to the answer to an expression that starts at this byte of its line.
#[tactic(auto, unfolding(crate::specs::Define::of_answer))]
fn of_answer<'a>(
    own: &mut [u8; 8192],
    used: usize,
    table: &'a [u8],
    expr: &'a [u8],
    name: &[u8],
    start: Offset,
    answer: Result<Evaluated, Refusal>,
) -> Result<Defined, Fault>
    requires { (used ≤ 8192) × (used % 128 ≡ 0) × Handed start.0 answer × (length own.old ≡ 8192) }
    ensures used_bound { MatchResult result (λ z. z.used ≤ 8192) (λ f. Unit) × (length own.new ≡ 8192) }
    ensures does { (o : List Own) → Holds own.old used o → Does (of_answer o name.now start.0 (denote_answer (over_all expr.now (take used own.old) table.now) answer)) o own.new result }
    ensures unchanged { OnErr result (own.new ≡ own.old) }
{
    match answer {
        Err(refusal) => {
            let fault = Fault {
                reason: refusal.reason,
                at: refusal.offset,
            };
            Err(places::moved(fault, start))
        }
        Ok(Evaluated { value, count }) => match value {
            Value::Number(x) => {
                let content = Content {
                    kind: Kind::Number.number(),
                    len: 8,
                    bytes: own::number_content(x),
                };
                put(own, used, name, &content, count)
            }
            Value::Text(kind, p) => put_text(own, used, table, expr, name, kind, p, count),
        },
    }
}

// Sets the macro of a line that is kept and has the first word `DEFINE`. Out of line, so that the loop over the lines of a file keeps its
// registers.
#[inline(never)]
#[tactic(auto, using(crate::proofs::Answers::answer_handed, crate::proofs::Answers::text_fits), unfolding(crate::specs::Define::definition_of))]
pub fn define<'a>(
    own: &mut [u8; 8192],
    used: usize,
    table: &'a [u8],
    line: &'a [u8],
    dialect: Dialect,
) -> Result<Defined, Fault>
    requires { (used ≤ 8192) × (used % 128 ≡ 0) × (ordered table.now ≡ true) × (length own.old ≡ 8192) }
    ensures used_bound { MatchResult result (λ z. z.used ≤ 8192) (λ f. Unit) × (length own.new ≡ 8192) }
    ensures does { (o : List Own) → Holds own.old used o → Does (definition_of o table.now line.now dialect) o own.new result }
    ensures unchanged { OnErr result (own.new ≡ own.old) }
{
    let first = runs::run_end(line, Offset(0), Set::Blanks);
    let split = shape::split(line, first).ok_or(Reason::TextMalformed)?;
    let expr = &line[split.text.0..];
    let rules = Dialect {
        bars: false,
        old: dialect.old,
    };
    let settings = Settings {
        own: &own[..used],
        table,
    };
    let answer = outcome::evaluate_in(Memory { expr, settings }, rules);
    let name = parts::part(line, split.name, split.len);
    of_answer(own, used, table, expr, name, split.text, answer)
}

// The directive of a line by its word, and the text after the word.
ghost use Rattle.std.specs.Prelude.{◌≡◌, true, false, ◌≤◌, length};
ghost use Rattle.line.specs.Directives.{words, named as named_in, text_start, is_define, directive_of};
ghost use Rattle.line.specs.declared.Directive.TheVariants.{Plain};
ghost use Rattle.line.specs.Cutting.{ReadsHead, HandsText};

use crate::{Directive, Head};
use text::runs::Set;
use text::{bytes, order, runs};
use units::Offset;

// The directive of a word. An `!include` and an `!error` leave a line plain.
#[tactic(auto, using(crate::proofs::Words::named_reads, std::proofs::lemmas::Bool::Decides::nat_tests))]
fn named(w: &[u8]) -> Directive
    ensures { result ≡ named_in words w.now }
{
    match w {
        b"if" => Directive::If,
        b"ifdef" => Directive::Ifdef,
        b"ifndef" => Directive::Ifndef,
        b"elseif" | b"elif" => Directive::Elseif,
        b"else" => Directive::Else,
        b"endif" => Directive::Endif,
        b"include" | b"error" => Directive::Plain,
        _ => Directive::Unknown,
    }
}

// Whether the first byte of a line that is no blank shows that the line is plain and sets no macro.
pub fn is_other(line: &[u8]) -> bool
    ensures { result ≡ true → (directive_of line.now ≡ Plain) × (is_define line.now ≡ false) }
{
    let first = runs::run_end(line, Offset(0), Set::Blanks);
    !matches!(bytes::byte_at(line, first), b'!' | b'D')
}

// Whether the first word of a line is `DEFINE`.
pub fn is_define(line: &[u8]) -> bool
    ensures { result ≡ is_define line.now }
{
    let first = runs::run_end(line, Offset(0), Set::Blanks);
    let end = runs::run_end(line, first, Set::Word);
    order::is_equal(&line[first.0..end.0], b"DEFINE")
}

// The directive of a line, and the start of the text after its word. For a plain line the start is any place within the line.
pub fn read_head(line: &[u8]) -> Head
    ensures { ReadsHead line.now result }
{
    let first = runs::run_end(line, Offset(0), Set::Blanks);
    if bytes::byte_at(line, first) != b'!' {
        return Head {
            directive: Directive::Plain,
            text: Offset(0),
        };
    }
    let start = first.0 + 1;
    let text = runs::run_end(line, Offset(start), Set::Letters);
    let directive = named(&line[start..text.0]);
    Head { directive, text }
}

// The text after the word of a line, up to the end of the line.
pub fn text(line: &[u8], from: Offset) -> &[u8]
    requires { from.0 ≤ length line.now }
    ensures { from.0 ≡ text_start line.now → HandsText line.entry result }
{
    &line[from.0..]
}

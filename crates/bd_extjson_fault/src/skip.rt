//! The tokens of JSON (RFC 8259), skipped one by one, with the first byte that cannot continue.
ghost use Rattle.std.specs.Prelude.{◌≡◌, ◌<◌, ◌≤◌, ◌-◌, ◌==◌, length, drop, IfOk, MatchResult};
ghost use Rattle.bd_extjson_fault.specs.JsonSyntax.{begins, is_decimal, beyond_all, beyond_white, beyond_word, beyond_digits};
ghost use Rattle.bd_extjson_fault.specs.inside.JsonSyntax.{IsAnswer};
ghost use Rattle.bd_extjson_fault.specs.JsonSyntax.{beyond_natural, beyond_fraction, beyond_number, beyond_exponent, beyond_hex};
ghost use Rattle.bd_extjson_fault.specs.JsonSyntax.{beyond_unit, beyond_low, beyond_units, beyond_character, beyond_string, beyond_name};
ghost use Rattle.bd_extjson_fault.specs.TreeFault.{quoted_name};
ghost use Rattle.bd_extjson_fault.specs.declared.skip.StopKind.TheVariants as kinds;

/// Why a text is not JSON.
#[derive(Clone, Copy, Debug, Drop, PartialEq, Eq)]
pub(crate) enum StopKind {
    /// It cannot continue with this byte, or it ends too soon.
    Syntax,
    /// This bracket is nested too deep.
    TooDeep,
    /// A value ended before it.
    TrailingText,
}

/// Where a text is not JSON: the number of bytes from there to its end.
#[derive(Clone, Copy, Debug, Drop, PartialEq, Eq)]
pub(crate) struct Stop {
    pub kind: StopKind,
    pub remaining: usize,
}

impl Stop {
    /// At the first byte of the rest of the text.
    pub fn at(rest: &[u8], kind: StopKind) -> Stop
        ensures { result ≡ record { kind = kind; remaining = length rest.now } }
    {
        let remaining = rest.len();
        Stop { kind, remaining }
    }

    pub fn syntax(rest: &[u8]) -> Stop
        ensures { result ≡ record { kind = kinds.Syntax; remaining = length rest.now } }
    {
        Stop::at(rest, StopKind::Syntax)
    }
}

/// Is that byte next?
pub(crate) fn begins(text: &[u8], byte: u8) -> bool
    ensures { result ≡ begins (λ b. b == byte) text.now }
{
    matches!(text, [first, ..] if *first == byte)
}

/// The text after the first byte.
pub(crate) fn skip_byte(text: &[u8]) -> &[u8]
    ensures beyond { result.now ≡ drop 1 text.now }
    ensures shorter { length result.now ≡ length text.now - 1 }
{
    match text {
        [_, tail @ ..] => tail,
        [] => text,
    }
}

/// The text after white space.
#[tactic(auto, unfolding(crate::specs::JsonSyntax::beyond_all))]
pub(crate) fn skip_white(text: &[u8]) -> &[u8]
    ensures beyond { result.now ≡ beyond_white text.now }
    ensures shorter { length result.now ≤ length text.now }
{
    let mut rest = text;
    while let [b' ' | b'\t' | b'\n' | b'\r', tail @ ..] = rest {
        rest = tail;
    }
    rest
}

/// The text after a literal.
#[tactic(auto, unfolding(crate::specs::JsonSyntax::beyond_word))]
pub(crate) fn skip_word<'a>(text: &'a [u8], word: &[u8]) -> Result<&'a [u8], Stop>
    ensures beyond { IsAnswer (λ x. x.now) result (beyond_word word.now text.now) }
    ensures shorter { MatchResult result (λ rest. length rest.now ≤ length text.now)
        (λ stop. stop.remaining ≤ length text.now) }
{
    let (mut rest, mut remaining) = (text, word);
    while let [wanted, more @ ..] = remaining {
        match rest {
            [byte, tail @ ..] if byte == wanted => rest = tail,
            _ => return Err(Stop::syntax(rest)),
        }
        remaining = more;
    }
    Ok(rest)
}

/// The text after digits.
#[tactic(auto, unfolding(crate::specs::JsonSyntax::beyond_all))]
fn skip_all_digits(text: &[u8]) -> &[u8]
    ensures beyond { result.now ≡ beyond_all is_decimal text.now }
    ensures shorter { length result.now ≤ length text.now }
{
    let mut rest = text;
    while let [b'0'..=b'9', tail @ ..] = rest {
        rest = tail;
    }
    rest
}

/// The text after at least one digit.
#[tactic(auto, unfolding(crate::specs::JsonSyntax::beyond_digits, crate::specs::JsonSyntax::beyond_all))]
fn skip_digits(text: &[u8]) -> Result<&[u8], Stop>
    ensures beyond { IsAnswer (λ x. x.now) result (beyond_digits text.now) }
    ensures shorter { MatchResult result (λ rest. length rest.now < length text.now)
        (λ stop. stop.remaining ≤ length text.now) }
{
    match text {
        [b'0'..=b'9', tail @ ..] => Ok(skip_all_digits(tail)),
        _ => Err(Stop::syntax(text)),
    }
}

/// The text after a number without sign, fraction and exponent: no digit follows a leading zero.
#[tactic(auto, unfolding(crate::specs::JsonSyntax::beyond_natural))]
fn skip_natural(text: &[u8]) -> Result<&[u8], Stop>
    ensures beyond { IsAnswer (λ x. x.now) result (beyond_natural text.now) }
    ensures shorter { MatchResult result (λ rest. length rest.now < length text.now)
        (λ stop. stop.remaining ≤ length text.now) }
{
    match text {
        [b'0', tail @ ..] => Ok(tail),
        _ => skip_digits(text),
    }
}

#[tactic(auto, unfolding(crate::specs::JsonSyntax::beyond_fraction))]
fn skip_fraction(text: &[u8]) -> Result<&[u8], Stop>
    ensures beyond { IsAnswer (λ x. x.now) result (beyond_fraction text.now) }
    ensures shorter { MatchResult result (λ rest. length rest.now ≤ length text.now)
        (λ stop. stop.remaining ≤ length text.now) }
{
    match text {
        [b'.', digits @ ..] => skip_digits(digits),
        _ => Ok(text),
    }
}

#[tactic(auto, unfolding(crate::specs::JsonSyntax::beyond_exponent))]
fn skip_exponent(text: &[u8]) -> Result<&[u8], Stop>
    ensures beyond { IsAnswer (λ x. x.now) result (beyond_exponent text.now) }
    ensures shorter { MatchResult result (λ rest. length rest.now ≤ length text.now)
        (λ stop. stop.remaining ≤ length text.now) }
{
    match text {
        [b'e' | b'E', b'+' | b'-', digits @ ..] => skip_digits(digits),
        [b'e' | b'E', digits @ ..] => skip_digits(digits),
        _ => Ok(text),
    }
}

/// The text after a number (section 6).
#[tactic(auto, unfolding(crate::specs::JsonSyntax::beyond_number))]
pub(crate) fn skip_number(text: &[u8]) -> Result<&[u8], Stop>
    ensures beyond { IsAnswer (λ x. x.now) result (beyond_number text.now) }
    ensures shorter { MatchResult result (λ rest. length rest.now < length text.now)
        (λ stop. stop.remaining ≤ length text.now) }
{
    let fraction = match text {
        [b'-', tail @ ..] => skip_natural(tail)?,
        _ => skip_natural(text)?,
    };
    let exponent = skip_fraction(fraction)?;
    skip_exponent(exponent)
}

/// The value of a hexadecimal digit, and the text after it.
#[tactic(auto, unfolding(crate::specs::JsonSyntax::beyond_hex))]
fn skip_hex(text: &[u8]) -> Result<(u32, &[u8]), Stop>
    ensures beyond { IsAnswer (λ x. (x.0, x.1.now)) result (beyond_hex text.now) }
    ensures digit { IfOk result (λ x. x.0 < 16) }
    ensures shorter { MatchResult result (λ x. length x.1.now < length text.now)
        (λ stop. stop.remaining ≤ length text.now) }
{
    let [byte, tail @ ..] = text else {
        return Err(Stop::syntax(text));
    };
    match char::from(*byte).to_digit(16) {
        Some(digit) => Ok((digit, tail)),
        None => Err(Stop::syntax(text)),
    }
}

/// The number of an escape of four digits, and the text after it.
#[tactic(auto, unfolding(crate::specs::JsonSyntax::beyond_unit))]
fn skip_unit(text: &[u8]) -> Result<(u32, &[u8]), Stop>
    ensures beyond { IsAnswer (λ x. (x.0, x.1.now)) result (beyond_unit text.now) }
    ensures shorter { MatchResult result (λ x. length x.1.now < length text.now)
        (λ stop. stop.remaining ≤ length text.now) }
{
    let digits = skip_word(text, b"\\u")?;
    let (a, after_a) = skip_hex(digits)?;
    let (b, after_b) = skip_hex(after_a)?;
    let (c, after_c) = skip_hex(after_b)?;
    let (d, rest) = skip_hex(after_c)?;
    Ok((a * 4096 + b * 256 + c * 16 + d, rest))
}

/// The text after a low surrogate, which must follow a high one. Without it the high one is a fault, unless the text ends first.
#[tactic(auto, unfolding(crate::specs::JsonSyntax::beyond_low))]
fn skip_low<'a>(high: &[u8], text: &'a [u8]) -> Result<&'a [u8], Stop>
    ensures beyond { IsAnswer (λ x. x.now) result (beyond_low high.now (beyond_unit text.now)) }
    ensures shorter { MatchResult result (λ rest. length rest.now < length text.now)
        (λ stop. stop.remaining ≤ length high.now) }
{
    match skip_unit(text) {
        Ok((0xdc00..=0xdfff, rest)) => Ok(rest),
        Err(stop) if stop.remaining == 0 => Err(stop),
        _ => Err(Stop::syntax(high)),
    }
}

/// The text after an escape of four digits, or after two that are a pair of surrogates.
#[tactic(auto, unfolding(crate::specs::JsonSyntax::beyond_units))]
fn skip_units(text: &[u8]) -> Result<&[u8], Stop>
    ensures beyond { IsAnswer (λ x. x.now) result (beyond_units text.now) }
    ensures shorter { MatchResult result (λ rest. length rest.now < length text.now)
        (λ stop. stop.remaining ≤ length text.now) }
{
    let (unit, rest) = skip_unit(text)?;
    match unit {
        0xd800..=0xdbff => skip_low(text, rest),
        0xdc00..=0xdfff => Err(Stop::syntax(text)),
        _ => Ok(rest),
    }
}

/// The text after a character of a string.
#[tactic(auto, unfolding(crate::specs::JsonSyntax::beyond_character, crate::specs::JsonSyntax::beyond_escape))]
fn skip_character(text: &[u8]) -> Result<&[u8], Stop>
    ensures beyond { IsAnswer (λ x. x.now) result (beyond_character text.now) }
    ensures shorter { MatchResult result (λ rest. length rest.now < length text.now)
        (λ stop. stop.remaining ≤ length text.now) }
{
    match text {
        [b'\\', b'u', ..] => skip_units(text),
        [
            b'\\',
            b'"' | b'\\' | b'/' | b'b' | b'f' | b'n' | b'r' | b't',
            tail @ ..,
        ] => Ok(tail),
        [b'\\', tail @ ..] => Err(Stop::syntax(tail)),
        [] | [0..=31, ..] => Err(Stop::syntax(text)),
        [_, tail @ ..] => Ok(tail),
    }
}

/// The text after a string (section 7), in a text that begins after its first quotation mark.
#[tactic(auto, unfolding(crate::specs::JsonSyntax::beyond_string))]
pub(crate) fn skip_string(text: &[u8]) -> Result<&[u8], Stop>
    ensures beyond { IsAnswer (λ x. x.now) result (beyond_string text.now) }
    ensures shorter { MatchResult result (λ rest. length rest.now ≤ length text.now)
        (λ stop. stop.remaining ≤ length text.now) }
{
    let mut rest = text;
    while !begins(rest, b'"') {
        rest = skip_character(rest)?;
    }
    Ok(skip_byte(rest))
}

/// The name of a member, as the text has it.
#[derive(Clone, Copy, Drop)]
pub(crate) struct Key<'a> {
    /// With its quotation marks.
    pub quoted: &'a [u8],
    /// From its opening quotation mark to the text's end.
    pub from: &'a [u8],
    /// The text after the colon.
    pub rest: &'a [u8],
}

/// The next name, with its colon.
#[tactic(auto, unfolding(crate::specs::JsonSyntax::beyond_name, crate::specs::JsonSyntax::beyond_word, crate::specs::TreeFault::quoted_name))]
pub(crate) fn skip_key(text: &[u8]) -> Result<Key<'_>, Stop>
    ensures beyond { IsAnswer (λ key. key.rest.now) result (beyond_name text.now) }
    ensures quoted { IfOk result (λ key. key.quoted.now ≡ quoted_name text.now) }
    ensures from { IfOk result (λ key. key.from.now ≡ beyond_white text.now) }
    ensures shorter { MatchResult result (λ key. length key.rest.now < length text.now)
        (λ stop. stop.remaining ≤ length text.now) }
{
    let from = skip_white(text);
    let [b'"', inside @ ..] = from else {
        return Err(Stop::syntax(from));
    };
    let after = skip_string(inside)?;
    let quoted = &from[..from.len() - after.len()];
    match skip_white(after) {
        [b':', rest @ ..] => Ok(Key { quoted, from, rest }),
        colon => Err(Stop::syntax(colon)),
    }
}

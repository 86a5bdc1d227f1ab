//! Appending the bytes of numbers, texts, operators and kinds.

ghost use Rattle.std.specs.{Prelude.{◌≡◌, ◌++◌, OnOk}, Fmt.{signed_decimal}};
ghost use Rattle.contract_tokens.specs.Lexemes.{literal_body, escape, is_escaped};
ghost use Rattle.contract_print.specs.Canonical.{sign_text, kind_text};

use contract_tree::{Sign, ValueKind};
use lc_base::Memory;
use std::alloc::Global;

/// Appends the bytes.
pub fn put(out: &mut Vec<u8>, bytes: &[u8]) -> Result<(), Memory>
    ensures { OnOk result (out.new.items ≡ out.old.items ++ bytes.now) }
{
    out.extend_from_slice(bytes)?;
    Ok(())
}

/// Appends a number in decimal digits, after a `-` if it is negative.
pub fn put_int(alloc: Global, out: &mut Vec<u8>, value: i64) -> Result<(), Memory>
    ensures { OnOk result (out.new.items ≡ out.old.items ++ signed_decimal value) }
{
    let digits = value.to_string(alloc)?;
    put(out, digits.as_bytes())
}

fn put_escaped(out: &mut Vec<u8>, byte: u8) -> Result<(), Memory>
    ensures { OnOk result (out.new.items ≡ out.old.items ++ escape (is_escaped byte) byte) }
{
    if byte == b'"' || byte == b'\\' {
        out.push(b'\\')?;
    }
    out.push(byte)?;
    Ok(())
}

/// Appends the literal of a text, without its quotes.
pub fn put_text(out: &mut Vec<u8>, text: &[u8]) -> Result<(), Memory>
    ensures { OnOk result (out.new.items ≡ out.old.items ++ literal_body text.now) }
{
    for byte in text {
        put_escaped(out, *byte)?;
    }
    Ok(())
}

fn sign_bytes(sign: Sign) -> &'static [u8]
    ensures { result.now ≡ sign_text sign }
{
    match sign {
        Sign::Or => b"||",
        Sign::And => b"&&",
        Sign::Equal => b"==",
        Sign::NotEqual => b"!=",
        Sign::Less => b"<",
        Sign::LessEqual => b"<=",
        Sign::Greater => b">",
        Sign::GreaterEqual => b">=",
        Sign::Concat => b"++",
        Sign::Plus => b"+",
        Sign::Minus => b"-",
        Sign::Star => b"*",
        Sign::Slash => b"/",
        Sign::Percent => b"%",
        Sign::Not => b"!",
    }
}

/// Appends an operator.
pub fn put_sign(out: &mut Vec<u8>, sign: Sign) -> Result<(), Memory>
    ensures { OnOk result (out.new.items ≡ out.old.items ++ sign_text sign) }
{
    put(out, sign_bytes(sign))
}

/// Appends the keyword of a kind of values.
pub fn put_kind(out: &mut Vec<u8>, kind: ValueKind) -> Result<(), Memory>
    ensures { OnOk result (out.new.items ≡ out.old.items ++ kind_text kind) }
{
    match kind {
        ValueKind::Int => put(out, b"int"),
        ValueKind::Text => put(out, b"text"),
    }
}

//! Writing the fields of blocks, entries and proofs. If memory runs out, a part of a field may
//! follow what was written before.

ghost use Rattle.std.specs.{
  Prelude.{◌≡◌, [], ◌∷◌, ◌++◌, ◌^◌, ◌<◌, length, OnOk},
  List.{concat},
  Int.{w16, w32, w64, to_be_bytes},
};
ghost use Rattle.lc_base.specs.{KeyBytes.{IsKey}, NameBytes.{IsName}, TextBytes.{IsText}};
ghost use Rattle.byte_fields.specs.Spelling.{string_fields, value_fields, IsValue, Puts, PutsAll};

use lc_base::{Bytes, Digest, Key, Memory, Name, Text, Value};

fn put_string(out: &mut Vec<u8>, bytes: &[u8]) -> Result<(), Memory>
    requires { length bytes.now < 2 ^ 16 }
    ensures { OnOk result (out.new.items ≡ out.old.items ++ concat (string_fields bytes.now)) }
{
    out.extend_from_slice(&(bytes.len() as u16).to_be_bytes())?;
    out.extend_from_slice(bytes)?;
    Ok(())
}

/// A number of one byte.
pub fn put_u8(out: &mut Vec<u8>, number: u8) -> Result<(), Memory>
    ensures written { OnOk result (out.new.items ≡ out.old.items ++ number ∷ []) }
{
    out.push(number)?;
    Ok(())
}

/// A number of two bytes, the more significant first.
pub fn put_u16(out: &mut Vec<u8>, number: u16) -> Result<(), Memory>
    ensures written { OnOk result (out.new.items ≡ out.old.items ++ to_be_bytes w16 number) }
{
    out.extend_from_slice(&number.to_be_bytes())?;
    Ok(())
}

/// A number of four bytes, the most significant first.
pub fn put_u32(out: &mut Vec<u8>, number: u32) -> Result<(), Memory>
    ensures written { OnOk result (out.new.items ≡ out.old.items ++ to_be_bytes w32 number) }
{
    out.extend_from_slice(&number.to_be_bytes())?;
    Ok(())
}

/// A number of eight bytes, the most significant first.
pub fn put_u64(out: &mut Vec<u8>, number: u64) -> Result<(), Memory>
    ensures written { OnOk result (out.new.items ≡ out.old.items ++ to_be_bytes w64 number) }
{
    out.extend_from_slice(&number.to_be_bytes())?;
    Ok(())
}

/// The 32 bytes of a digest.
pub fn put_digest(out: &mut Vec<u8>, digest: &Digest) -> Result<(), Memory>
    ensures written { OnOk result (out.new.items ≡ out.old.items ++ digest.now.0) }
    ensures lawful { OnOk result (length digest.now.0 ≡ 32) }
{
    out.extend_from_slice(&digest.0)?;
    Ok(())
}

/// A key: its length in two bytes, then its bytes.
pub fn put_key(out: &mut Vec<u8>, key: &Key) -> Result<(), Memory>
    ensures { Puts (string_fields key.now) (IsKey key.now) out.old.items out.new.items result }
{
    put_string(out, key.as_bytes())
}

/// A name: its length in two bytes, then its bytes.
pub fn put_name(out: &mut Vec<u8>, name: &Name) -> Result<(), Memory>
    ensures { Puts (string_fields name.now) (IsName name.now) out.old.items out.new.items result }
{
    put_string(out, name.as_bytes())
}

/// A string of any bytes, fewer than 65,536: its length in two bytes, then its bytes.
pub fn put_any_bytes(out: &mut Vec<u8>, bytes: &Bytes) -> Result<(), Memory>
    requires { length bytes.now < 2 ^ 16 }
    ensures written { OnOk result (out.new.items ≡ out.old.items ++ concat (string_fields bytes.now)) }
{
    put_string(out, bytes.as_bytes())
}

/// A text: its length in two bytes, then its bytes.
pub fn put_text(out: &mut Vec<u8>, text: &Text) -> Result<(), Memory>
    ensures { Puts (string_fields text.now) (IsText text.now) out.old.items out.new.items result }
{
    put_string(out, text.as_bytes())
}

/// A value: the byte 0 and an int, the byte 1 and a text, or the byte 2 alone, which means gone.
pub fn put_value(out: &mut Vec<u8>, value: &Value) -> Result<(), Memory>
    ensures { Puts (value_fields value.now) (IsValue value.now) out.old.items out.new.items result }
{
    match value {
        Value::Int(number) => {
            out.push(0)?;
            out.extend_from_slice(&number.to_be_bytes())?;
            Ok(())
        }
        Value::Text(text) => {
            out.push(1)?;
            put_text(out, text)
        }
        Value::Gone => {
            out.push(2)?;
            Ok(())
        }
    }
}

/// Keys, one after another.
pub fn put_keys(out: &mut Vec<u8>, keys: &[Key]) -> Result<(), Memory>
    ensures { PutsAll string_fields IsKey keys.now out.old.items out.new.items result }
{
    for key in keys {
        put_key(out, key)?;
    }
    Ok(())
}

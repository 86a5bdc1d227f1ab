//! Arguments, matched against what a builtin takes; those of a checked contract always match.

ghost use Rattle.std.specs.{Prelude.{◌≡◌, None, Some, MatchOption}, Option.{option_copied}};
ghost use Rattle.contract_semantics.specs.Builtins.{one_text, one_int, text_and_int, text_and_ints};

use lc_base::{Text, Value};

/// The text, if it is the only argument.
pub(crate) fn one_text(args: &[Value]) -> Option<&Text>
    ensures { option_copied result ≡ one_text args.now }
{
    match args {
        [Value::Text(text)] => Some(text),
        _ => None,
    }
}

/// The number, if it is the only argument.
pub(crate) fn one_int(args: &[Value]) -> Option<i64>
    ensures { result ≡ one_int args.now }
{
    match args {
        [Value::Int(number)] => Some(*number),
        _ => None,
    }
}

/// The arguments, if they are a text and a number.
pub(crate) fn text_and_int(args: &[Value]) -> Option<(&Text, i64)>
    ensures { MatchOption result (text_and_int args.now ≡ None) (λ found. text_and_int args.now ≡ Some (found.0.now, found.1)) }
{
    match args {
        [Value::Text(text), Value::Int(number)] => Some((text, *number)),
        _ => None,
    }
}

/// The arguments, if they are a text and two numbers.
pub(crate) fn text_and_ints(args: &[Value]) -> Option<(&Text, i64, i64)>
    ensures { MatchOption result (text_and_ints args.now ≡ None) (λ found. text_and_ints args.now ≡ Some (found.0.now, (found.1, found.2))) }
{
    match args {
        [Value::Text(text), Value::Int(first), Value::Int(second)] => {
            Some((text, *first, *second))
        }
        _ => None,
    }
}

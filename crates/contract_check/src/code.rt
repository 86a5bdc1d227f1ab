//! Names as numbers, which are compared in one step.

ghost use Rattle.std.specs.Prelude.{◌≡◌};
ghost use Rattle.lc_base.specs.NameBytes.{IsName};
ghost use Rattle.contract_check.specs.Codes.{code};

use lc_base::Name;

/// The number whose digits in base 256 are the bytes of a name, the lowest first.
pub(crate) fn code_of(name: &Name) -> u128
    ensures code { result ≡ code name.now }
    ensures is_name { IsName name.now }
{
    code_of_bytes(name.as_bytes())
}

fn code_of_bytes(bytes: &[u8]) -> u128
    requires { IsName bytes.now }
    ensures { result ≡ code bytes.now }
{
    let mut code = 0u128;
    for i in (0..bytes.len()).rev() {
        code = code * 256 + u128::from(bytes[i]);
    }
    code
}

//! A builtin is charged before it does anything; the past is asked of the host, the present of the
//! world.

ghost use Rattle.std.specs.{Prelude.{◌≡◌, ℕ, pos, length, Ok}, Fmt.{signed_decimal}};
ghost use Rattle.lc_base.specs.declared.value.Value.TheVariants as values;
ghost use Rattle.contract_semantics.specs.{
  Builtins.{with_args, one_text, one_int, version_value, item_value, item_part, plain_value, builtin_result, builtin_call, call_by_name},
  Answers.{IsResultOf, IsNoFault, Takes, Gives, Charges},
  Hosts.{Asks},
};
ghost use Rattle.eval_expressions.specs.{
  Sides.{kind_of},
  Kinds.{in_kind},
  Runs.{KeepsRun, Tells},
  Versions.{version_told},
};

use crate::arguments::{one_int, one_text, text_and_int, text_and_ints};
use crate::asking::{
    block_before, block_told, block_value, count_asked, item_asked, key_of_text, key_value,
    seen_told, tx_told, value_told, version_asked,
};
use crate::reading::{get, has, in_kind};
use crate::run::Run;
use crate::side::Side;
use crate::wanted::Wanted;
use contract_semantics::{CallSite, EvalStop, charge_of};
use contract_tree::{Builtin, ValueKind};
use lc_base::{Dep, Host, Name, Text, TxStatus, Value, Version};
use std::alloc::Global;

/// Takes a charge from the budget. `OutOfSteps` if less than that is left; then nothing is taken.
pub fn charge(left: &mut u32, charge: u32) -> Result<(), TxStatus>
    ensures { Charges left.old charge result left.new }
{
    if charge <= *left {
        *left -= charge;
        Ok(())
    } else {
        Err(TxStatus::OutOfSteps)
    }
}

fn version_value(builtin: Builtin, version: Option<Version>) -> Result<Value, TxStatus>
    ensures { result ≡ version_value builtin version }
{
    match builtin {
        Builtin::HistInt => in_kind(ValueKind::Int, value_told(version)?),
        Builtin::HistText => in_kind(ValueKind::Text, value_told(version)?),
        Builtin::HistBlock => block_told(version),
        Builtin::HistTx => tx_told(version),
        Builtin::Seen => Ok(seen_told(version)),
        _ => Err(TxStatus::WrongKind),
    }
}

fn item_value(alloc: Global, builtin: Builtin, dep: &Dep) -> Result<Value, EvalStop>
    ensures value { IsResultOf (λ value. value) (item_value builtin dep.now) result }
    ensures no_fault { IsNoFault result }
{
    match builtin {
        Builtin::BackKey => key_value(alloc, dep),
        Builtin::FwdKey => key_value(alloc, dep),
        Builtin::BackBlock => Ok(block_value(dep)),
        Builtin::FwdBlock => Ok(block_value(dep)),
        _ => Err(EvalStop::Status(TxStatus::WrongKind)),
    }
}

/// What is wanted of the version of a key up to a block.
fn version_told<H: Host>(
    alloc: Global,
    number: u32,
    host: &mut H,
    wanted: Wanted,
    args: &[Value],
) -> Result<Value, EvalStop>
    requires { H.ready host.old }
    ensures { Asks H.Host host.old host.new (λ value. value) (λ rows. version_told rows number wanted args.now) result }
{
    let Some((text, at)) = text_and_int(args) else {
        return Err(EvalStop::Status(TxStatus::WrongKind));
    };
    let key = key_of_text(text)?;
    let block = block_before(number, at)?;
    match wanted {
        Wanted::Count(side) => count_asked(host, side, &key, block),
        Wanted::Part(builtin) => {
            let version = version_asked(alloc, host, &key, block)?;
            Ok(version_value(builtin, version)?)
        }
    }
}

/// What a builtin returns of one of the dependencies or uses of that version.
fn item_part<H: Host>(
    alloc: Global,
    number: u32,
    host: &mut H,
    side: Side,
    builtin: Builtin,
    args: &[Value],
) -> Result<Value, EvalStop>
    requires { H.ready host.old }
    ensures { Asks H.Host host.old host.new (λ value. value) (λ rows. item_part rows number (kind_of side) builtin args.now) result }
{
    match text_and_ints(args) {
        None => Err(EvalStop::Status(TxStatus::WrongKind)),
        Some((text, at, index)) => {
            let key = key_of_text(text)?;
            let block = block_before(number, at)?;
            let dep = item_asked(host, side, &key, block, index)?;
            item_value(alloc, builtin, &dep)
        }
    }
}

fn text_length(args: &[Value]) -> Result<Value, TxStatus>
    ensures { result ≡ with_args (one_text args.now) (λ text. Ok (values.Int (pos (length text)))) }
{
    match one_text(args) {
        None => Err(TxStatus::WrongKind),
        Some(text) => Ok(Value::Int(text.as_bytes().len() as i64)),
    }
}

fn number_text(alloc: Global, args: &[Value]) -> Result<Value, EvalStop>
    ensures value { IsResultOf (λ value. value) (with_args (one_int args.now) (λ z. Ok (values.Text (signed_decimal z)))) result }
    ensures no_fault { IsNoFault result }
{
    match one_int(args) {
        None => Err(EvalStop::Status(TxStatus::WrongKind)),
        Some(number) => Ok(Value::Text(Text::from_number(alloc, number)?)),
    }
}

fn sender_text(alloc: Global, site: &CallSite) -> Result<Value, EvalStop>
    ensures value { IsResultOf (λ value. value) (Ok (values.Text site.now.sender)) result }
    ensures no_fault { IsNoFault result }
{
    Ok(Value::Text(Text::from_key(alloc, &site.sender)?))
}

/// What a builtin returns that reads nothing of the present.
#[tactic(auto, unfolding(crate::specs::Sides::kind_of))]
fn plain_value<H: Host>(
    alloc: Global,
    site: &CallSite,
    host: &mut H,
    builtin: Builtin,
    args: &[Value],
) -> Result<Value, EvalStop>
    requires { H.ready host.old }
    ensures { Asks H.Host host.old host.new (λ value. value) (λ rows. plain_value rows site.now builtin args.now) result }
{
    match builtin {
        Builtin::Caller => sender_text(alloc, site),
        Builtin::Block => Ok(Value::Int(i64::from(site.number))),
        Builtin::Len => Ok(text_length(args)?),
        Builtin::Text => number_text(alloc, args),
        Builtin::HistInt => version_told(alloc, site.number, host, Wanted::Part(builtin), args),
        Builtin::HistText => version_told(alloc, site.number, host, Wanted::Part(builtin), args),
        Builtin::HistBlock => version_told(alloc, site.number, host, Wanted::Part(builtin), args),
        Builtin::HistTx => version_told(alloc, site.number, host, Wanted::Part(builtin), args),
        Builtin::Seen => version_told(alloc, site.number, host, Wanted::Part(builtin), args),
        Builtin::BackCount => version_told(
            alloc,
            site.number,
            host,
            Wanted::Count(Side::Back),
            args,
        ),
        Builtin::FwdCount => version_told(alloc, site.number, host, Wanted::Count(Side::Fwd), args),
        Builtin::BackKey => item_part(alloc, site.number, host, Side::Back, builtin, args),
        Builtin::FwdKey => item_part(alloc, site.number, host, Side::Fwd, builtin, args),
        Builtin::BackBlock => item_part(alloc, site.number, host, Side::Back, builtin, args),
        Builtin::FwdBlock => item_part(alloc, site.number, host, Side::Fwd, builtin, args),
        Builtin::GetInt => Err(EvalStop::Status(TxStatus::WrongKind)),
        Builtin::GetText => Err(EvalStop::Status(TxStatus::WrongKind)),
        Builtin::Has => Err(EvalStop::Status(TxStatus::WrongKind)),
    }
}

/// What a builtin returns; the capture has what it read.
fn builtin_result<C, H: Host>(
    run: &mut Run<C, H>,
    builtin: Builtin,
    args: &[Value],
) -> Result<Value, EvalStop>
    requires { H.ready run.old.host.now }
    ensures taken { Tells H.Host run.old run.new (λ s m k. Takes (builtin_result s builtin args.now m.capture) result k.capture) }
    ensures left { run.new.left ≡ run.old.left }
    ensures keeps { KeepsRun H.Host run.old run.new result }
{
    match builtin {
        Builtin::GetInt => match one_text(args) {
            None => Err(EvalStop::Status(TxStatus::WrongKind)),
            Some(text) => get(run.alloc, run.world, run.capture, ValueKind::Int, text),
        },
        Builtin::GetText => match one_text(args) {
            None => Err(EvalStop::Status(TxStatus::WrongKind)),
            Some(text) => get(run.alloc, run.world, run.capture, ValueKind::Text, text),
        },
        Builtin::Has => match one_text(args) {
            None => Err(EvalStop::Status(TxStatus::WrongKind)),
            Some(text) => has(run.world, run.capture, text),
        },
        _ => plain_value(run.alloc, run.site, run.host, builtin, args),
    }
}

/// A call of a builtin, which is charged first.
fn builtin_call<C, H: Host>(
    run: &mut Run<C, H>,
    builtin: Option<Builtin>,
    args: &[Value],
) -> Result<Value, EvalStop>
    requires { H.ready run.old.host.now }
    ensures step { Tells H.Host run.old run.new (λ s m k. Gives (λ value. value) (builtin_call s builtin args.now m) result k) }
    ensures keeps { KeepsRun H.Host run.old run.new result }
{
    match builtin {
        None => Err(EvalStop::Status(TxStatus::WrongKind)),
        Some(builtin) => {
            charge(&mut run.left, charge_of(builtin))?;
            builtin_result(run, builtin, args)
        }
    }
}

/// A call of a builtin by its name: it is charged first.
///
/// # Errors
///
/// The status with which it fails, a fault of the host, or `Memory`.
#[tactic(auto, unfolding(contract_semantics::specs::Builtins::call_by_name))]
pub fn call_by_name<C, H: Host>(
    run: &mut Run<C, H>,
    name: &Name,
    args: &[Value],
) -> Result<Value, EvalStop>
    requires { H.ready run.old.host.now }
    ensures step { Tells H.Host run.old run.new (λ s m k. Gives (λ value. value) (call_by_name s name.now args.now m) result k) }
    ensures keeps { KeepsRun H.Host run.old run.new result }
{
    let builtin = Builtin::of_name(name);
    builtin_call(run, builtin, args)
}

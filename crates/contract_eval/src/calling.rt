//! A call is refused at no cost if the function doesn't exist or doesn't take the arguments; else
//! its body runs.

ghost use Rattle.std.specs.{
  Prelude.{◌≡◌, ◌≤◌, IfSome, IfOk, IsErrOf},
  Option.{option_copied, option_map},
  List.{list_all, zip},
};
ghost use Rattle.contract_eval.specs.Endings.{IsStatusOf};
ghost use Rattle.lc_base.specs.Faults.{HasCause};
ghost use Rattle.contract_tree.specs.Tree.{function_of, contract_of};
ghost use Rattle.dep_capture.specs.Capture.{captured_none};
ghost use Rattle.world_state.specs.World.{is_written, StandsForRows};
ghost use Rattle.eval_expressions.specs.{
  contract_semantics.Scenes.{scene_of},
  contract_semantics.Calls.{
    is_of_kind,
    is_of_its_kind,
    are_arguments,
    first_variables,
    function_called,
    call_result,
  },
  contract_semantics.Answers.{scene_in, place_in, IsFaithful},
};

use crate::flow::Flow;
use crate::statement::block;
use contract_tree::{Function, Param, ValueKind};
use dep_capture::Capture;
use eval_expressions::{CallSite, Checked, EvalStop, Outcome, Run, Variables};
use lc_base::{Duplicate, Host, HostError, Memory, TxStatus, Value, ValueList};
use std::alloc::Global;
use world_state::World;

fn is_of_kind(kind: ValueKind, value: &Value) -> bool
    ensures { result ≡ is_of_kind kind value.now }
{
    matches!(
        (kind, value),
        (ValueKind::Int, Value::Int(_)) | (ValueKind::Text, Value::Text(_))
    )
}

fn are_of_kinds(params: &[Param], args: &[Value]) -> bool
    ensures { result ≡ list_all is_of_its_kind (zip params.now args.now) }
{
    params
        .iter()
        .zip(args.iter())
        .all(|(param, arg)| is_of_kind(param.kind, arg))
}

/// Whether a function takes these arguments: one for each parameter, of that parameter's kind.
#[tactic(auto, using(crate::proofs::Arguments::are_arguments_is))]
fn are_arguments(params: &[Param], args: &[Value]) -> bool
    ensures { result ≡ are_arguments params.now args.now }
{
    params.len() == args.len() && are_of_kinds(params, args)
}

/// The variables that a function's body begins with: its parameters, with these values.
fn first_variables(alloc: Global, params: &[Param], args: &[Value]) -> Result<Variables, Memory>
    ensures { IfOk result (λ variables. variables ≡ first_variables params.now args.now) }
{
    let mut variables = Variables::new(alloc);
    for (i, param) in params.iter().enumerate() {
        let Some(arg) = args.get(i) else {
            return Ok(variables);
        };
        variables.declare(&param.name, arg.copy(alloc)?)?;
    }
    Ok(variables)
}

/// The status of a function whose body ended like this; an error if the host failed or memory ran
/// out.
fn status_of(ended: Result<Flow, EvalStop>) -> Result<TxStatus, HostError>
    ensures { IsStatusOf ended result }
{
    match ended {
        Ok(_) => Ok(TxStatus::Ok),
        Err(EvalStop::Status(status)) => Ok(status),
        Err(EvalStop::Fault) => Err(HostError::Fault),
        Err(EvalStop::Memory) => Err(HostError::Memory),
    }
}

/// Runs a function within the budget of the call, if it takes the arguments.
#[tactic(auto, using(crate::proofs::Called::block_ends))]
fn function_called<C, H: Host>(
    alloc: Global,
    function: Option<&Function>,
    site: &CallSite,
    args: &[Value],
    world: &World<C>,
    host: &mut H,
    capture: &mut Capture,
) -> Result<Outcome, HostError>
    requires ready { H.ready host.old }
    requires fresh { capture.old ≡ captured_none }
    ensures same { H.same host.old host.new }
    ensures outcome { IfSome (H.rows host.old) (λ rows. IfOk result (λ outcome. function_called (scene_in rows world.now site.now) args.now (option_map function_of (option_copied function.entry)) ≡ record { outcome = outcome; capture = capture.new })) }
    ensures cost { IfOk result (λ outcome. outcome.cost ≤ site.now.budget) }
    ensures faithful { IfOk result (λ _. IsFaithful (place_in world.now) capture.new) }
    ensures cause { HasCause (H.host_faults host.old) (H.host_faults host.new) (IsErrOf result HostError.Fault) }
{
    let Some(function) = function else {
        return Ok(refused_call(TxStatus::NoFunction));
    };
    if !are_arguments(&function.params, args) {
        return Ok(refused_call(TxStatus::BadArgs));
    }
    let mut variables = match first_variables(alloc, &function.params, args) {
        Ok(variables) => variables,
        Err(Memory) => return Err(HostError::Memory),
    };
    let mut run = Run {
        alloc,
        world,
        site,
        host,
        capture,
        left: site.budget,
    };
    let body = &function.body;
    let ended = block(&mut run, &mut variables, body);
    let cost = site.budget - run.left;
    let status = status_of(ended)?;
    Ok(Outcome { status, cost })
}

fn refused_call(status: TxStatus) -> Outcome
    ensures { result ≡ record { status = status; cost = 0 } }
{
    Outcome { status, cost: 0 }
}

/// Calls a function of a contract: it must exist and take the arguments; then its statements run
/// within the budget. Afterwards `capture` has what was read and put, and the host is the same as
/// before.
///
/// # Errors
///
/// `Fault` if the host failed, or `Memory`; the status of the call isn't an error.
pub fn call<H: Host>(
    alloc: Global,
    code: &Checked,
    site: &CallSite,
    args: &ValueList,
    world: &World<Checked>,
    host: &mut H,
    capture: &mut Capture,
) -> Result<Outcome, HostError>
    requires ready { H.ready host.old }
    requires stands { IfSome (H.rows host.old) (StandsForRows world.now) }
    requires fresh { capture.old ≡ captured_none }
    ensures same { H.same host.old host.new }
    // The outcome, and what was read and put, are those of the contract over the host's rows.
    ensures outcome { IfSome (H.rows host.old) (λ rows. IfOk result (λ outcome. call_result (contract_of code.now) (scene_of rows (is_written world.now) site.now) args.now ≡ record { outcome = outcome; capture = capture.new })) }
    ensures cost { IfOk result (λ outcome. outcome.cost ≤ site.now.budget) }
    ensures faithful { IfOk result (λ _. IsFaithful (place_in world.now) capture.new) }
    ensures cause { HasCause (H.host_faults host.old) (H.host_faults host.new) (IsErrOf result HostError.Fault) }
{
    let function = code.function(&site.function);
    function_called(alloc, function, site, args.as_slice(), world, host, capture)
}

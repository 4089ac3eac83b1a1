//! The lines that are printed.

ghost use Rattle.std.specs.Prelude.{◌≡◌, ◌++◌, IfOk, OnOk};
ghost use Rattle.plumctl_live.specs.Live.{calls_line, fault_line, live_text, plan_line, verdict_line};

use crate::counts::Counts;
use crate::judged::LiveFault;
use cluster::ClusterPlan;
use printing::print_number;
use std::alloc::{AllocError, Global};
use world_core::World;

/// Adds the line of the plan.
fn add_plan(text: &mut Vec<u8>, plan: ClusterPlan) -> Result<(), AllocError>
    ensures { OnOk result (text.new.items ≡ text.old.items ++ plan_line plan) }
{
    text.extend_from_slice(b"live nodes ")?;
    print_number(text, plan.nodes)?;
    text.extend_from_slice(b" turns ")?;
    print_number(text, plan.turns)?;
    text.push(b'\n')?;
    Ok(())
}

/// Adds the line of calls and lost frames, if there is a run.
fn add_calls(text: &mut Vec<u8>, counts: Option<Counts>) -> Result<(), AllocError>
    ensures { OnOk result (text.new.items ≡ text.old.items ++ calls_line counts) }
{
    if let Some(Counts { calls, lost, .. }) = counts {
        text.extend_from_slice(b"calls ")?;
        print_number(text, calls)?;
        text.extend_from_slice(b" lost ")?;
        print_number(text, lost)?;
        text.push(b'\n')?;
    }
    Ok(())
}

/// Adds the line of a fault.
fn add_fault(text: &mut Vec<u8>, code: u16, name: &str) -> Result<(), AllocError>
    ensures { OnOk result (text.new.items ≡ text.old.items ++ fault_line code name.now) }
{
    text.extend_from_slice(b"fault ")?;
    print_number(text, u64::from(code))?;
    text.extend_from_slice(b" ")?;
    text.extend_from_slice(name.as_bytes())?;
    text.push(b'\n')?;
    Ok(())
}

/// Adds the line of the verdict, if the verdict has one.
fn add_verdict(text: &mut Vec<u8>, judged: &Result<World, LiveFault>) -> Result<(), AllocError>
    ensures { OnOk result (text.new.items ≡ text.old.items ++ verdict_line judged.now) }
{
    match judged {
        Ok(_) => text.extend_from_slice(b"assembled\n"),
        Err(fault) => match fault.code() {
            Some(99) | None => Ok(()),
            Some(code) => add_fault(text, code, fault.name()),
        },
    }
}

/// Returns all that is printed of a run of this plan.
#[tactic(auto, unfolding(crate::specs::Live::live_text))]
pub(crate) fn text_of(
    alloc: Global,
    plan: ClusterPlan,
    counts: Option<Counts>,
    judged: &Result<World, LiveFault>,
) -> Result<Vec<u8>, AllocError>
    ensures { IfOk result (λ text. text.items ≡ live_text plan counts judged.now) }
{
    let mut text = Vec::new(alloc);
    add_plan(&mut text, plan)?;
    add_calls(&mut text, counts)?;
    add_verdict(&mut text, judged)?;
    Ok(text)
}

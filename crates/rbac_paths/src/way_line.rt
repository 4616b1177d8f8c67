//! How a way is printed: its start, its first step, and the reason for this step or for allowing
//! the request.

ghost use Rattle.std.specs.Prelude.{◌≡◌, ◌++◌, OnOk, option_map};
ghost use Rattle.rbac_paths.specs.Nodes.{node_of};
ghost use Rattle.rbac_paths.specs.WayLines.{next_text, way_text};

use crate::all_ways::{Next, Way};
use crate::node::put_node;
use crate::path_line::{put_count, put_reason};
use rbac_text::put_field_and_tab;
use std::alloc::AllocError;

/// Adds the line of a way (own): eleven fields, joined by tabs, with a newline at the end. The
/// fields are the number of steps; the node, as who or what and where; the node after it, likewise;
/// the step between them; the binding, its role, and the role where the rule is written; and the
/// places of the rule in that role and of the subject in the binding, counted from 1. If there are
/// no steps, the node after and the step are `-`, and the last five fields give the reason why the
/// node itself allows the request. If the node is a role, the binding and the subject are `-`; if
/// it is everything, the last five fields are. If it runs out of memory, a prefix of the line may
/// have been added.
pub fn put_way(line: &mut Vec<u8>, way: &Way<'_>) -> Result<(), AllocError>
    ensures { OnOk result (line.new.items ≡ line.old.items ++ way_text way.now) }
{
    put_count(line, way.count)?;
    put_node(line, way.node)?;
    put_next(line, way.next)?;
    put_reason(line, way.node, way.reason)
}

// The fields of the node after and of the step, if there are no steps.
const NO_STEP: &[u8] = b"-\t-\t-\t";

// Adds the node to which the first step leads, and the step; three fields `-` if there is no step.
fn put_next(line: &mut Vec<u8>, next: Option<Next<'_>>) -> Result<(), AllocError>
    ensures { OnOk result (line.new.items ≡ line.old.items ++ next_text
        (option_map (λ n. record { node = node_of n.node; step = n.step }) next.entry)) }
{
    let Some(next) = next else {
        line.extend_from_slice(NO_STEP)?;
        return Ok(());
    };
    put_node(line, next.node)?;
    put_field_and_tab(line, next.step.word())
}

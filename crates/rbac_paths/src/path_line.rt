//! How a path is printed: its end, its last step, and the reason for this step.

ghost use Rattle.std.specs.Prelude.{◌≡◌, ◌++◌, ◌∷◌, [], OnOk, decimal};
ghost use Rattle.rbac_model.specs.Sources.{source_of};
ghost use Rattle.rbac_text.specs.Row.{field_and_tab, tab};
ghost use Rattle.rbac_paths.specs.Nodes.{node_of};
ghost use Rattle.rbac_paths.specs.PathLines.{all_line, no_subject, path_text, reason_line};
ghost use Rattle.rbac_paths.specs.PathLines.{rule_line, source_name};
ghost use Rattle.rbac_paths.specs.Reasons.{reason_view};

use crate::all_paths::Path;
use crate::node::{Node, put_cluster_role, put_node, put_own_role, put_what};
use crate::reason::Reason;
use itoa::Buffer;
use rbac_model::SourceRole;
use rbac_text::{put_field, put_field_and_tab, put_place, put_why};
use std::alloc::AllocError;

/// Adds the line of a path (own): eleven fields, joined by tabs, with a newline at the end. The
/// fields are the number of steps; the node, as who or what and where; the node before it,
/// likewise; the step between them; the binding, its role, and the role where the rule is written;
/// and the places of the rule in that role and of the subject in the binding, counted from 1. If
/// the node before is a role, the binding and the subject are `-`; if it is everything, the last
/// five fields are. If it runs out of memory, a prefix of the line may have been added.
pub fn put_path(line: &mut Vec<u8>, path: &Path<'_>) -> Result<(), AllocError>
    ensures { OnOk result (line.new.items ≡ line.old.items ++ path_text path.now) }
{
    put_count(line, path.count)?;
    put_node(line, path.node)?;
    put_node(line, path.before)?;
    put_field_and_tab(line, path.step.word())?;
    put_reason(line, path.before, path.reason)
}

// Adds a number in decimal digits, and a tab.
pub(crate) fn put_count(line: &mut Vec<u8>, count: usize) -> Result<(), AllocError>
    ensures { OnOk result (line.new.items ≡ line.old.items ++ decimal count ++ tab ∷ []) }
{
    let mut buffer = Buffer::new();
    line.extend_from_slice(buffer.format(count).as_bytes())?;
    line.push(b'\t')?;
    Ok(())
}

// Adds the last five fields of a line and its newline: the reason why the node takes over another
// node, or allows a request.
pub(crate) fn put_reason(
    line: &mut Vec<u8>,
    node: Node<'_>,
    reason: Reason<'_>,
) -> Result<(), AllocError>
    ensures { OnOk result (line.new.items
        ≡ line.old.items ++ reason_line (node_of node.entry) (reason_view reason.entry)) }
{
    match reason {
        Reason::Grant(grant, subject) => {
            put_why(line, grant.binding, grant.source, grant.place, subject)
        }
        Reason::Rule(source, place) => put_rule_line(line, node, source, place),
        Reason::All => put_all_line(line),
    }
}

// Adds the last five fields and the newline for a role: its rule, without a binding and a subject.
fn put_rule_line(
    line: &mut Vec<u8>,
    role: Node<'_>,
    source: SourceRole<'_>,
    place: usize,
) -> Result<(), AllocError>
    ensures { OnOk result (line.new.items
        ≡ line.old.items ++ rule_line (node_of role.entry) (source_of source.entry) place) }
{
    put_field_and_tab(line, b"")?;
    put_what(line, role)?;
    put_source(line, source)?;
    put_place(line, place)?;
    line.push(b'\t')?;
    put_end(line)
}

// Adds the role where a rule is written, and a tab.
fn put_source(line: &mut Vec<u8>, source: SourceRole<'_>) -> Result<(), AllocError>
    ensures { OnOk result (line.new.items
        ≡ line.old.items ++ field_and_tab (source_name (source_of source.entry))) }
{
    match source {
        SourceRole::Role(role) => put_own_role(line, role),
        SourceRole::ClusterRole(role) => put_cluster_role(line, role),
    }
}

// The last five fields and the newline for everything in a scope.
const NONE_OF_IT: &[u8] = b"-\t-\t-\t-\t-\n";

// Adds the last five fields and the newline for everything in a scope: no binding, role, rule or
// subject.
fn put_all_line(line: &mut Vec<u8>) -> Result<(), AllocError>
    ensures { OnOk result (line.new.items ≡ line.old.items ++ all_line) }
{
    line.extend_from_slice(NONE_OF_IT)?;
    Ok(())
}

// Adds the field of a missing subject, and the newline.
fn put_end(line: &mut Vec<u8>) -> Result<(), AllocError>
    ensures { OnOk result (line.new.items ≡ line.old.items ++ no_subject) }
{
    put_field(line, b"")?;
    line.push(b'\n')?;
    Ok(())
}

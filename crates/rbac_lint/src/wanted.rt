//! Which findings are asked for.

ghost use Rattle.std.specs.Prelude.{◌≡◌, ◌↔◌, IsTrue, codes};
ghost use Rattle.rbac_terms.specs.Text.{BeginsWith};
ghost use Rattle.rbac_model.specs.Sources.{source_of};
ghost use Rattle.rbac_lint.specs.Lines.{ObjectName};
ghost use Rattle.rbac_lint.specs.Replaced.{replaced_object};
ghost use Rattle.rbac_lint.specs.Roles.{source_object, binding_object};
ghost use Rattle.rbac_lint.specs.Wanted.{HasCode, IsKept, IsSystem, IsUserFacing};

use rbac_manifest::Replaced;
use rbac_model::SourceRole;
use rbac_terms::{Binding, CLUSTER_ROLE, CLUSTER_ROLE_BINDING, ROLE, ROLE_BINDING, Word};
use std::marker::Model;

// What the names of most of Kubernetes' own objects begin with.
const SYSTEM: &[u8] = b"system:";

// The names of the user-facing cluster roles.
const CLUSTER_ADMIN: &[u8] = b"cluster-admin";

const ADMIN: &[u8] = b"admin";

const EDIT: &[u8] = b"edit";

const VIEW: &[u8] = b"view";

/// Which findings are asked for (own).
#[derive(Drop)]
pub struct Wanted<'a> {
    /// The codes of the findings, from 1 to 7, in any order; all codes without a list.
    pub only: Option<&'a [u8]>,
    /// Whether findings about Kubernetes' own objects are left out.
    pub skip_system: bool,
}

impl<'a> Model for Wanted<'a> {
    ghost use Rattle.std.specs.Prelude.{option_map};
    ghost use Rattle.rbac_lint.specs.Wanted.{WantedView};

    ghost Value = { WantedView };

    ghost view = { λ w. record {
      only = option_map (λ codes. codes.now) w.only;
      skip_system = w.skip_system;
    } };
}

impl<'a> Wanted<'a> {
    // Whether findings with this code are asked for.
    pub(crate) fn has_code(&self, code: u8) -> bool
        ensures { IsTrue result ↔ HasCode self.now code }
    {
        match self.only {
            Some(only) => only.contains(&code),
            None => true,
        }
    }

    // Whether findings about this role are asked for.
    pub(crate) fn keeps_role(&self, role: SourceRole<'_>) -> bool
        ensures { IsTrue result ↔ IsKept self.now (source_object (source_of role.entry)) }
    {
        match role {
            SourceRole::Role(role) => self.keeps(ROLE.as_bytes(), &role.name),
            SourceRole::ClusterRole(role) => self.keeps(CLUSTER_ROLE.as_bytes(), &role.name),
        }
    }

    // Whether findings about this binding are asked for.
    pub(crate) fn keeps_binding(&self, binding: &Binding) -> bool
        ensures { IsTrue result ↔ IsKept self.now (binding_object binding.now) }
    {
        match &binding.namespace {
            Some(_) => self.keeps(ROLE_BINDING.as_bytes(), &binding.name),
            None => self.keeps(CLUSTER_ROLE_BINDING.as_bytes(), &binding.name),
        }
    }

    // Whether findings about this object are asked for.
    pub(crate) fn keeps_replaced(&self, replaced: &Replaced) -> bool
        ensures { IsTrue result ↔ IsKept self.now (replaced_object replaced.now) }
    {
        self.keeps(replaced.kind.as_bytes(), &replaced.name)
    }

    // Whether findings about objects of this kind and name are asked for.
    fn keeps(&self, kind: &[u8], name: &Word) -> bool
        ensures { (o : ObjectName) → o.kind ≡ kind.now → o.name ≡ name.now
            → (IsTrue result ↔ IsKept self.now o) }
    {
        !(self.skip_system && is_system(kind, name))
    }
}

// Whether objects of this kind and name are Kubernetes' own.
fn is_system(kind: &[u8], name: &Word) -> bool
    ensures { (o : ObjectName) → o.kind ≡ kind.now → o.name ≡ name.now
        → (IsTrue result ↔ IsSystem o) }
{
    has_system_prefix(name) || is_user_facing_role(kind, name)
}

fn has_system_prefix(name: &Word) -> bool
    ensures { IsTrue result ↔ BeginsWith name.now (codes "system:") }
{
    name.as_bytes().starts_with(SYSTEM)
}

fn is_user_facing_role(kind: &[u8], name: &Word) -> bool
    ensures { IsTrue result ↔ ((kind.now ≡ codes "ClusterRole") × IsUserFacing name.now) }
{
    kind == CLUSTER_ROLE.as_bytes() && is_user_facing(name.as_bytes())
}

fn is_user_facing(name: &[u8]) -> bool
    ensures { IsTrue result ↔ IsUserFacing name.now }
{
    name == CLUSTER_ADMIN || name == ADMIN || name == EDIT || name == VIEW
}

//! The unused permissions of a rule through its binding.

ghost use Rattle.std.specs.Prelude.{◌↔◌, IfOk, IsTrue, OnOk};
ghost use Rattle.rbac_use.specs.Adding.{AddsLines, OfSome};
ghost use Rattle.rbac_use.specs.Rules.{IsGroupLine, IsIdle, IsIdleAt, IsNameLine};
ghost use Rattle.rbac_use.specs.Rules.{IsPermissionLine, IsResourceLine, IsRuleLine, IsUrlLine};
ghost use Rattle.rbac_use.specs.Rules.{IsVerbLine, use_of};

use crate::asked::is_asked;
use crate::permission::{TargetPlaces, are_first, permission_at};
use crate::request::Request;
use crate::unused::{Part, Unused};
use crate::usable::can_be_used;
use rbac_terms::{Binding, Rule};
use std::alloc::{AllocError, Global};

// A grant, and the requests that its binding allows.
#[derive(Clone, Copy)]
pub(crate) struct GrantUse<'p, 'a, 'r> {
    // The place of the binding.
    pub(crate) place: usize,
    // The number of the grant.
    pub(crate) number: u32,
    pub(crate) binding: &'p Binding,
    pub(crate) rule: &'p Rule,
    pub(crate) asked: &'a [Request<'r>],
}

// Adds the line of the rule, if no request uses it; otherwise those of its unused permissions.
pub(crate) fn add_of_rule(
    alloc: Global,
    used: GrantUse<'_, '_, '_>,
    found: &mut Vec<Unused>,
) -> Result<(), AllocError>
    ensures { OnOk result
        (AddsLines (IsRuleLine (use_of used.entry)) found.old.items found.new.items) }
{
    if is_asked(used.asked, used.rule) {
        return add_permissions(alloc, used, found);
    }
    if can_be_used(used.binding, used.rule) {
        found.push(Unused {
            binding: used.place,
            part: Part::Rule(used.number),
        })?;
    }
    Ok(())
}

// Adds the lines of the unused permissions, verb by verb.
fn add_permissions(
    alloc: Global,
    used: GrantUse<'_, '_, '_>,
    found: &mut Vec<Unused>,
) -> Result<(), AllocError>
    ensures { OnOk result
        (AddsLines (OfSome (IsVerbLine (use_of used.entry))) found.old.items found.new.items) }
{
    let verbs = used.rule.verbs.as_slice().len();
    for verb in 0..verbs {
        add_urls(alloc, used, verb, found)?;
        add_resources(alloc, used, verb, found)?;
    }
    Ok(())
}

// Adds the lines of the unused permissions with this verb for URLs.
fn add_urls(
    alloc: Global,
    used: GrantUse<'_, '_, '_>,
    verb: usize,
    found: &mut Vec<Unused>,
) -> Result<(), AllocError>
    ensures { OnOk result
        (AddsLines (OfSome (IsUrlLine (use_of used.entry) verb)) found.old.items
        found.new.items) }
{
    let urls = used.rule.urls.as_slice().len();
    for url in 0..urls {
        add(alloc, used, verb, TargetPlaces::Url(url), found)?;
    }
    Ok(())
}

// Adds the lines of the unused permissions with this verb for resources.
fn add_resources(
    alloc: Global,
    used: GrantUse<'_, '_, '_>,
    verb: usize,
    found: &mut Vec<Unused>,
) -> Result<(), AllocError>
    ensures { OnOk result
        (AddsLines (OfSome (IsGroupLine (use_of used.entry) verb)) found.old.items
        found.new.items) }
{
    let groups = used.rule.groups.as_slice().len();
    for group in 0..groups {
        add_of_group(alloc, used, verb, group, found)?;
    }
    Ok(())
}

// Adds the lines of the unused permissions with this verb for resources of this API group.
fn add_of_group(
    alloc: Global,
    used: GrantUse<'_, '_, '_>,
    verb: usize,
    group: usize,
    found: &mut Vec<Unused>,
) -> Result<(), AllocError>
    ensures { OnOk result (AddsLines (OfSome (IsResourceLine (use_of used.entry) verb group))
        found.old.items found.new.items) }
{
    let resources = used.rule.resources.as_slice().len();
    for resource in 0..resources {
        add_of_resource(alloc, used, verb, group, resource, found)?;
    }
    Ok(())
}

// Adds the lines of the unused permissions with this verb for this resource: for any object name,
// or for each name of the rule.
fn add_of_resource(
    alloc: Global,
    used: GrantUse<'_, '_, '_>,
    verb: usize,
    group: usize,
    resource: usize,
    found: &mut Vec<Unused>,
) -> Result<(), AllocError>
    ensures { OnOk result (AddsLines (IsResourceLine (use_of used.entry) verb group resource)
        found.old.items found.new.items) }
{
    let any = TargetPlaces::Resource {
        group,
        resource,
        name: None,
    };
    add(alloc, used, verb, any, found)?;
    add_names(alloc, used, verb, group, resource, found)
}

// Adds the lines of the unused permissions with this verb for this resource and an object name.
fn add_names(
    alloc: Global,
    used: GrantUse<'_, '_, '_>,
    verb: usize,
    group: usize,
    resource: usize,
    found: &mut Vec<Unused>,
) -> Result<(), AllocError>
    ensures { OnOk result (AddsLines (OfSome (IsNameLine (use_of used.entry) verb group resource))
        found.old.items found.new.items) }
{
    let names = used.rule.resource_names.as_slice().len();
    for name in 0..names {
        let named = TargetPlaces::Resource {
            group,
            resource,
            name: Some(name),
        };
        add(alloc, used, verb, named, found)?;
    }
    Ok(())
}

// Adds the line of the permission with these words, if some request can match it and none uses it.
fn add(
    alloc: Global,
    used: GrantUse<'_, '_, '_>,
    verb: usize,
    target: TargetPlaces,
    found: &mut Vec<Unused>,
) -> Result<(), AllocError>
    ensures { OnOk result (AddsLines (IsPermissionLine (use_of used.entry) verb target)
        found.old.items found.new.items) }
{
    if is_idle(alloc, used, verb, target)? {
        found.push(Unused {
            binding: used.place,
            part: Part::Permission {
                number: used.number,
                verb,
                target,
            },
        })?;
    }
    Ok(())
}

// Whether the permission with these words can be used, and no request uses it.
fn is_idle(
    alloc: Global,
    used: GrantUse<'_, '_, '_>,
    verb: usize,
    target: TargetPlaces,
) -> Result<bool, AllocError>
    ensures { IfOk result (λ idle. IsTrue idle ↔ IsIdleAt (use_of used.entry) verb target) }
{
    if !are_first(used.rule, verb, target) {
        return Ok(false);
    }
    match permission_at(alloc, used.rule, verb, target)? {
        Some(permission) => Ok(is_unused(used, &permission)),
        None => Ok(false),
    }
}

// Whether the permission can be used, and no request uses it.
fn is_unused(used: GrantUse<'_, '_, '_>, permission: &Rule) -> bool
    ensures { IsTrue result ↔ IsIdle (use_of used.entry) permission.now }
{
    can_be_used(used.binding, permission) && !is_asked(used.asked, permission)
}

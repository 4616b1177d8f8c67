//! Which resources are cluster-scoped.

ghost use Rattle.std.specs.Prelude.{IsTrue, ◌↔◌};
ghost use Rattle.rbac_catalogue.specs.Catalogue.{IsAbout, IsListed, HasNamespacedVersion};
ghost use Rattle.rbac_catalogue.specs.Catalogue.{IsClusterScoped};
ghost use Rattle.rbac_catalogue.specs.Catalogue.{IsClusterOnly};

use crate::entry::Entry;
use rbac_terms::cut_at_first;

// Whether the entry is about the resource of that group and text.
fn is_about(entry: &Entry, group: &[u8], text: &[u8]) -> bool
    ensures { IsTrue result ↔ IsAbout group.now text.now entry.now }
{
    entry.group.as_bytes() == group && entry.name.as_bytes() == text
}

fn is_listed(entries: &[Entry], group: &[u8], text: &[u8]) -> bool
    ensures { IsTrue result ↔ IsListed entries.now group.now text.now }
{
    entries.iter().any(|entry| is_about(entry, group, text))
}

fn is_namespaced(entries: &[Entry], group: &[u8], text: &[u8]) -> bool
    ensures { IsTrue result ↔ HasNamespacedVersion entries.now group.now text.now }
{
    entries
        .iter()
        .any(|entry| is_about(entry, group, text) && entry.namespaced)
}

fn is_cluster_scoped(entries: &[Entry], group: &[u8], text: &[u8]) -> bool
    ensures { IsTrue result ↔ IsClusterScoped entries.now group.now text.now }
{
    is_listed(entries, group, text) && !is_namespaced(entries, group, text)
}

// Whether the resource is known to be cluster-scoped. A subresource that isn't listed is scoped
// like its resource.
#[tactic(auto, unfolding(crate::specs::Catalogue::IsClusterOnly))]
pub(crate) fn is_cluster_only(entries: &[Entry], group: &[u8], text: &[u8]) -> bool
    ensures { IsTrue result ↔ IsClusterOnly entries.now group.now text.now }
{
    if is_listed(entries, group, text) {
        return is_cluster_scoped(entries, group, text);
    }
    match cut_at_first(text, b'/') {
        Some((resource, _)) => is_cluster_scoped(entries, group, resource),
        None => false,
    }
}

//! Marks: where a listing of every granting binding continues.

use rbac_terms::{Key, Word};

/// Where a listing continues (own): after all rows of the key's request or, with a binding, after
/// that binding's row of the request. The listing needn't contain the key or the binding.
#[derive(Drop)]
pub struct Mark {
    /// The key of the request.
    pub key: Key,
    /// The name of the binding; `None` means all bindings of the request.
    pub binding: Option<BindingName>,
}

/// The name of a binding: its namespace and its name there, which may be any texts, even empty
/// ones.
#[derive(Drop)]
pub struct BindingName {
    /// The namespace of a RoleBinding; `None` for a ClusterRoleBinding.
    pub namespace: Option<Word>,
    /// The binding's name.
    pub name: Word,
}

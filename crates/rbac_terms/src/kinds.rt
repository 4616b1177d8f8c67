//! The kind words of objects (Using RBAC Authorization, "API objects").

/// The kind of a [`Role`](crate::Role).
pub const ROLE: &str = "Role";

/// The kind of a [`ClusterRole`](crate::ClusterRole).
pub const CLUSTER_ROLE: &str = "ClusterRole";

/// The kind of a [`Binding`](crate::Binding) in a namespace.
pub const ROLE_BINDING: &str = "RoleBinding";

/// The kind of a [`Binding`](crate::Binding) in the whole cluster.
pub const CLUSTER_ROLE_BINDING: &str = "ClusterRoleBinding";

/// The kind of a namespace.
pub const NAMESPACE: &str = "Namespace";

/// The kind of a service account.
pub const SERVICE_ACCOUNT: &str = "ServiceAccount";

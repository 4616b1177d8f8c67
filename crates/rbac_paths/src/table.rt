//! The table of steps: the requests of each step, and what they take over.

use rbac_steps::Step;

/// Which object names the requests of a row have.
#[derive(Clone, Copy, PartialEq, Eq, Drop)]
pub(crate) enum Names {
    /// No name: a rule that is limited to names doesn't count.
    None,
    /// The name of the node that is taken over.
    Own,
    /// Any name: a rule counts whatever its names are.
    Any,
}

/// What a row takes over.
#[derive(Clone, Copy, PartialEq, Eq, Drop)]
pub(crate) enum Over {
    /// Users, except service accounts.
    Users,
    /// Groups.
    Groups,
    /// The groups that bootstrap tokens can have.
    Bootstrappers,
    /// Service accounts.
    Accounts,
    /// Everything in a scope.
    Everything,
    /// Everything in a namespace, and not in the whole cluster.
    EverythingInNamespace,
    /// Cluster roles, bound in a scope.
    ClusterRoles,
    /// Roles, bound in their own namespace.
    Roles,
    /// Nothing: whoever is allowed the requests has a power that leads to nobody.
    Nothing,
}

/// Where the requests of a row count.
#[derive(Clone, Copy, PartialEq, Eq, Drop)]
pub(crate) enum Counts {
    /// Only in the whole cluster.
    ClusterWide,
    /// In the whole cluster, and in a namespace.
    InNamespaces,
    /// In the whole cluster, and in the namespace `kube-system`.
    InKubeSystem,
}

/// A row of the table. Its requests are each of its verbs on each of its resources in its API
/// group.
pub(crate) struct Row {
    pub(crate) step: Step,
    pub(crate) names: Names,
    pub(crate) counts: Counts,
    pub(crate) verbs: &'static [&'static str],
    pub(crate) group: &'static str,
    pub(crate) resources: &'static [&'static str],
    pub(crate) over: Over,
}

// The API group of roles and bindings.
pub(crate) const RBAC: &str = "rbac.authorization.k8s.io";

// The API groups of certificates, of admission webhooks and policies, and of API services.
const CERTIFICATES: &str = "certificates.k8s.io";

const ADMISSION: &str = "admissionregistration.k8s.io";

const REGISTRATION: &str = "apiregistration.k8s.io";

// The verb that makes an object. The request has no name: the object is named in its content, which
// isn't compared with a rule's names.
const CREATE: &[&str] = &["create"];

// The verbs that change an object, which is named in the request.
const CHANGE: &[&str] = &["update", "patch"];

// The resources of the API group `apps` that make pods, or by which a StatefulSet or a DaemonSet is
// rolled back to what its pods were.
const APPS: &[&str] = &[
    "controllerrevisions",
    "daemonsets",
    "deployments",
    "replicasets",
    "statefulsets",
];

// Admission webhooks, and policies that change what others write.
const ADMITTING: &[&str] = &[
    "mutatingadmissionpolicies",
    "mutatingadmissionpolicybindings",
    "mutatingwebhookconfigurations",
    "validatingwebhookconfigurations",
];

// The table of steps. The Kubernetes page names most of the steps (Role Based Access Control Good
// Practices); this project chooses the others, and the requests of each (own).
pub(crate) const TABLE: [Row; 30] = [
    Row {
        step: Step::Impersonate,
        names: Names::Own,
        counts: Counts::ClusterWide,
        verbs: &["impersonate"],
        group: "",
        resources: &["users"],
        over: Over::Users,
    },
    Row {
        step: Step::Impersonate,
        names: Names::Own,
        counts: Counts::ClusterWide,
        verbs: &["impersonate"],
        group: "",
        resources: &["groups"],
        over: Over::Groups,
    },
    Row {
        step: Step::Impersonate,
        names: Names::Own,
        counts: Counts::InNamespaces,
        verbs: &["impersonate"],
        group: "",
        resources: &["serviceaccounts"],
        over: Over::Accounts,
    },
    Row {
        step: Step::Token,
        names: Names::Own,
        counts: Counts::InNamespaces,
        verbs: CREATE,
        group: "",
        resources: &["serviceaccounts/token"],
        over: Over::Accounts,
    },
    Row {
        step: Step::Run,
        names: Names::None,
        counts: Counts::InNamespaces,
        verbs: CREATE,
        group: "",
        resources: &["pods", "replicationcontrollers"],
        over: Over::Accounts,
    },
    Row {
        step: Step::Run,
        names: Names::None,
        counts: Counts::InNamespaces,
        verbs: CREATE,
        group: "apps",
        resources: APPS,
        over: Over::Accounts,
    },
    Row {
        step: Step::Run,
        names: Names::None,
        counts: Counts::InNamespaces,
        verbs: CREATE,
        group: "batch",
        resources: &["cronjobs", "jobs"],
        over: Over::Accounts,
    },
    Row {
        step: Step::Run,
        names: Names::Any,
        counts: Counts::InNamespaces,
        verbs: CHANGE,
        group: "",
        resources: &["replicationcontrollers"],
        over: Over::Accounts,
    },
    Row {
        step: Step::Run,
        names: Names::Any,
        counts: Counts::InNamespaces,
        verbs: CHANGE,
        group: "apps",
        resources: APPS,
        over: Over::Accounts,
    },
    Row {
        step: Step::Run,
        names: Names::Any,
        counts: Counts::InNamespaces,
        verbs: CHANGE,
        group: "batch",
        resources: &["cronjobs"],
        over: Over::Accounts,
    },
    Row {
        step: Step::Exec,
        names: Names::Any,
        counts: Counts::InNamespaces,
        verbs: &["create", "get"],
        group: "",
        resources: &["pods/attach", "pods/exec"],
        over: Over::Accounts,
    },
    Row {
        step: Step::Exec,
        names: Names::Any,
        counts: Counts::InNamespaces,
        verbs: CHANGE,
        group: "",
        resources: &["pods", "pods/ephemeralcontainers"],
        over: Over::Accounts,
    },
    Row {
        step: Step::Secrets,
        names: Names::Any,
        counts: Counts::InNamespaces,
        verbs: &["get", "list", "watch", "update", "patch", "delete"],
        group: "",
        resources: &["secrets"],
        over: Over::Accounts,
    },
    Row {
        step: Step::Secrets,
        names: Names::None,
        counts: Counts::InNamespaces,
        verbs: &["deletecollection"],
        group: "",
        resources: &["secrets"],
        over: Over::Accounts,
    },
    Row {
        step: Step::Nodes,
        names: Names::Any,
        counts: Counts::ClusterWide,
        verbs: &["create", "get"],
        group: "",
        resources: &["nodes/proxy"],
        over: Over::Accounts,
    },
    Row {
        step: Step::Bind,
        names: Names::None,
        counts: Counts::InNamespaces,
        verbs: &["bind"],
        group: RBAC,
        resources: &["clusterroles"],
        over: Over::Everything,
    },
    Row {
        step: Step::Bind,
        names: Names::Own,
        counts: Counts::InNamespaces,
        verbs: &["bind"],
        group: RBAC,
        resources: &["clusterroles"],
        over: Over::ClusterRoles,
    },
    Row {
        step: Step::Bind,
        names: Names::Own,
        counts: Counts::InNamespaces,
        verbs: &["bind"],
        group: RBAC,
        resources: &["roles"],
        over: Over::Roles,
    },
    Row {
        step: Step::Escalate,
        names: Names::Any,
        counts: Counts::ClusterWide,
        verbs: &["escalate"],
        group: RBAC,
        resources: &["clusterroles"],
        over: Over::Everything,
    },
    Row {
        step: Step::Escalate,
        names: Names::Any,
        counts: Counts::InNamespaces,
        verbs: &["escalate"],
        group: RBAC,
        resources: &["roles"],
        over: Over::EverythingInNamespace,
    },
    Row {
        step: Step::Certificates,
        names: Names::Any,
        counts: Counts::ClusterWide,
        verbs: CHANGE,
        group: CERTIFICATES,
        resources: &["certificatesigningrequests/approval"],
        over: Over::Everything,
    },
    Row {
        step: Step::Certificates,
        names: Names::None,
        counts: Counts::ClusterWide,
        verbs: CREATE,
        group: CERTIFICATES,
        resources: &[
            "certificatesigningrequests/nodeclient",
            "certificatesigningrequests/selfnodeclient",
        ],
        over: Over::Accounts,
    },
    Row {
        step: Step::Webhooks,
        names: Names::None,
        counts: Counts::ClusterWide,
        verbs: CREATE,
        group: ADMISSION,
        resources: ADMITTING,
        over: Over::Everything,
    },
    Row {
        step: Step::Webhooks,
        names: Names::Any,
        counts: Counts::ClusterWide,
        verbs: CHANGE,
        group: ADMISSION,
        resources: ADMITTING,
        over: Over::Everything,
    },
    Row {
        step: Step::ApiServices,
        names: Names::None,
        counts: Counts::ClusterWide,
        verbs: CREATE,
        group: REGISTRATION,
        resources: &["apiservices"],
        over: Over::Everything,
    },
    Row {
        step: Step::ApiServices,
        names: Names::Any,
        counts: Counts::ClusterWide,
        verbs: CHANGE,
        group: REGISTRATION,
        resources: &["apiservices"],
        over: Over::Everything,
    },
    Row {
        step: Step::Bootstrap,
        names: Names::None,
        counts: Counts::InKubeSystem,
        verbs: CREATE,
        group: "",
        resources: &["secrets"],
        over: Over::Bootstrappers,
    },
    Row {
        step: Step::Bootstrap,
        names: Names::Any,
        counts: Counts::InKubeSystem,
        verbs: CHANGE,
        group: "",
        resources: &["secrets"],
        over: Over::Bootstrappers,
    },
    Row {
        step: Step::Volumes,
        names: Names::None,
        counts: Counts::ClusterWide,
        verbs: CREATE,
        group: "",
        resources: &["persistentvolumes"],
        over: Over::Nothing,
    },
    Row {
        step: Step::Namespaces,
        names: Names::Any,
        counts: Counts::InNamespaces,
        verbs: CHANGE,
        group: "",
        resources: &["namespaces"],
        over: Over::Nothing,
    },
];

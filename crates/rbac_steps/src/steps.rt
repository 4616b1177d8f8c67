//! The steps by which one node takes over another.

ghost use Rattle.std.specs.Prelude.{◌≡◌};
ghost use Rattle.rbac_steps.specs.Steps.{steps, step_word};

/// A step by which a user or a group acts as somebody else, or gets more than its own rules allow
/// (Role Based Access Control Good Practices). The table of steps lists the requests of each step
/// (own).
#[derive(Clone, Copy, PartialEq, Eq, Debug, Drop)]
pub enum Step {
    /// Acts as somebody else by impersonation.
    Impersonate,
    /// Asks for a token of a service account.
    Token,
    /// Runs a container as a service account.
    Run,
    /// Gets into a container that runs as a service account.
    Exec,
    /// Reads secrets, which may contain tokens of service accounts.
    Secrets,
    /// Gets into the containers on a Kubernetes node, through the node's kubelet.
    Nodes,
    /// Binds roles with rules that it doesn't have itself.
    Bind,
    /// Writes rules that it doesn't have itself into roles.
    Escalate,
    /// Approves certificates, by which one can sign in as anyone.
    Certificates,
    /// Changes or reads what others write, through admission webhooks and policies.
    Webhooks,
    /// Answers requests in the API server's place, also those that tell it who asks.
    ApiServices,
    /// Signs in by a bootstrap token that it writes itself.
    Bootstrap,
    /// Makes volumes, which may be directories of a Kubernetes node.
    Volumes,
    /// Changes the labels of namespaces, which choose how much a pod may do on its Kubernetes node.
    Namespaces,
}

impl Step {
    /// All steps, in the order of the table.
    pub const ALL: [Step; 14] = [
        Step::Impersonate,
        Step::Token,
        Step::Run,
        Step::Exec,
        Step::Secrets,
        Step::Nodes,
        Step::Bind,
        Step::Escalate,
        Step::Certificates,
        Step::Webhooks,
        Step::ApiServices,
        Step::Bootstrap,
        Step::Volumes,
        Step::Namespaces,
    ];

    /// All steps, in the order of the table (own).
    pub fn all() -> &'static [Step]
        ensures { result.now ≡ steps }
    {
        &Step::ALL
    }

    /// The word for the step, as it is printed and given on a command line (own).
    #[tactic(auto, unfolding(crate::specs::Steps::step_word))]
    pub fn word(self) -> &'static [u8]
        ensures { result.now ≡ step_word self }
    {
        match self {
            Step::Impersonate => b"impersonate",
            Step::Token => b"token",
            Step::Run => b"run",
            Step::Exec => b"exec",
            Step::Secrets => b"secrets",
            Step::Nodes => b"nodes",
            Step::Bind => b"bind",
            Step::Escalate => b"escalate",
            Step::Certificates => b"certificates",
            Step::Webhooks => b"webhooks",
            Step::ApiServices => b"apiservices",
            Step::Bootstrap => b"bootstrap",
            Step::Volumes => b"volumes",
            Step::Namespaces => b"namespaces",
        }
    }
}

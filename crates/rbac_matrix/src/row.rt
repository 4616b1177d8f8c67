//! Rows of a matrix.

ghost use Rattle.std.specs.Prelude.{◌≡◌, IfOk, IfErr};
ghost use Rattle.rbac_terms.specs.Keys.{key_of, namespace_at};
ghost use Rattle.rbac_matrix.specs.Once.{repeats_at};
ghost use Rattle.rbac_matrix.specs.RowTexts.{texts_shown};

use crate::fault::MatrixFault;
use crate::line::Line;
use rbac_terms::{Binding, Key, Target, Word};

/// A row of the matrix: a request that fits and is allowed, as the six texts of its key, with the
/// first binding that grants it. In a listing of every granting binding, the binding is any that
/// grants it. Borrows from the index and the universe, and can be kept as long as they exist.
#[derive(Clone, Copy)]
pub struct Row<'m> {
    /// The principal's key.
    pub principal: &'m Word,
    /// The namespace; empty for the whole cluster, and so for a URL.
    pub namespace: &'m Word,
    /// The verb.
    pub verb: &'m Word,
    /// The API group; empty for the core group and for a URL.
    pub group: &'m Word,
    /// The resource text, or the URL.
    pub resource: &'m Word,
    /// The object name; empty for a URL, and if there is none.
    pub name: &'m Word,
    /// A binding that grants the request: the first one, or, in a listing of every granting
    /// binding, any.
    pub binding: &'m Binding,
}

impl Row<'_> {
    /// The key of the row: its six texts. Y1 NoMemory if it runs out of memory.
    pub fn key(&self) -> Result<Key, MatrixFault>
        ensures ok { IfOk result (λ k. k ≡ texts_shown self.now) }
        ensures only_memory { IfErr result (λ e. e ≡ MatrixFault.NoMemory) }
    {
        Ok(Key::of_texts(
            self.principal,
            self.namespace,
            self.verb,
            self.group,
            self.resource,
            self.name,
        )?)
    }

    /// Whether the row is a repeat: it has a namespace, and its binding is a ClusterRoleBinding. So
    /// its principal may do the same in the whole cluster (own). Doesn't allocate.
    pub fn is_repeat(&self) -> bool
        ensures { result ≡ repeats_at self.now.namespace.now self.now.binding.now.namespace }
    {
        is_repeat_in(self.namespace, self.binding)
    }
}

// Whether this namespace isn't empty and the binding is a ClusterRoleBinding.
pub(crate) fn is_repeat_in(namespace: &Word, binding: &Binding) -> bool
    ensures { result ≡ repeats_at namespace.now binding.now.namespace }
{
    !namespace.is_empty() && binding.namespace.is_none()
}

// The row of the line's request for this target, with this binding.
pub(crate) fn row_of<'m>(line: Line<'m>, target: &'m Target, binding: &'m Binding) -> Row<'m>
    requires { namespace_at line.namespace.now target.now ≡ line.namespace.now }
    ensures texts { texts_shown result
        ≡ key_of line.entry.principal.now line.entry.namespace.now line.entry.verb.now target.now }
    ensures binding { result.binding.now ≡ binding.now }
{
    Row {
        principal: line.principal.key(),
        namespace: line.namespace,
        verb: line.verb,
        group: target.group(),
        resource: target.text(),
        name: target.name(),
        binding,
    }
}

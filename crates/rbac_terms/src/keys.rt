//! The keys of requests, and their order.

ghost use Rattle.std.specs.Prelude.{◌≡◌, ◌<◌, IfOk, IfErr, slice_get, Some, map};
ghost use Rattle.rbac_terms.specs.Keys.{KeyTexts, key_of, texts};

use crate::fault::ModelFault;
use crate::request::{Principal, Target};
use crate::text::Word;
use std::alloc::Global;
use std::cmp::Ordering;
use std::marker::Model;

/// The key of a request: the principal's key, the namespace, verb, API group, resource text or URL,
/// and object name. A request for a URL has no namespace, API group or object name. Keys are
/// compared text by text, in the order of this list, and texts byte by byte (own).
pub struct Key {
    principal: Word,
    namespace: Word,
    verb: Word,
    group: Word,
    resource: Word,
    name: Word,
}

impl Drop for Key {
    fn drop(self) {
        let Self {
            principal,
            namespace,
            verb,
            group,
            resource,
            name,
        } = self;
    }
}

impl Model for Key {
    ghost use Rattle.rbac_terms.specs.Keys.{KeyTexts};

    ghost Value = { KeyTexts };

    ghost view = { λ k. record {
      principal = k.principal;
      namespace = k.namespace;
      verb = k.verb;
      group = k.group;
      resource = k.resource;
      name = k.name;
    } };
}

impl Key {
    /// The key of this request. Fails only if it runs out of memory, with P5 NoMemory.
    pub fn of(
        alloc: Global,
        principal: &Principal,
        namespace: &Word,
        verb: &Word,
        target: &Target,
    ) -> Result<Self, ModelFault>
        ensures ok { IfOk result (λ k. k ≡ key_of principal.now namespace.now verb.now target.now) }
        ensures only_memory { IfErr result (λ e. e ≡ ModelFault.NoMemory) }
    {
        let none = Word::new(alloc);
        let namespace = if target.is_url() { &none } else { namespace };
        Key::of_texts(
            principal.key(),
            namespace,
            verb,
            target.group(),
            target.text(),
            target.name(),
        )
    }

    /// The key with these six texts, whether or not any request has this key. Fails only if it runs
    /// out of memory, with P5 NoMemory.
    pub fn of_texts(
        principal: &Word,
        namespace: &Word,
        verb: &Word,
        group: &Word,
        resource: &Word,
        name: &Word,
    ) -> Result<Self, ModelFault>
        ensures ok { IfOk result
            (λ k. k ≡ record {
              principal = principal.now;
              namespace = namespace.now;
              verb = verb.now;
              group = group.now;
              resource = resource.now;
              name = name.now;
            }) }
        ensures only_memory { IfErr result (λ e. e ≡ ModelFault.NoMemory) }
    {
        Ok(Key {
            principal: principal.clone()?,
            namespace: namespace.clone()?,
            verb: verb.clone()?,
            group: group.clone()?,
            resource: resource.clone()?,
            name: name.clone()?,
        })
    }

    /// The text at this place, from 0 to 5 in the key's order. Doesn't allocate.
    pub fn field(&self, place: usize) -> &Word
        requires { place < 6 }
        ensures { slice_get (texts self.now) place ≡ Some result.now }
    {
        self.texts()[place]
    }

    fn texts(&self) -> [&Word; 6]
        ensures { map (λ text. text.now) result ≡ texts self.now }
    {
        [
            &self.principal,
            &self.namespace,
            &self.verb,
            &self.group,
            &self.resource,
            &self.name,
        ]
    }
}

impl PartialEq for Key {
    ghost use Rattle.std.specs.Cmp as Cmp;
    ghost use Rattle.std.specs.Ordering.{eq_by_cmp};
    ghost use Rattle.rbac_terms.specs.Keys.{key_cmp};
    ghost use Rattle.rbac_terms.specs.KeyOrder.{key_cmp_equiv};

    ghost eq = { eq_by_cmp key_cmp };

    ghost laws = { Cmp.partial_equiv_from_equiv key_cmp_equiv };

    fn eq(&self, other: &Self) -> bool {
        self.cmp(other) == Ordering::Equal
    }
}

impl Eq for Key {
    ghost use Rattle.rbac_terms.specs.KeyOrder.{key_cmp_equiv};

    ghost laws = { key_cmp_equiv };
}

impl PartialOrd for Key {
    ghost use Rattle.std.specs.Ordering.{as_partial_cmp};
    ghost use Rattle.rbac_terms.specs.Keys.{key_cmp};
    ghost use Rattle.rbac_terms.specs.KeyOrder.{key_cmp_partial};

    ghost partial_cmp = { as_partial_cmp key_cmp };

    ghost laws = { key_cmp_partial };

    fn partial_cmp(&self, other: &Self) -> Option<Ordering> {
        Some(self.cmp(other))
    }
}

impl Ord for Key {
    ghost use Rattle.std.specs.Prelude.{refl};
    ghost use Rattle.rbac_terms.specs.Keys.{key_cmp};
    ghost use Rattle.rbac_terms.specs.KeyOrder.{key_cmp_total};

    ghost cmp = { key_cmp };

    ghost total = { key_cmp_total };

    ghost matches_partial_cmp = { λ _ _. refl };

    ghost matches_eq = { λ _ _. refl };

    fn cmp(&self, other: &Self) -> Ordering {
        self.texts().as_slice().cmp(other.texts().as_slice())
    }
}

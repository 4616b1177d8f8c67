//! What documents gave so far, grouped by its use.

ghost use Rattle.std.specs.Prelude.{◌≡◌, ◌++◌, ◌∷◌, OnOk, []};
ghost use Rattle.rbac_manifest.specs.Contents.{sorted_contents, with_contents};

use crate::content::Content;
use rbac_catalogue::Catalogue;
use rbac_groups::Membership;
use rbac_lists::{Account, GivenLists};
use rbac_model::Object;
use rbac_terms::Word;
use std::alloc::{AllocError, Global};
use std::marker::Model;

// What documents gave, each kind in the order of the documents.
#[derive(Drop)]
pub(crate) struct Contents {
    pub objects: Vec<Object>,
    pub namespaces: Vec<Word>,
    pub accounts: Vec<Account>,
    pub catalogue: Catalogue,
    pub documents: Vec<GivenLists>,
    pub memberships: Vec<Membership>,
}

impl Model for Contents {
    ghost use Rattle.rbac_manifest.specs.Contents.{ContentsView};

    ghost Value = { ContentsView };

    ghost view = { λ g. record {
      objects = g.objects.items;
      namespaces = g.namespaces.items;
      accounts = g.accounts.items;
      catalogue = g.catalogue;
      documents = g.documents.items;
      memberships = g.memberships.items;
    } };
}

// Adds an item at the end.
fn put<T: Drop>(list: &mut Vec<T>, item: T) -> Result<(), AllocError>
    ensures { OnOk result (list.new.items ≡ list.old.items ++ item ∷ []) }
{
    list.push(item)?;
    Ok(())
}

impl Contents {
    // Nothing yet. Doesn't allocate.
    #[tactic(auto, unfolding(crate::specs::Contents::sorted_contents))]
    pub(crate) fn new(alloc: Global) -> Self
        ensures { result ≡ sorted_contents [] }
    {
        Contents {
            objects: Vec::new(alloc),
            namespaces: Vec::new(alloc),
            accounts: Vec::new(alloc),
            catalogue: Catalogue::new(alloc),
            documents: Vec::new(alloc),
            memberships: Vec::new(alloc),
        }
    }

    // Adds what a document gave.
    #[tactic(auto, unfolding(crate::specs::Contents::with_contents))]
    fn take(&mut self, content: Content) -> Result<(), AllocError>
        ensures { OnOk result (self.new ≡ with_contents self.old (content ∷ [])) }
    {
        match content {
            Content::Object(object) => put(&mut self.objects, object),
            Content::Namespace(name) => put(&mut self.namespaces, name),
            Content::Account(account) => put(&mut self.accounts, account),
            Content::ApiList(entries) => self.catalogue.give(entries),
            Content::Lists(lists) => put(&mut self.documents, lists),
            Content::Membership(membership) => put(&mut self.memberships, membership),
        }
    }

    // Adds what documents gave, in order.
    pub(crate) fn take_all(&mut self, given: Vec<Content>) -> Result<(), AllocError>
        ensures { OnOk result (self.new ≡ with_contents self.old given.items) }
    {
        for content in given {
            self.take(content)?;
        }
        Ok(())
    }
}

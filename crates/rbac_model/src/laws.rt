//! Laws of policies: what follows from the definitions alone. The functions do nothing; their
//! contracts are the laws.

ghost use Rattle.std.specs.Prelude.{◌≡◌, Any, Contains, List};
ghost use Rattle.rbac_model.specs.declared.objects.Object.{Object};
ghost use Rattle.rbac_model.specs.Kept.{AreKept};
ghost use Rattle.rbac_model.specs.OwnWords.{IsUrlSample};
ghost use Rattle.rbac_model.specs.Policies.{Held, IsHeld, OneListOfGrants};
ghost use Rattle.rbac_terms.specs.Matching.{NameMatches, ResourceWordMatches, UrlWordMatches};
ghost use Rattle.rbac_terms.specs.Matching.{VerbOk, WordMatches};
ghost use Rattle.rbac_terms.specs.Text.{Text};
ghost use Rattle.rbac_terms.specs.declared.matching.Rule.{Rule};

/// Held objects have only one list of grants. So the objects of a policy determine its grants, and
/// whether it has too many (own).
pub fn grants_are_one_list()
    ensures { (held : Held) → IsHeld held → OneListOfGrants held }
{}

/// The given objects determine which of them are kept (own).
pub fn kept_objects_are_one()
    ensures { (given : List Object) (held others : Held) → AreKept given held → AreKept given others
        → held ≡ others }
{}

/// A rule matches its own words, taken as texts: its verbs, groups, resource words and names, and
/// the samples of its URL words. So each rule allows its own samples (own).
pub fn words_match_themselves()
    ensures verbs { (r : Rule) (v : Text) → Contains r.verbs v → VerbOk r v }
    ensures groups { (r : Rule) (g : Text) → Contains r.groups g
        → Any (λ w. WordMatches w g) r.groups }
    ensures resources { (r : Rule) (x : Text) → Contains r.resources x
        → Any (λ w. ResourceWordMatches w x) r.resources }
    ensures names { (r : Rule) (n : Text) → Contains r.resource_names n
        → NameMatches r.resource_names n }
    ensures urls { (r : Rule) (w x : Text) → Contains r.urls w → IsUrlSample w x
        → Any (λ u. UrlWordMatches u x) r.urls }
{}

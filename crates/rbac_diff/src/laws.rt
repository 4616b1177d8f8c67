//! Laws of changes, each stated by the contract of a function that does nothing.

ghost use Rattle.std.specs.Prelude.{◌≡◌, ◌↔◌, List, map};
ghost use Rattle.rbac_model.specs.Policies.{PolicyView, IsPolicy};
ghost use Rattle.rbac_diff.specs.Changes.{ChangeView, AreChanges, NoneGained, TellsOf};
ghost use Rattle.rbac_diff.specs.Changes.{exchanged};
ghost use Rattle.rbac_diff.specs.Requests.{AllowsNoMore, IsGainedRequest, RequestView};

/// Two policies have one list of changes: any two lists of them are equal, in the same order (own).
pub fn changes_are_one()
    ensures { (before after : PolicyView) (xs others : List ChangeView)
        → AreChanges before after xs → AreChanges before after others → xs ≡ others }
{}

/// Any two policies have a list of changes, which may be empty (own). So whatever was printed when
/// printing stopped is a part of such a list.
pub fn a_list_of_changes_is_there()
    ensures { (before after : PolicyView) → IsPolicy before → IsPolicy after
        → (xs : List ChangeView) × AreChanges before after xs }
{}

/// The changes from the second policy to the first are the same permissions and bindings, but
/// gained ones are lost, and lost ones are gained (own). So each law about gained permissions holds
/// for lost ones, with the sides exchanged.
pub fn losses_are_gains_exchanged()
    ensures { (before after : PolicyView) (xs : List ChangeView) → AreChanges before after xs
        → AreChanges after before (map exchanged xs) }
{}

/// Nothing is gained exactly if the first policy allows every request that the second one allows:
/// of every user, in every namespace, with every verb, on every proper target. For each gained
/// request, some gained permission stands for it, and only for requests that the second policy
/// allows (own).
pub fn changes_tell_all()
    ensures nothing { (before after : PolicyView) (xs : List ChangeView) → IsPolicy before
        → IsPolicy after → AreChanges before after xs
        → NoneGained xs ↔ AllowsNoMore before after }
    ensures each { (before after : PolicyView) (xs : List ChangeView) (r : RequestView)
        → IsPolicy before → IsPolicy after → AreChanges before after xs
        → IsGainedRequest before after r → TellsOf before after xs r }
{}

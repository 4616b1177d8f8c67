//! Laws of loading: what follows from the definitions alone. The functions do little or nothing;
//! their contracts are the laws.

ghost use Rattle.std.specs.Prelude.{◌≡◌, List, ℕ};
ghost use Rattle.serde_json.specs.Data.{Data};
ghost use Rattle.rbac_manifest.specs.Document.{fault, stands};
ghost use Rattle.rbac_manifest.specs.Part.{read_of};
ghost use Rattle.rbac_manifest.specs.declared.kind.Implied.{Implied};
ghost use Rattle.rbac_manifest.specs.declared.fault.LoadFault.{LoadFault};
ghost use Rattle.rbac_manifest.specs.Load.{LoadedView, IsLoaded, HasFault, HasTooManyGrants};
ghost use Rattle.rbac_manifest.specs.Changed.{IsResolved};
ghost use Rattle.rbac_model.specs.Policies.{PolicyView};
ghost use Rattle.rbac_model.specs.declared.objects.Object.{Object};

use rbac_model::{grants_are_one_list, kept_objects_are_one};

/// Inputs that are loaded have no fault. So the inputs alone decide whether `load` accepts them,
/// unless it runs out of memory (own).
pub fn loaded_inputs_have_no_fault()
    ensures { (inputs : List (List ℕ)) (l : LoadedView) (f : LoadFault) → IsLoaded inputs l
        → HasFault inputs f → ⊥ }
{
    kept_objects_are_one();
    grants_are_one_list();
}

/// Inputs determine what is loaded: whoever loads the same inputs gets the same policy, catalogue
/// and lists (own).
pub fn loaded_inputs_are_one()
    ensures { (inputs : List (List ℕ)) (l others : LoadedView) → IsLoaded inputs l
        → IsLoaded inputs others → l ≡ others }
{
    kept_objects_are_one();
    grants_are_one_list();
}

/// Inputs have at most one fault: whoever refuses the same inputs reports the same fault (own).
pub fn load_faults_are_one()
    ensures { (inputs : List (List ℕ)) (f g : LoadFault) → HasFault inputs f → HasFault inputs g
        → f ≡ g }
{}

/// Objects determine their policy: whoever has the same objects gets the same policy (own).
pub fn resolved_policies_are_one()
    ensures { (objects : List Object) (p q : PolicyView) → IsResolved objects p
        → IsResolved objects q → p ≡ q }
{
    kept_objects_are_one();
    grants_are_one_list();
}

/// Objects that have a policy don't have too many grants. So the objects alone decide whether
/// `load_policy` accepts them, unless it runs out of memory (own).
pub fn resolved_policies_have_no_fault()
    ensures { (objects : List Object) (p : PolicyView) (f : LoadFault) → IsResolved objects p
        → HasTooManyGrants objects f → ⊥ }
{
    kept_objects_are_one();
    grants_are_one_list();
}

/// The members of a document that aren't read change nothing: without them the document has the
/// same fault, and gives the same (own).
#[tactic(auto, using(crate::proofs::Unread::same_fault, crate::proofs::Unread::same_stands))]
pub fn unread_members_say_nothing()
    ensures fault { (implied : Implied) (d : Data) → fault implied (read_of d) ≡ fault implied d }
    ensures gives { (implied : Implied) (d : Data) → stands implied (read_of d) ≡ stands implied d }
{}

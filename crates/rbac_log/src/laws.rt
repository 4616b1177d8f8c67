//! Laws of what a log tells, each stated by the contract of a function that does nothing.

ghost use Rattle.std.specs.Prelude.{◌≡◌, ◌++◌, [], List, Ok, Err, Some, codes};
ghost use Rattle.serde_json.specs.Data.{Data};
ghost use Rattle.json_fields.specs.Fields.{text_at};
ghost use Rattle.rbac_terms.specs.Principals.{Who, IsAccountOf, IsPart, account_user};
ghost use Rattle.rbac_terms.specs.Text.{Text};
ghost use Rattle.rbac_log.specs.Acting.{acting_as, impersonation};
ghost use Rattle.rbac_log.specs.Event.{code_at, decision_at, told};
ghost use Rattle.rbac_log.specs.Line.{told_by_items};
ghost use Rattle.rbac_log.specs.User.{full_text};
ghost use Rattle.rbac_log.specs.declared.fault.LineFault.{LineFault};
ghost use Rattle.rbac_log.specs.declared.logged.LoggedRequest.{LoggedRequest};

/// An event tells of nothing if its request was only received, since a later event tells of it
/// again; if the server has forbidden it; or if the server didn't know who asked (own).
pub fn what_was_not_allowed_tells_nothing()
    ensures received { (d : Data) (decision : Text)
        → text_at (codes "stage") d ≡ Some (codes "RequestReceived")
        → decision_at d ≡ Some decision → told d ≡ Ok [] }
    ensures forbidden { (d : Data) (stage : Text) → full_text (codes "stage") d ≡ Some stage
        → decision_at d ≡ Some (codes "forbid") → told d ≡ Ok [] }
    ensures unauthorized { (d : Data) (stage decision : Text)
        → full_text (codes "stage") d ≡ Some stage → decision_at d ≡ Some decision
        → code_at d ≡ Some 401 → told d ≡ Ok [] }
{}

/// The events of a list tell what each of them tells, in order, unless one has a fault; then the
/// list has the first one's fault (own).
pub fn events_tell_in_order()
    ensures requests { (ds es : List Data) (rs more : List LoggedRequest)
        → told_by_items ds ≡ Ok rs → told_by_items es ≡ Ok more
        → told_by_items (ds ++ es) ≡ Ok (rs ++ more) }
    ensures fault { (ds es : List Data) (fault : LineFault)
        → told_by_items ds ≡ Err fault → told_by_items (ds ++ es) ≡ Err fault }
{}

/// Who acts as a service account impersonates it in its namespace; who acts as any other user
/// impersonates that user in the whole cluster (Authenticating, "User impersonation").
pub fn accounts_are_impersonated_in_their_namespaces()
    ensures account { (user : Who) (namespace name : Text) → IsPart namespace → IsPart name
        → acting_as user (account_user namespace name)
        ≡ impersonation user namespace (codes "serviceaccounts") name }
    ensures other { (user : Who) (name : Text)
        → ((namespace : Text) → ¬ IsAccountOf name namespace)
        → acting_as user name ≡ impersonation user [] (codes "users") name }
{}

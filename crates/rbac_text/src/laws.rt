//! Laws of printed fields, each stated by the contract of a function that does nothing.

ghost use Rattle.std.specs.Prelude.{◌≡◌, All, false};
ghost use Rattle.rbac_terms.specs.Text.{Text};
ghost use Rattle.rbac_text.specs.Field.{field_text, is_control};

/// No two texts are printed alike as fields. A field contains no control byte, so neither a tab,
/// which ends a field, nor a newline, which ends a line (own).
pub fn fields_are_unlike()
    ensures one { (a b : Text) → field_text a ≡ field_text b → a ≡ b }
    ensures plain { (a : Text) → All (λ c. is_control c ≡ false) (field_text a) }
{}

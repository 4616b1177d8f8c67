//! Objects in order of their names.

ghost use Rattle.std.specs.Prelude.{◌<◌, IfSome, length};

use rbac_model::Named;

// The place of this object's namesake, searched from `from` on. `from` moves there, or to where the
// namesake would be. So namesakes are found if objects are looked up in order.
pub(crate) fn namesake_from<T: Named>(objects: &[T], from: &mut usize, object: &T) -> Option<usize>
    ensures { IfSome result (λ at. at < length objects.now) }
{
    while *from < objects.len() && objects[*from].cmp_name(object).is_lt() {
        *from += 1;
    }
    match objects.get(*from) {
        Some(held) if held.cmp_name(object).is_eq() => Some(*from),
        _ => None,
    }
}

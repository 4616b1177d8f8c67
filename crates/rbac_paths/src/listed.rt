//! Lists and marks by place, where places past the last one have none.

ghost use Rattle.std.specs.Prelude.{◌≡◌, [], false};
ghost use Rattle.std.specs.Prelude.{slice_index_or};
ghost use Rattle.rbac_paths.specs.SharedLists.{list_of};

use rbac_terms::Items;

/// The list at this place; empty past the last one.
pub(crate) fn listed_at<T>(lists: &[Items<T>], place: usize) -> &[T]
    ensures { result.now ≡ slice_index_or lists.now place [] }
{
    match lists.get(place) {
        Some(listed) => listed.as_slice(),
        None => &[],
    }
}

/// Whether this place is marked; `false` past the last one.
pub(crate) fn is_marked(marks: &[bool], place: usize) -> bool
    ensures { result ≡ slice_index_or marks.now place false }
{
    match marks.get(place) {
        Some(mark) => *mark,
        None => false,
    }
}

/// The place of the list of whatever has this place; the place itself past the last one.
pub(crate) fn list_of(places: &[usize], place: usize) -> usize
    ensures { result ≡ list_of places.now place }
{
    match places.get(place) {
        Some(list) => *list,
        None => place,
    }
}

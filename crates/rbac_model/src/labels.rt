//! The labels of all cluster roles, in order. Selectors are looked up in them, so that no export
//! can make selecting slow.

ghost use Rattle.std.specs.Prelude.{◌≡◌, ◌↔◌, ◌⊎◌, ◌≤◌, ◌<◌, ◌/◌, [], ℕ, Any, All, IfOk};
ghost use Rattle.std.specs.Prelude.{OnOk, IsTrue, length, slice_get, Some};
ghost use Rattle.std.specs.Option.{option_map};
ghost use Rattle.std.specs.Cmp.Lexicographic.{slice_cmp};
ghost use Rattle.std.specs.List.Sorted.{IsSorted};
ghost use Rattle.rbac_terms.specs.Text.{text_cmp};
ghost use Rattle.rbac_terms.specs.Selecting.{Selects, Meets, HasLabel, HasOneOf};
ghost use Rattle.rbac_model.specs.Graphs.{HasPlace};
ghost use Rattle.rbac_model.specs.Lists.{by_name};
ghost use Rattle.rbac_model.specs.Labelled.{LabelEntry, AreWith, IsWithAt, HasSome, Adds};
ghost use Rattle.rbac_model.specs.Labelled.{AreInLabelOrder, SayTheSame, IsWithEntry, label_texts};

use crate::place_set::PlaceSet;
use rbac_terms::{
    ClusterRole, Labels, Requirement, Requirements, SelectOp, Selector, Selectors, Word, Words,
};
use std::alloc::{AllocError, Global};
use std::cmp::Ordering;
use std::marker::Model;

// A label, and which of 64 neighbouring cluster roles have it: those whose bit is 1 in `bits`, the
// word that contains `place`. Without a value, the entry is about all labels with its key.
#[derive(Drop)]
struct Entry<'a> {
    key: &'a Word,
    value: Option<&'a Word>,
    place: usize,
    bits: u64,
}

impl<'a> Model for Entry<'a> {
    ghost use Rattle.std.specs.Option.{option_map};
    ghost use Rattle.rbac_model.specs.Labelled.{LabelEntry, label_texts};

    ghost Value = { LabelEntry };

    ghost view = { λ e. record {
      label = label_texts e.key.now (option_map (λ v. v.now) e.value);
      place = e.place;
      bits = e.bits;
    } };
}

impl<'a> Entry<'a> {
    // How the entry's label compares with this one; a key alone comes before the same key with a
    // value.
    fn cmp_label(&self, key: &Word, value: Option<&Word>) -> Ordering
        ensures { result
            ≡ slice_cmp text_cmp self.now.label
            (label_texts key.now (option_map (λ v. v.now) value.entry)) }
    {
        self.key.cmp(key).then(match (self.value, value) {
            (None, None) => Ordering::Equal,
            (None, Some(_)) => Ordering::Less,
            (Some(_), None) => Ordering::Greater,
            (Some(mine), Some(theirs)) => mine.cmp(theirs),
        })
    }

    // Whether both entries have the same label, and cluster roles of the same word.
    fn joins(&self, other: &Entry) -> bool
        ensures { IsTrue result
            ↔ ((self.now.label ≡ other.now.label)
            × (self.now.place / 64 ≡ other.now.place / 64)) }
    {
        self.cmp_label(other.key, other.value).is_eq() && self.place / 64 == other.place / 64
    }
}

// The labels of these cluster roles.
#[derive(Drop)]
pub(crate) struct Labelled<'a> {
    roles: &'a [ClusterRole],
    all: PlaceSet,
    entries: Vec<Entry<'a>>,
}

impl<'a> Model for Labelled<'a> {
    ghost use Rattle.std.specs.Prelude.{List, ℕ, ◌<◌, ◌↔◌, length};
    ghost use Rattle.rbac_terms.specs.declared.granting.ClusterRole.{ClusterRole};
    ghost use Rattle.rbac_model.specs.Graphs.{HasPlace};
    ghost use Rattle.rbac_model.specs.Labelled.{AreLabels};

    ghost Value = { List ClusterRole };

    ghost view = { λ l. l.roles.now };

    ghost invariant = { λ l. ((k : ℕ) → HasPlace l.all k ↔ (k < length l.roles.now))
        × AreLabels l.roles.now l.entries.items };
}

impl<'a> Labelled<'a> {
    pub(crate) fn new(alloc: Global, roles: &'a [ClusterRole]) -> Result<Self, AllocError>
        ensures { IfOk result (λ labelled. labelled ≡ roles.now) }
    {
        let mut entries = Vec::new(alloc);
        for (place, role) in roles.iter().enumerate() {
            push_labels(&role.labels, place, &mut entries)?;
        }
        entries.sort_by(|a, b| a.cmp_label(b.key, b.value))?;
        Ok(Labelled {
            roles,
            all: PlaceSet::up_to(alloc, roles.len())?,
            entries: joined(alloc, entries)?,
        })
    }

    // The cluster roles that one or more of the selectors select.
    pub(crate) fn gathered(
        &self,
        alloc: Global,
        selectors: &Selectors,
    ) -> Result<PlaceSet, AllocError>
        ensures { IfOk result
            (AreWith (λ labels. Any (λ selector. Selects selector labels) selectors.now) self.now) }
    {
        let mut places = PlaceSet::new(alloc);
        for selector in selectors.as_slice() {
            if self.all.first_outside(&places, self.roles.len()).is_none() {
                return Ok(places);
            }
            places.add(&self.selected(alloc, selector)?)?;
        }
        Ok(places)
    }

    // The cluster roles that the selector selects.
    fn selected(&self, alloc: Global, selector: &Selector) -> Result<PlaceSet, AllocError>
        ensures { IfOk result (AreWith (Selects selector.now) self.now) }
    {
        let mut places = self.having_all(alloc, &selector.labels)?;
        places.keep(&self.meeting_all(alloc, &selector.requirements)?);
        Ok(places)
    }

    // The cluster roles that have each of these labels.
    fn having_all(&self, alloc: Global, labels: &Labels) -> Result<PlaceSet, AllocError>
        ensures { IfOk result
            (AreWith (λ own. All (λ label. HasLabel own label.0 label.1) labels.now) self.now) }
    {
        let mut places = self.everyone()?;
        for label in labels.as_slice() {
            places.keep(&self.having(alloc, &label.0, Some(&label.1))?);
        }
        Ok(places)
    }

    // The cluster roles that meet each of these requirements.
    fn meeting_all(
        &self,
        alloc: Global,
        requirements: &Requirements,
    ) -> Result<PlaceSet, AllocError>
        ensures { IfOk result
            (AreWith (λ own. All
            (λ requirement. Meets requirement own) requirements.now) self.now) }
    {
        let mut places = self.everyone()?;
        for requirement in requirements.as_slice() {
            places.keep(&self.meeting(alloc, requirement)?);
        }
        Ok(places)
    }

    // The cluster roles that meet the requirement.
    fn meeting(&self, alloc: Global, requirement: &Requirement) -> Result<PlaceSet, AllocError>
        ensures { IfOk result (AreWith (Meets requirement.now) self.now) }
    {
        let key = &requirement.key;
        match requirement.op {
            SelectOp::OneOf => self.having_one_of(alloc, key, &requirement.values),
            SelectOp::NoneOf => self.others(&self.having_one_of(alloc, key, &requirement.values)?),
            SelectOp::Present => self.having(alloc, key, None),
            SelectOp::Absent => self.others(&self.having(alloc, key, None)?),
        }
    }

    // All cluster roles.
    fn everyone(&self) -> Result<PlaceSet, AllocError>
        ensures { IfOk result (λ places. (k : ℕ) → HasPlace places k ↔ (k < length self.now)) }
    {
        self.all.clone()
    }

    // All cluster roles that aren't in this set.
    fn others(&self, places: &PlaceSet) -> Result<PlaceSet, AllocError>
        ensures { IfOk result
            (λ others. (k : ℕ) → HasPlace others k
            ↔ ((k < length self.now) × (¬ HasPlace places.now k))) }
    {
        let mut others = self.everyone()?;
        others.remove(places);
        Ok(others)
    }

    // The cluster roles that have a label of this key, with one of these values.
    fn having_one_of(
        &self,
        alloc: Global,
        key: &Word,
        values: &Words,
    ) -> Result<PlaceSet, AllocError>
        ensures { IfOk result (AreWith (λ own. HasOneOf own key.now values.now) self.now) }
    {
        let mut places = PlaceSet::new(alloc);
        for value in values.as_slice() {
            self.put_having(key, Some(value), &mut places)?;
        }
        Ok(places)
    }

    // The cluster roles that have this label, or, if there is no value, a label of this key.
    fn having(
        &self,
        alloc: Global,
        key: &Word,
        value: Option<&Word>,
    ) -> Result<PlaceSet, AllocError>
        ensures { IfOk result
            (AreWith (λ own. HasSome own key.now (option_map (λ v. v.now) value.entry)) self.now) }
    {
        let mut places = PlaceSet::new(alloc);
        self.put_having(key, value, &mut places)?;
        Ok(places)
    }

    // Adds the cluster roles that have this label, or, if there is no value, a label of this key.
    fn put_having(
        &self,
        key: &Word,
        value: Option<&Word>,
        places: &mut PlaceSet,
    ) -> Result<(), AllocError>
        ensures { OnOk result
            ((k : ℕ) → HasPlace places.new k
            ↔ (HasPlace places.old k
            ⊎ IsWithAt
            (λ own. HasSome own key.now (option_map (λ v. v.now) value.entry)) self.now k)) }
    {
        let (from, to) = label_range(self.entries.as_slice(), key, value);
        for at in from..to {
            let entry = &self.entries[at];
            places.put(entry.place, entry.bits)?;
        }
        Ok(())
    }
}

// The range of this label's entries: from the first place up to, but not including, the second.
fn label_range(entries: &[Entry], key: &Word, value: Option<&Word>) -> (usize, usize)
    requires { IsSorted (by_name (λ e. e.label)) entries.now }
    ensures within { result.1 ≤ length entries.now }
    ensures between { (at : ℕ) (e : LabelEntry) → slice_get entries.now at ≡ Some e
        → ((result.0 ≤ at) × (at < result.1))
        ↔ (e.label ≡ label_texts key.now (option_map (λ v. v.now) value.entry)) }
{
    (
        entries.partition_point(|entry| entry.cmp_label(key, value).is_lt()),
        entries.partition_point(|entry| entry.cmp_label(key, value).is_le()),
    )
}

// Adds two entries for each label of the cluster role at this place: the label, and its key alone.
fn push_labels<'a>(
    labels: &'a Labels,
    place: usize,
    entries: &mut Vec<Entry<'a>>,
) -> Result<(), AllocError>
    ensures { OnOk result (Adds entries.old.items entries.new.items labels.now place) }
{
    let bits = 1 << (place % 64);
    for label in labels.as_slice() {
        let key = &label.0;
        entries.push(Entry {
            key,
            value: Some(&label.1),
            place,
            bits,
        })?;
        entries.push(Entry {
            key,
            value: None,
            place,
            bits,
        })?;
    }
    Ok(())
}

// Joins the entries that have the same label and the same word. Otherwise, if all roles select by
// one label, each of them would take as many steps as there are roles.
fn joined<'a>(alloc: Global, entries: Vec<Entry<'a>>) -> Result<Vec<Entry<'a>>, AllocError>
    requires { AreInLabelOrder entries.items }
    ensures { IfOk result
        (λ joined. AreInLabelOrder joined.items × SayTheSame entries.entry.items joined.items) }
{
    let mut joined = Vec::new(alloc);
    for entry in entries {
        put_entry(&mut joined, entry)?;
    }
    Ok(joined)
}

// Joins an entry to the last one, if both have the same label and word, or adds it after the last.
fn put_entry<'a>(joined: &mut Vec<Entry<'a>>, added: Entry<'a>) -> Result<(), AllocError>
    ensures { OnOk result (IsWithEntry joined.old.items added.entry joined.new.items) }
{
    if let Some(last) = joined.last_mut() {
        if last.joins(&added) {
            last.bits |= added.bits;
            return Ok(());
        }
    }
    joined.push(added)?;
    Ok(())
}

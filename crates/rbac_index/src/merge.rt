//! Merges ascending lists.

ghost use Rattle.std.specs.Prelude.{ℕ, IfOk, Any, Contains, ◌↔◌, IsPermutation, IsSorted, map, All};
ghost use Rattle.std.specs.Ordering.{nat_cmp};
ghost use Rattle.std.specs.List.Sorted.{IsStrictlyIncreasing};
ghost use Rattle.std.specs.Iterator.{YieldsFirst, item_count};
ghost use Rattle.itertools.specs.KMerge.{joined_lists};

use crate::numbers::GrantNos;
use itertools::Itertools;
use std::alloc::{AllocError, Global};
use std::marker::Model;

// The numbers of the grants at one place in each of the runs that begin at `starts`.
#[derive(Drop)]
pub(crate) struct Numbers<'a> {
    pub(crate) starts: &'a [u32],
    pub(crate) place: usize,
}

impl<'a> Model for Numbers<'a> {
    ghost use Rattle.std.specs.Prelude.{ℕ, List, ◌+◌, ◌<◌, ◌^◌, All, map};

    ghost Value = { List ℕ };

    ghost view = { λ s. map (λ start. start + s.place) s.starts.now };

    ghost invariant = { λ s. All (λ start. start + s.place < 2 ^ 32) s.starts.now };
}

impl Iterator for Numbers<'_> {
    type Item = u32;

    ghost next_gives = { YieldsFirst (λ numbers. numbers) };

    ghost remaining = { item_count (λ numbers. numbers) };

    fn next(&mut self) -> Option<u32> {
        let (first, others) = self.starts.split_first()?;
        self.starts = others;
        Some((*first as usize + self.place) as u32)
    }
}

// The numbers of ascending lists, in order.
fn merged_all(alloc: Global, lists: Vec<Numbers<'_>>) -> Result<Vec<u32>, AllocError>
    requires { All IsStrictlyIncreasing lists.items }
    ensures all { IfOk result (λ v. IsPermutation (joined_lists lists.entry.items) v.items) }
    ensures in_order { IfOk result (λ v. IsSorted nat_cmp v.items) }
{
    lists.into_iter().kmerge(alloc)?.collect(alloc)
}

// The numbers of ascending lists, each once.
pub(crate) fn merged(alloc: Global, lists: Vec<Numbers<'_>>) -> Result<GrantNos, AllocError>
    requires { All IsStrictlyIncreasing lists.items }
    ensures ascending { IfOk result (λ ns. IsStrictlyIncreasing ns) }
    ensures exact { IfOk result
        (λ ns. (n : ℕ) → Contains ns n ↔ Any (λ l. Contains l n) lists.entry.items) }
{
    let numbers = merged_all(alloc, lists)?;
    Ok(GrantNos::from_sorted(numbers))
}

//! How many entries of reaches an enumeration of a matrix reads.

ghost use Rattle.std.specs.Prelude.{◌≡◌, length};
ghost use Rattle.rbac_matrix.specs.Enumeration.{IsGoing};
ghost use Rattle.rbac_reaches.specs.Reaches.{AreReaches};

use crate::policies::{BindingRow, RuleRow, TO_ALICE, policy};
use crate::universes::{Listed, principals, universe, universe_of};
use crate::words::{built, is, word, words};
use rbac_index::Index;
use rbac_matrix::{Matrix, Row, Rows, Seat};
use rbac_reaches::{Meter, Reach, reaches_of};
use rbac_terms::Words;
use rbac_universe::{ListedResource, ListedResources, Universe, UniverseLists};
use std::alloc::Global;
use std::process::Abort;

// The resource of a row, if there is one, and the least and the most entries that are read by then.
type Step<'a> = (Option<&'a str>, u128, u128);

fn read_within(meter: &Meter, least: u128, most: u128) -> bool {
    least <= meter.count() && meter.count() <= most
}

// Whether the next row is the wanted one, and the number of reads by then is within its bounds.
fn gives(rows: &mut Rows<'_, '_>, wanted: &Step<'_>) -> bool
    requires { IsGoing rows.old }
    ensures { IsGoing rows.new }
{
    let (text, least, most) = *wanted;
    let got = match (rows.next(), text) {
        (Some(row), Some(text)) => is(row.resource, text),
        (None, None) => true,
        _ => false,
    };
    got && read_within(rows.meter(), least, most)
}

// Whether three calls of `next` give these steps, and at most `before` entries are read before
// them.
fn gives_all(
    index: &Index<'_>,
    universe: &Universe,
    reaches: &[Reach],
    seats: &mut [Seat],
    before: u128,
    steps: &[Step<'_>; 3],
) -> bool
    requires reaches { AreReaches index.now universe.now reaches.now }
    requires seats { length seats.old ≡ length index.now.grants }
{
    let mut matrix = Matrix::build(index, universe, reaches, seats);
    let mut rows = matrix.rows_after(None);
    let [first, second, third] = steps;
    if !read_within(rows.meter(), 0, before) || !gives(&mut rows, first) {
        return false;
    }
    gives(&mut rows, second) && gives(&mut rows, third)
}

fn index_gives(
    rt: &impl Abort,
    alloc: Global,
    index: &Index<'_>,
    universe: &Universe,
    before: u128,
    steps: &[Step<'_>; 3],
) -> bool {
    let reaches = reaches_of(alloc, index, universe).expect(rt, "memory");
    let mut seats = vec![in alloc; Seat::new(); index.len() as usize].expect(rt, "memory");
    gives_all(
        index,
        universe,
        reaches.as_slice(),
        seats.as_mut_slice(),
        before,
        steps,
    )
}

// Whether three calls of `next` give these steps in the matrix of what these rules grant to alice,
// and at most `before` entries are read before them.
fn matrix_gives(
    rt: &impl Abort,
    alloc: Global,
    rules: &[RuleRow<'_>],
    universe: Universe,
    before: u128,
    steps: &[Step<'_>; 3],
) -> bool {
    let policy = policy(rt, alloc, rules, TO_ALICE);
    let index = built(rt, Index::build(alloc, &policy));
    index_gives(rt, alloc, &index, &universe, before, steps)
}

// Two rules whose grants have reaches with three places in all.
const TWO_RULES: &[RuleRow<'static>] = &[
    [&["get"], &[""], &["pods"], &[]],
    [&["get"], &[""], &["*"], &[]],
];

const NODES_AND_PODS: &Listed<'static> = &Listed {
    users: &["alice"],
    groups: &[],
    namespaces: &[""],
    verbs: &["get"],
    resources: &[("", "nodes", false), ("", "pods", true)],
    names: &[""],
    urls: &[],
};

const TWO_ROWS: &[Step<'static>; 3] = &[(Some("nodes"), 1, 3), (Some("pods"), 2, 3), (None, 2, 3)];

#[test]
fn each_place_of_the_reaches_is_read_once(rt: HostRuntime) {
    let alloc = rt.alloc();
    let universe = universe(&rt, alloc, NODES_AND_PODS);
    assert!(rt; matrix_gives(&rt, alloc, TWO_RULES, universe, 3, TWO_ROWS));
}

// Whether there is a row, and it is of this resource.
fn shows(row: Option<Row<'_>>, resource: &str) -> bool {
    match row {
        Some(row) => is(row.resource, resource),
        None => false,
    }
}

// Whether one matrix gives these first rows when it is asked three times: for all rows, for those
// after the first row's key, and for those of every granting binding.
fn begins_again<'m>(
    rt: &impl Abort,
    index: &'m Index<'m>,
    universe: &'m Universe,
    reaches: &'m [Reach],
    seats: &mut [Seat],
    resources: &[&str; 2],
) -> bool
    requires reaches { AreReaches index.now universe.now reaches.now }
    requires seats { length seats.old ≡ length index.now.grants }
{
    let mut matrix = Matrix::build(index, universe, reaches, seats);
    let mut rows = matrix.rows_after(None);
    let Some(first) = rows.next() else {
        return false;
    };
    let key = built(rt, first.key());
    let mut matrix = rows.into_matrix();
    let mut rows = matrix.rows_after(Some(&key));
    let second = rows.next();
    let mut matrix = rows.into_matrix();
    let mut rows = matrix.every_after(None);
    let of_every = rows.next();
    let [one, other] = resources;
    is(first.resource, one) && shows(second, other) && shows(of_every, one)
}

fn index_begins_again(
    rt: &impl Abort,
    alloc: Global,
    index: &Index<'_>,
    universe: &Universe,
    resources: &[&str; 2],
) -> bool {
    let reaches = reaches_of(alloc, index, universe).expect(rt, "memory");
    let mut seats = vec![in alloc; Seat::new(); index.len() as usize].expect(rt, "memory");
    begins_again(
        rt,
        index,
        universe,
        reaches.as_slice(),
        seats.as_mut_slice(),
        resources,
    )
}

#[test]
fn a_matrix_is_asked_again(rt: HostRuntime) {
    let alloc = rt.alloc();
    let universe = universe(&rt, alloc, NODES_AND_PODS);
    let policy = policy(&rt, alloc, TWO_RULES, TO_ALICE);
    let index = built(&rt, Index::build(alloc, &policy));
    assert!(rt; index_begins_again(&rt, alloc, &index, &universe, &["nodes", "pods"]));
}

// A binding for the whole cluster, and one in a namespace.
const TWICE_TO_ALICE: &[BindingRow<'static>] = &[
    (None, "b", "r", &["alice"]),
    (Some("dev"), "own", "r", &["alice"]),
];

const IN_TWO_NAMESPACES: &Listed<'static> = &Listed {
    users: &["alice"],
    groups: &[],
    namespaces: &["", "dev", "prod"],
    verbs: &["get"],
    resources: &[("", "pods", true)],
    names: &[""],
    urls: &[],
};

// Whether there is a row, it is in this namespace, and it is no repeat.
fn is_own(row: Option<Row<'_>>, namespace: &str) -> bool {
    match row {
        Some(row) => is(row.namespace, namespace) && !row.is_repeat(),
        None => false,
    }
}

// Whether the rows without repeats are one in the whole cluster, and, with every granting binding,
// also one in `dev`.
fn lists_once(index: &Index<'_>, universe: &Universe, reaches: &[Reach], seats: &mut [Seat]) -> bool
    requires reaches { AreReaches index.now universe.now reaches.now }
    requires seats { length seats.old ≡ length index.now.grants }
{
    let mut matrix = Matrix::build(index, universe, reaches, seats);
    let mut rows = matrix.rows_after(None);
    rows.pass_repeats();
    let first = rows.next();
    rows.pass_repeats();
    let none = rows.next();
    let mut matrix = rows.into_matrix();
    let mut rows = matrix.every_after(None);
    rows.pass_repeats();
    let one = rows.next();
    rows.pass_repeats();
    let other = rows.next();
    rows.pass_repeats();
    let end = rows.next();
    is_own(first, "") && none.is_none() && is_own(one, "") && is_own(other, "dev") && end.is_none()
}

#[test]
fn repeats_are_passed(rt: HostRuntime) {
    let alloc = rt.alloc();
    let universe = universe(&rt, alloc, IN_TWO_NAMESPACES);
    let policy = policy(&rt, alloc, TWO_RULES, TWICE_TO_ALICE);
    let index = built(&rt, Index::build(alloc, &policy));
    let reaches = reaches_of(alloc, &index, &universe).expect(&rt, "memory");
    let mut seats = vec![in alloc; Seat::new(); index.len() as usize].expect(&rt, "memory");
    assert!(rt; lists_once(&index, &universe, reaches.as_slice(), seats.as_mut_slice()));
}

// A rule that allows one of 65 billion requests.
const ONE_REQUEST: &[RuleRow<'static>] = &[[&["v2"], &[""], &["r1"], &["n1"]]];

const ONE_ROW: &[Step<'static>; 3] = &[(Some("r1"), 1, 1), (None, 1, 1), (None, 1, 1)];

fn numbered(rt: &impl Abort, alloc: Global, letter: &str, last: u32) -> Words {
    let mut all = Words::new(alloc);
    for number in 1..=last {
        let text = built(rt, format!(in alloc; "{letter}{number}"));
        built(rt, all.push(word(rt, alloc, text.as_str())));
    }
    all
}

fn resources(rt: &impl Abort, alloc: Global, texts: Words) -> ListedResources {
    let mut all = ListedResources::new(alloc);
    for text in texts.into_vec() {
        let resource = ListedResource {
            group: word(rt, alloc, ""),
            text,
            namespaced: true,
        };
        built(rt, all.push(resource));
    }
    all
}

// A universe with the verbs v1, v2, .., and as many targets as a universe may have.
fn wide(rt: &impl Abort, alloc: Global) -> Universe {
    let wide = UniverseLists {
        principals: principals(rt, alloc, &["alice"], &[]),
        namespaces: words(rt, alloc, &[""]),
        verbs: numbered(rt, alloc, "v", 65_535),
        resources: resources(rt, alloc, numbered(rt, alloc, "r", 1000)),
        names: numbered(rt, alloc, "n", 1000),
        urls: Words::new(alloc),
    };
    universe_of(rt, alloc, wide)
}

#[test]
fn requests_that_no_one_may_make_cost_no_read(rt: HostRuntime) {
    let alloc = rt.alloc();
    let universe = wide(&rt, alloc);
    assert!(rt; matrix_gives(&rt, alloc, ONE_REQUEST, universe, 0, ONE_ROW));
}

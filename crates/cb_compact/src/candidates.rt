//! Sets that may join: one code, one length, live positions apart.

ghost use Rattle.std.specs.Prelude.{◌≡◌, ◌+◌, ◌<◌, true, false, IfNone, IfOk, IfSome, None, Some, length};
ghost use Rattle.std.specs.FinMap as map;
ghost use Rattle.cb_set.specs.SetState.{SetState};
ghost use Rattle.cb_world.specs.declared.shown.Shown.{Shown};
ghost use Rattle.cb_world.specs.FarSound.{AwaySound};
ghost use Rattle.cb_world.specs.Groups.{AreGrouped};
ghost use Rattle.cb_compact.specs.Candidates.{AreFirsts, AreSeen, AreWholeBut, CanMatch, HasNoPartner, IsAdded, IsCandidate, IsFirstMatch, IsPartner, NoneMatch, group, groups_of};
ghost use Rattle.cb_compact.specs.PairStep.{IsFirstPair, NoneCanJoin};
ghost use Rattle.cb_compact.specs.Tables.{AreMasks, AreTables};

use crate::tables::{Table, matches_none, tables_of};
use cb_types::NoMemory;
use cb_world::{Far, Group, KeptSet};
use std::alloc::Global;
use std::collections::BTreeSet;

/// A whole committed set: its number, its code, the pages of its spans, and its live positions as
/// bits.
#[derive(Clone, Copy)]
pub(crate) struct Candidate {
    pub id: u64,
    pub k: u32,
    pub r: u32,
    pub pages: u32,
    pub live: u32,
}

/// The group of a candidate.
fn group_of(candidate: Candidate) -> Group
    ensures { result ≡ group candidate }
{
    Group {
        k: candidate.k,
        r: candidate.r,
        pages: candidate.pages,
        live: candidate.live,
    }
}

/// A kept set as a candidate, if it is committed and whole.
fn whole_set(far: &Far, id: u64, kept: &KeptSet) -> Option<Candidate>
    requires sound { (s : Shown) × AwaySound s far.now }
    requires kept { map.get far.now.sets id ≡ Some kept.now }
    ensures found { IfSome result (λ c. (c.id ≡ id) × (set : SetState) × IsCandidate far.now c
        set) }
    ensures none { IfNone result ((c : Candidate) (set : SetState) → c.id ≡ id
        → ¬ (IsCandidate far.now c set)) }
{
    if !kept.committed || !kept.set.whole(&far.members) {
        return None;
    }
    Some(Candidate {
        id,
        k: kept.set.k(),
        r: kept.set.r(),
        pages: kept.set.pages(),
        live: kept.set.live_mask(),
    })
}

/// Whether both are of one code and one length and have no live position in common.
fn can_match(a: Candidate, b: Candidate) -> bool
    ensures yes { result ≡ true → CanMatch a b }
    ensures no { result ≡ false → ¬ (CanMatch a b) }
{
    a.k == b.k && a.r == b.r && a.pages == b.pages && a.live & b.live == 0
}

/// The first candidate after this one that matches it.
fn next_partner(found: &[Candidate], place: usize) -> Option<usize>
    requires { place < length found.now }
    ensures found { IfSome result (IsPartner found.now place) }
    ensures none { IfNone result (HasNoPartner found.now place) }
{
    for other in place + 1..found.len() {
        if can_match(found[place], found[other]) {
            return Some(other);
        }
    }
    None
}

/// The first candidate after this one that matches it. None is looked at where a table shows that
/// none does.
fn partner(found: &[Candidate], tables: &[Table], place: usize) -> Option<usize>
    requires place { place < length found.now }
    requires tables { AreTables found.now tables.now }
    requires masks { AreMasks found.now }
    ensures found { IfSome result (IsPartner found.now place) }
    ensures none { IfNone result (HasNoPartner found.now place) }
{
    if matches_none(found, tables, place) {
        return None;
    }
    next_partner(found, place)
}

/// Two candidates that match.
#[derive(Clone, Copy)]
pub(crate) struct Match {
    pub a: Candidate,
    pub b: Candidate,
}

/// The first two candidates that match.
fn first_match(found: &[Candidate], tables: &[Table]) -> Option<Match>
    requires tables { AreTables found.now tables.now }
    requires masks { AreMasks found.now }
    ensures found { IfSome result (λ m. IsFirstMatch found.now m.a m.b) }
    ensures none { IfNone result (NoneMatch found.now) }
{
    for place in 0..found.len() {
        if let Some(other) = partner(found, tables, place) {
            return Some(Match {
                a: found[place],
                b: found[other],
            });
        }
    }
    None
}

/// Adds a candidate if none of its group was found.
fn add_new(
    found: &mut Vec<Candidate>,
    seen: &mut BTreeSet<Group>,
    candidate: Candidate,
) -> Result<(), NoMemory>
    requires seen { AreSeen ⟦<Group as Ord>⟧.cmp found.old.items seen.old }
    ensures added { IfOk result (λ _. IsAdded found.old.items candidate found.new.items) }
    ensures seen { IfOk result (λ _. AreSeen ⟦<Group as Ord>⟧.cmp found.new.items seen.new) }
{
    if !seen.insert(group_of(candidate))? {
        return Ok(());
    }
    found.push(candidate)?;
    Ok(())
}

/// The first whole committed set of each group, in order of their numbers, and the numbers of the
/// sets that are not whole or not committed.
#[derive(Drop)]
struct FirstSets {
    found: Vec<Candidate>,
    others: Vec<u64>,
}

/// Adds a kept set: if it is committed and whole, where it is the first of its group, and else to
/// the others.
fn add_first(
    far: &Far,
    firsts: &mut FirstSets,
    seen: &mut BTreeSet<Group>,
    id: u64,
    kept: &KeptSet,
) -> Result<(), NoMemory>
    requires sound { (s : Shown) × AwaySound s far.now }
    requires kept { map.get far.now.sets id ≡ Some kept.now }
    requires found { AreFirsts far.now id firsts.old.found.items }
    requires seen { AreSeen ⟦<Group as Ord>⟧.cmp firsts.old.found.items seen.old }
    requires others { AreWholeBut far.now id firsts.old.others.items }
    ensures found { IfOk result (λ _. AreFirsts far.now (id + 1) firsts.new.found.items) }
    ensures seen { IfOk result (λ _. AreSeen ⟦<Group as Ord>⟧.cmp firsts.new.found.items
        seen.new) }
    ensures others { IfOk result (λ _. AreWholeBut far.now (id + 1) firsts.new.others.items) }
{
    let Some(candidate) = whole_set(far, id, kept) else {
        firsts.others.push(id)?;
        return Ok(());
    };
    add_new(&mut firsts.found, seen, candidate)
}

/// Looks at each set once, and with the logarithm of the count of groups.
fn firsts(far: &Far) -> Result<FirstSets, NoMemory>
    requires sound { (s : Shown) × AwaySound s far.now }
    ensures found { IfOk result (λ firsts. AreFirsts far.now far.now.counts.sets
        firsts.found.items) }
    ensures others { IfOk result (λ firsts. AreWholeBut far.now far.now.counts.sets
        firsts.others.items) }
{
    let mut seen = BTreeSet::new(far.alloc);
    let mut firsts = FirstSets {
        found: Vec::new(far.alloc),
        others: Vec::new(far.alloc),
    };
    let mut sets = far.sets.range_from(0);
    while let Some((id, kept)) = sets.next() {
        add_first(far, &mut firsts, &mut seen, *id, kept)?;
    }
    Ok(firsts)
}

/// The first two of these candidates that match. Where comparing each of them with each would cost
/// more than a table for it, one look at the table says of each whether any other matches it.
fn match_among(alloc: Global, found: &[Candidate]) -> Result<Option<Match>, NoMemory>
    requires masks { AreMasks found.now }
    ensures found { IfOk result (λ pair. IfSome pair (λ m. IsFirstMatch found.now m.a m.b)) }
    ensures none { IfOk result (λ pair. IfNone pair (NoneMatch found.now)) }
{
    let tables = tables_of(alloc, found)?;
    Ok(first_match(found, &tables))
}

/// The groups of these candidates.
fn groups_of(alloc: Global, found: &[Candidate]) -> Result<Vec<Group>, NoMemory>
    ensures { IfOk result (λ groups. groups.items ≡ groups_of found.now) }
{
    let mut groups = Vec::new(alloc);
    for candidate in found {
        groups.push(group_of(*candidate))?;
    }
    Ok(groups)
}

/// Lets the sets keep groups, and add those of the sets of these numbers.
fn keep_groups(far: &mut Far, groups: Vec<Group>, others: &[u64])
    requires { AreGrouped far.old.sets groups.items others.now }
    ensures { far.new ≡ far.old }
{
    far.sets.learn(groups, others);
}

/// Lets the sets keep their groups, none of which matches another one, where there is memory for
/// that.
fn keep_firsts(far: &mut Far, firsts: &FirstSets)
    requires sound { (s : Shown) × AwaySound s far.old }
    requires found { AreFirsts far.old far.old.counts.sets firsts.now.found.items }
    requires others { AreWholeBut far.old far.old.counts.sets firsts.now.others.items }
    requires none { NoneMatch firsts.now.found.items }
    ensures { far.new ≡ far.old }
{
    if let Ok(groups) = groups_of(far.alloc, &firsts.found) {
        keep_groups(far, groups, &firsts.others);
    }
}

/// The first two sets that can be joined, by a look at each set and then at the groups; where there
/// are none, the sets keep their groups.
fn search(far: &mut Far) -> Result<Option<Match>, NoMemory>
    requires sound { (s : Shown) × AwaySound s far.old }
    ensures same { far.new ≡ far.old }
    ensures found { IfOk result (λ found. IfSome found (λ m. (a : SetState) × (b : SetState)
        × IsFirstPair far.old m.a.id m.b.id a b)) }
    ensures none { IfOk result (λ found. IfNone found (NoneCanJoin far.old)) }
{
    let firsts = firsts(far)?;
    let pair = match_among(far.alloc, &firsts.found)?;
    if pair.is_none() {
        keep_firsts(far, &firsts);
    }
    Ok(pair)
}

/// Whether the groups that the sets keep, and a look at those that have changed, show that no two
/// can be joined.
fn none_match(far: &mut Far) -> bool
    ensures same { far.new ≡ far.old }
    ensures none { result ≡ true → NoneCanJoin far.old }
{
    far.sets.none_match()
}

/// The first two sets that can be joined: the least a that can be with one above it, and then the
/// least b. Where there were none at an earlier look, the sets that have changed since are compared
/// with the groups; where that does not show that there are still none, each set is looked at.
pub(crate) fn find_pair(far: &mut Far) -> Result<Option<Match>, NoMemory>
    requires sound { (s : Shown) × AwaySound s far.old }
    ensures same { far.new ≡ far.old }
    ensures found { IfOk result (λ found. IfSome found (λ m. (a : SetState) × (b : SetState)
        × IsFirstPair far.old m.a.id m.b.id a b)) }
    ensures none { IfOk result (λ found. IfNone found (NoneCanJoin far.old)) }
{
    if none_match(far) {
        return Ok(None);
    }
    search(far)
}

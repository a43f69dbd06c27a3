//! Sets that match the same others.

ghost use Rattle.std.specs.Prelude.{◌≡◌, ℕ, ◌≤◌, true, false, [], length};
ghost use Rattle.cb_world.specs.Groups.{DoMatch, IsAmong, NoGroupsMatch, group_of};

use arrayvec::ArrayVec;
use cb_set::SpanSet;
use std::alloc::Global;

/// How many changes of sets are noted between two looks at them.
const MOST_CHANGED: usize = 1024;

/// What sets have in common that match the same others: their code, their length, and their
/// live positions as bits.
#[derive(Clone, Copy, PartialEq, Eq, PartialOrd, Ord)]
pub struct Group {
    pub k: u32,
    pub r: u32,
    pub pages: u32,
    pub live: u32,
}

/// The group of a set.
pub fn group_of(set: &SpanSet) -> Group
    requires { length set.now.positions ≤ 32 }
    ensures { result ≡ group_of set.now }
{
    Group {
        k: set.k(),
        r: set.r(),
        pages: set.pages(),
        live: set.live_mask(),
    }
}

/// Whether both are of one code and one length and have no live position in common.
fn do_match(a: Group, b: Group) -> bool
    ensures { result ≡ false → ¬ (DoMatch a b) }
{
    a.k == b.k && a.r == b.r && a.pages == b.pages && a.live & b.live == 0
}

/// Whether a group is among these.
fn is_among(groups: &[Group], group: Group) -> bool
    ensures { result ≡ true → IsAmong group groups.now }
{
    for at in 0..groups.len() {
        if groups[at] == group {
            return true;
        }
    }
    false
}

/// Whether a group matches one of these.
fn matches_any(groups: &[Group], group: Group) -> bool
    ensures { result ≡ false → (g : Group) → IsAmong g groups.now → ¬ (DoMatch g group) }
{
    for at in 0..groups.len() {
        if do_match(groups[at], group) {
            return true;
        }
    }
    false
}

/// Puts a group to others of which no two match, where it is not among them; false where it matches
/// one of them or itself, or where there is no memory, and nothing changes then.
pub(crate) fn add_group(groups: &mut Vec<Group>, group: Group) -> bool
    requires none { NoGroupsMatch groups.old.items }
    ensures none { NoGroupsMatch groups.new.items }
    ensures keeps { (g : Group) → IsAmong g groups.old.items → IsAmong g groups.new.items }
    ensures among { result ≡ true → IsAmong group groups.new.items }
{
    if is_among(groups, group) {
        return true;
    }
    if do_match(group, group) || matches_any(groups, group) {
        return false;
    }
    match groups.push(group) {
        Ok(()) => true,
        Err(_) => false,
    }
}

/// Whether the last of these numbers is this one.
fn is_last(numbers: &[u64], number: u64) -> bool
    ensures { result ≡ true → IsAmong number numbers.now }
{
    let count = numbers.len();
    count > 0 && numbers[count - 1] == number
}

/// Groups of which no two match, and the numbers of the sets that have changed since. Where more
/// have changed than are noted, nothing is known.
#[derive(Drop)]
pub(crate) struct Groups {
    pub(crate) known: bool,
    pub(crate) list: Vec<Group>,
    pub(crate) changed: ArrayVec<u64, MOST_CHANGED>,
}

impl Groups {
    /// Nothing is known; takes no memory.
    pub(crate) fn new(alloc: Global) -> Groups
        ensures { result.known ≡ false }
    {
        Groups {
            known: false,
            list: Vec::new(alloc),
            changed: ArrayVec::new(),
        }
    }

    /// Notes that the set of a number has changed; where there is no room for that, nothing is
    /// known any more. Takes no memory.
    pub(crate) fn note(&mut self, id: u64)
        ensures was { self.new.known ≡ true → self.old.known ≡ true }
        ensures list { self.new.known ≡ true → self.new.list ≡ self.old.list }
        ensures noted { self.new.known ≡ true → IsAmong id self.new.changed.items }
        ensures keeps { self.new.known ≡ true → (other : ℕ) → IsAmong other self.old.changed.items
            → IsAmong other self.new.changed.items }
    {
        if !self.known {
            return;
        }
        if is_last(self.changed.as_slice(), id) {
            return;
        }
        if self.changed.is_full() {
            self.known = false;
            return;
        }
        self.changed.push(id);
    }

    /// These are the groups, and no set has changed.
    pub(crate) fn replace(&mut self, list: Vec<Group>)
        ensures list { self.new.list ≡ list }
        ensures changed { self.new.changed.items ≡ [] }
    {
        self.list = list;
        self.changed.clear();
    }
}

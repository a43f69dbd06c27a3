//! Calls of an array and of a map whose objects are here, and their time. None is answered where a
//! call was not answered so.
ghost use Rattle.cb_shared.specs.Passes.{IsPassOf, record_of};
ghost use Rattle.cb_farmap.specs.Arrays.{IsArrayOf};
ghost use Rattle.cb_farmap.specs.Maps.{IsMapOf};

use crate::deeds::{Deed, calls_of};
use crate::objects::begun;
use crate::timing::{now, since};
use cb_farmap::{Cannot, FarArray, FarMap};
use cb_shared::{Pass, Shared};
use std::alloc::Global;
use std::sync::Wait;
use std::time::Clock;

/// How many numbers the array has, in four objects.
const NUMBERS: u32 = 512;

/// How many pairs the map has, in one object of its one bucket.
const PAIRS: u32 = 64;

/// Whether a call was answered.
fn is_done<T>(answer: &Result<T, Cannot>) -> bool {
    answer.is_ok()
}

/// A call on the array at an index.
fn call_array<R: Wait>(
    rt: &R,
    alloc: Global,
    shared: &Shared,
    pass: &mut Pass,
    array: &mut FarArray,
    deed: Deed,
    i: u32,
) -> bool
    requires of { IsPassOf shared.now pass.old }
    requires array { IsArrayOf (record_of pass.old) array.old }
    ensures of { IsPassOf shared.now pass.new }
    ensures array { IsArrayOf (record_of pass.new) array.new }
{
    match deed {
        Deed::Get if i < array.len() => is_done(&array.get(rt, alloc, shared, pass, i)),
        Deed::Set if i < array.len() => is_done(&array.set(rt, alloc, shared, pass, i, 7)),
        Deed::Push if array.len() < NUMBERS => is_done(&array.push(rt, alloc, shared, pass, 7)),
        Deed::Pop => is_done(&array.pop(rt, alloc, shared, pass)),
        _ => false,
    }
}

/// A call on the map at a key.
fn call_map<R: Wait>(
    rt: &R,
    alloc: Global,
    shared: &Shared,
    pass: &mut Pass,
    map: &mut FarMap,
    deed: Deed,
    key: u64,
) -> bool
    requires of { IsPassOf shared.now pass.old }
    requires map { IsMapOf (record_of pass.old) map.old }
    ensures of { IsPassOf shared.now pass.new }
    ensures map { IsMapOf (record_of pass.new) map.new }
{
    match deed {
        Deed::MapLook => is_done(&map.look(rt, alloc, shared, pass, key)),
        Deed::MapPut if map.len() < 1_000_000_000 => {
            is_done(&map.put(rt, alloc, shared, pass, key, 7))
        }
        _ => false,
    }
}

/// A call for each number of the array.
fn round_of_array<R: Wait>(
    rt: &R,
    alloc: Global,
    shared: &Shared,
    pass: &mut Pass,
    array: &mut FarArray,
    deed: Deed,
) -> bool
    requires of { IsPassOf shared.now pass.old }
    requires array { IsArrayOf (record_of pass.old) array.old }
    ensures of { IsPassOf shared.now pass.new }
    ensures array { IsArrayOf (record_of pass.new) array.new }
{
    for n in 0..NUMBERS {
        if !call_array(rt, alloc, shared, pass, array, deed, n * 129 % NUMBERS) {
            return false;
        }
    }
    true
}

/// A call for each pair of the map.
fn round_of_map<R: Wait>(
    rt: &R,
    alloc: Global,
    shared: &Shared,
    pass: &mut Pass,
    map: &mut FarMap,
    deed: Deed,
) -> bool
    requires of { IsPassOf shared.now pass.old }
    requires map { IsMapOf (record_of pass.old) map.old }
    ensures of { IsPassOf shared.now pass.new }
    ensures map { IsMapOf (record_of pass.new) map.new }
{
    for n in 0..PAIRS {
        if !call_map(rt, alloc, shared, pass, map, deed, u64::from(n)) {
            return false;
        }
    }
    true
}

/// The time of a round on the array, which has all its numbers before and afterwards: those that are
/// pushed are popped before, and those that are popped are pushed again.
fn time_round<R: Clock + Wait>(
    rt: &R,
    alloc: Global,
    shared: &Shared,
    pass: &mut Pass,
    array: &mut FarArray,
    deed: Deed,
) -> Option<u64>
    requires of { IsPassOf shared.now pass.old }
    requires array { IsArrayOf (record_of pass.old) array.old }
    ensures of { IsPassOf shared.now pass.new }
    ensures array { IsArrayOf (record_of pass.new) array.new }
{
    let is_push = matches!(deed, Deed::Push);
    if is_push && !round_of_array(rt, alloc, shared, pass, array, Deed::Pop) {
        return None;
    }
    let start = now(rt)?;
    if !round_of_array(rt, alloc, shared, pass, array, deed) {
        return None;
    }
    let took = since(rt, start)?;
    let is_pop = matches!(deed, Deed::Pop);
    if is_pop && !round_of_array(rt, alloc, shared, pass, array, Deed::Push) {
        return None;
    }
    Some(took)
}

/// The time of a slice's calls on the array, which is filled first.
fn time_array<R: Clock + Wait>(
    rt: &R,
    alloc: Global,
    shared: &Shared,
    pass: &mut Pass,
    array: &mut FarArray,
    deed: Deed,
) -> Option<u64>
    requires of { IsPassOf shared.now pass.old }
    requires array { IsArrayOf (record_of pass.old) array.old }
{
    if !round_of_array(rt, alloc, shared, pass, array, Deed::Push) {
        return None;
    }
    let mut sum = 0u64;
    for _ in 0..calls_of(deed) / NUMBERS {
        sum = sum.saturating_add(time_round(rt, alloc, shared, pass, array, deed)?);
    }
    Some(sum)
}

/// The time of a slice's calls on the map, which is filled first.
fn time_map<R: Clock + Wait>(
    rt: &R,
    alloc: Global,
    shared: &Shared,
    pass: &mut Pass,
    map: &mut FarMap,
    deed: Deed,
) -> Option<u64>
    requires of { IsPassOf shared.now pass.old }
    requires map { IsMapOf (record_of pass.old) map.old }
{
    if !round_of_map(rt, alloc, shared, pass, map, Deed::MapPut) {
        return None;
    }
    let start = now(rt)?;
    for _ in 0..calls_of(deed) / PAIRS {
        if !round_of_map(rt, alloc, shared, pass, map, deed) {
            return None;
        }
    }
    since(rt, start)
}

/// The time of a slice on an array of its own.
fn slice_of_array<R: Clock + Wait>(
    rt: &R,
    alloc: Global,
    shared: &Shared,
    pass: &mut Pass,
    deed: Deed,
) -> Option<u64>
    requires of { IsPassOf shared.now pass.old }
{
    let mut array = FarArray::new(alloc);
    time_array(rt, alloc, shared, pass, &mut array, deed)
}

/// The time of a slice on a map of its own.
fn slice_of_map<R: Clock + Wait>(
    rt: &R,
    alloc: Global,
    shared: &Shared,
    pass: &mut Pass,
    deed: Deed,
) -> Option<u64>
    requires of { IsPassOf shared.now pass.old }
{
    match FarMap::new(alloc, 1) {
        Ok(mut map) => time_map(rt, alloc, shared, pass, &mut map, deed),
        Err(_) => None,
    }
}

/// The time of a slice in nanoseconds, in a runtime of its own.
pub(crate) fn slice<R: Clock + Wait>(rt: &R, alloc: Global, deed: Deed) -> Option<u64> {
    match begun(alloc, 1) {
        Ok((shared, mut first)) => match deed {
            Deed::MapLook | Deed::MapPut => slice_of_map(rt, alloc, &shared, &mut first, deed),
            _ => slice_of_array(rt, alloc, &shared, &mut first, deed),
        },
        Err(_) => None,
    }
}

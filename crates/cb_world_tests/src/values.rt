//! A far array and a far map on one pass, and what an array tells where another pass writes or frees
//! an object of it.
ghost use Rattle.std.specs.Prelude.{◌≡◌, ◌<◌, []};
ghost use Rattle.cb_rule.specs.Steps.{Knows};
ghost use Rattle.cb_shared.specs.Passes.{IsPassOf, record_of};
ghost use Rattle.cb_farmap.specs.Arrays.{IsArrayOf};
ghost use Rattle.cb_farmap.specs.Changes.{GoesOn};
ghost use Rattle.cb_farmap.specs.Maps.{IsMapOf};
ghost use Rattle.cb_world_tests.specs.Callers.{IsCaller};

use crate::bodies::Body;
use cb_farmap::{Cannot, FarArray, FarMap};
use cb_shared::{Pass, Shared};
use cb_types::{Handle, NoMemory, Reply};
use std::alloc::Global;
use std::sync::Wait;

/// An array and a map have fewer numbers and pairs.
const MOST: u32 = 1_000_000_000;

/// Counts a number once more.
fn count_one<R: Wait>(
    rt: &R,
    alloc: Global,
    shared: &Shared,
    pass: &mut Pass,
    counts: &mut FarMap,
    x: u64,
) -> Result<(), Cannot>
    requires of { IsPassOf shared.now pass.old }
    requires map { IsMapOf (record_of pass.old) counts.old }
    ensures of { IsPassOf shared.now pass.new }
    ensures map { IsMapOf (record_of pass.new) counts.new }
    ensures on { GoesOn (record_of pass.old) (record_of pass.new) }
{
    let before = counts.look(rt, alloc, shared, pass, x)?.unwrap_or(0);
    if counts.len() < MOST {
        counts.put(rt, alloc, shared, pass, x, before.saturating_add(1))?;
    }
    Ok(())
}

/// Counts how often each number stands in the array.
fn count_all<R: Wait>(
    rt: &R,
    alloc: Global,
    shared: &Shared,
    pass: &mut Pass,
    array: &mut FarArray,
    counts: &mut FarMap,
) -> Result<(), Cannot>
    requires of { IsPassOf shared.now pass.old }
    requires array { IsArrayOf (record_of pass.old) array.old }
    requires map { IsMapOf (record_of pass.old) counts.old }
    ensures of { IsPassOf shared.now pass.new }
    ensures array { IsArrayOf (record_of pass.new) array.new }
    ensures map { IsMapOf (record_of pass.new) counts.new }
{
    for i in 0..array.len() {
        let x = array.get(rt, alloc, shared, pass, i)?;
        count_one(rt, alloc, shared, pass, counts, x)?;
    }
    Ok(())
}

/// Whether the map has these numbers under the keys 0, 1 and so on.
fn has_all<R: Wait>(
    rt: &R,
    alloc: Global,
    shared: &Shared,
    pass: &mut Pass,
    counts: &mut FarMap,
    wanted: &[Option<u64>],
) -> Result<bool, Cannot>
    requires of { IsPassOf shared.now pass.old }
    requires map { IsMapOf (record_of pass.old) counts.old }
    ensures of { IsPassOf shared.now pass.new }
{
    for (key, number) in wanted.iter().enumerate() {
        if counts.look(rt, alloc, shared, pass, key as u64)? != *number {
            return Ok(false);
        }
    }
    Ok(true)
}

/// Whether an array of numbers 0, 1 and 2 in turns is filled, and they are counted as they are.
fn counts<R: Wait>(rt: &R, alloc: Global, shared: &Shared, pass: &mut Pass) -> Result<bool, Cannot>
    requires of { IsPassOf shared.now pass.old }
    ensures of { IsPassOf shared.now pass.new }
{
    let mut counts = FarMap::new(alloc, 4)?;
    let mut array = FarArray::new(alloc);
    let mut numbers = OnPass {
        rt,
        alloc,
        shared,
        pass,
        array: &mut array,
    };
    let is_filled = is_filled(&mut numbers, 301);
    let OnPass {
        rt: _,
        alloc: _,
        shared: _,
        pass: _,
        array: _,
    } = numbers;
    count_all(rt, alloc, shared, pass, &mut array, &mut counts)?;
    let wanted = [Some(101), Some(100), Some(100), None];
    Ok(is_filled && has_all(rt, alloc, shared, pass, &mut counts, &wanted)?)
}

/// What another pass does to an object.
#[derive(Clone, Copy)]
enum Foul {
    Nothing,
    Write,
    Free,
}

/// A call on an array: at the first number, or at the end. What is set is 9.
#[derive(Clone, Copy)]
enum Call {
    Get,
    Set,
    Push(u64),
    Pop,
}

/// What a call on an array is answered.
#[derive(Clone, Copy, PartialEq, Eq)]
enum Said {
    Done,
    Number(u64),
    Foreign { kept: u64, found: u64 },
    Freed,
    Other,
}

/// Why a call is not answered.
fn said_why(cannot: &Cannot) -> Said {
    match cannot {
        Cannot::Foreign { kept, found, .. } => Said::Foreign {
            kept: *kept,
            found: *found,
        },
        Cannot::Refused {
            reply: Reply::Freed,
        } => Said::Freed,
        _ => Said::Other,
    }
}

fn said_done(answer: &Result<(), Cannot>) -> Said {
    match answer {
        Ok(()) => Said::Done,
        Err(cannot) => said_why(cannot),
    }
}

fn said_number(answer: &Result<u64, Cannot>) -> Said {
    match answer {
        Ok(x) => Said::Number(*x),
        Err(cannot) => said_why(cannot),
    }
}

fn said_last(answer: &Result<Option<u64>, Cannot>) -> Said {
    match answer {
        Ok(Some(x)) => Said::Number(*x),
        Ok(None) => Said::Other,
        Err(cannot) => said_why(cannot),
    }
}

/// An array of one pass. The tables walk over any such, so that their proofs do not reach the types
/// of a runtime.
trait Numbers {
    // What follows is the same array of the same pass, of which more may be asked.
    ghost keeps: { Self → Self → Type 0 };

    /// What a call on the array is answered.
    fn say(&mut self, call: Call) -> Said
        requires { keeps self.old self.old }
        ensures { keeps self.old self.new };

    /// A second pass is split off, does this to the object of the array's first number, and is
    /// joined; whether it was done.
    fn foul(&mut self, foul: Foul) -> bool
        requires { keeps self.old self.old }
        ensures { keeps self.old self.new };

    // More may be asked.
    ghost again: { (a b : Self) → keeps a b → keeps b b };

    // It is the same after more.
    ghost more: { (a b c : Self) → keeps a b → keeps b c → keeps a c };
}

/// Whether so many numbers are put into the array, 0, 1 and 2 in turns.
fn is_filled<N: Numbers>(numbers: &mut N, count: u64) -> bool
    requires { N.keeps numbers.old numbers.old }
    ensures { N.keeps numbers.old numbers.new }
{
    let mut all = true;
    for n in 0..count {
        all &= numbers.say(Call::Push(n % 3)) == Said::Done;
    }
    all
}

/// What is done to an object; whether it was.
fn foul_by<R: Wait>(
    rt: &R,
    alloc: Global,
    shared: &Shared,
    pass: &mut Pass,
    h: Handle,
    foul: Foul,
) -> bool
    requires of { IsPassOf shared.now pass.old }
    requires knows { Knows h.n (record_of pass.old) }
    ensures of { IsPassOf shared.now pass.new }
{
    let reply = match foul {
        Foul::Nothing => return true,
        Foul::Write => shared.write(rt, alloc, pass, h, 0, &[8; 8]),
        Foul::Free => shared.free(rt, alloc, pass, h),
    };
    matches!(reply, Ok(Reply::Version { version: 2 }))
}

/// A second pass is split off, does this to the object of the array's first number, and is joined;
/// whether it was done.
fn foul_first<R: Wait>(
    rt: &R,
    alloc: Global,
    shared: &Shared,
    first: &mut Pass,
    array: &FarArray,
    foul: Foul,
) -> bool
    requires of { IsPassOf shared.now first.old }
    requires array { IsArrayOf (record_of first.old) array.now }
    requires some { 0 < array.now.len }
    ensures of { IsPassOf shared.now first.new }
    ensures array { IsArrayOf (record_of first.new) array.now }
{
    if first.share() <= 1 {
        return false;
    }
    let object = array.object_of(0);
    let mut second = shared.split(first, 1);
    let is_done = foul_by(rt, alloc, shared, &mut second, object.handle, foul);
    shared.join_pass(first, second);
    is_done
}

/// An array on a pass, with all that its calls take.
struct OnPass<'a, R: Wait> {
    rt: &'a R,
    alloc: Global,
    shared: &'a Shared,
    pass: &'a mut Pass,
    array: &'a mut FarArray,
}

impl<'a, R: Wait> Numbers for OnPass<'a, R> {
    ghost use Rattle.std.proofs.Common.{refl, sym, ◌∙◌};
    ghost use Rattle.cb_world_tests.specs.Callers.{pass_at};

    ghost keeps = { λ a b. IsPassOf a.shared.now b.pass.now
        × IsArrayOf (record_of b.pass.now) b.array.now × (b.shared.now ≡ a.shared.now)
        × (b.pass.ghost_name ≡ a.pass.ghost_name) × (b.array.ghost_name ≡ a.array.ghost_name) };

    fn say(&mut self, call: Call) -> Said {
        let (rt, alloc, shared) = (self.rt, self.alloc, self.shared);
        let (pass, array) = (&mut *self.pass, &mut *self.array);
        let is_some = 0 < array.len();
        match call {
            Call::Get if is_some => said_number(&array.get(rt, alloc, shared, pass, 0)),
            Call::Set if is_some => said_done(&array.set(rt, alloc, shared, pass, 0, 9)),
            Call::Push(x) if array.len() < MOST => {
                said_done(&array.push(rt, alloc, shared, pass, x))
            }
            Call::Pop => said_last(&array.pop(rt, alloc, shared, pass)),
            _ => Said::Other,
        }
    }

    fn foul(&mut self, foul: Foul) -> bool {
        let (pass, array) = (&mut *self.pass, &*self.array);
        0 < array.len() && foul_first(self.rt, self.alloc, self.shared, pass, array, foul)
    }

    ghost again = { λ a b k. (
      pass_at a.shared.now b.shared.now b.pass.now (sym k.2) k.0,
      k.1,
      refl,
      refl,
      refl,
    ) };

    ghost more = { λ a b c j k. (
      pass_at b.shared.now a.shared.now c.pass.now j.2 k.0,
      k.1,
      k.2 ∙ j.2,
      k.3 ∙ j.3,
      k.4 ∙ j.4,
    ) };
}

/// The object is kept at the version of its make, and has the next one.
const FOREIGN: Said = Said::Foreign { kept: 1, found: 2 };

/// What is done to the one object of an array, the next call, and what it is answered. Where
/// nothing is done, the array goes on after the split and the join.
const ROWS: [(Foul, Call, Said); 8] = [
    (Foul::Nothing, Call::Get, Said::Number(7)),
    (Foul::Nothing, Call::Set, Said::Done),
    (Foul::Nothing, Call::Push(9), Said::Done),
    (Foul::Nothing, Call::Pop, Said::Number(7)),
    (Foul::Write, Call::Get, FOREIGN),
    (Foul::Write, Call::Set, FOREIGN),
    (Foul::Free, Call::Get, Said::Freed),
    (Foul::Free, Call::Push(9), Said::Freed),
];

/// Whether every call is answered so, where something was done to the array's object: what tells of
/// another pass is told for good.
fn all_say<N: Numbers>(numbers: &mut N, foul: Foul, said: Said) -> bool
    requires { N.keeps numbers.old numbers.old }
    ensures { N.keeps numbers.old numbers.new }
{
    if let Foul::Nothing = foul {
        return true;
    }
    let mut all = true;
    for call in [Call::Get, Call::Set, Call::Push(9), Call::Pop, Call::Get] {
        all &= numbers.say(call) == said;
    }
    all
}

/// Whether a row holds of an empty array, into which 7 is put first.
fn is_row<N: Numbers>(numbers: &mut N, foul: Foul, call: Call, said: Said) -> bool
    requires { N.keeps numbers.old numbers.old }
    ensures { N.keeps numbers.old numbers.new }
{
    let made = numbers.say(Call::Push(7));
    let is_done = numbers.foul(foul);
    let told = numbers.say(call);
    let is_for_good = all_say(numbers, foul, said);
    is_done & is_for_good & (made == Said::Done) & (told == said)
}

/// Whether each row holds, of an array of its own.
fn are_rows<R: Wait>(rt: &R, alloc: Global, shared: &Shared, pass: &mut Pass) -> bool
    requires of { IsPassOf shared.now pass.old }
    ensures of { IsPassOf shared.now pass.new }
{
    let mut all = true;
    for (foul, call, said) in ROWS {
        let mut array = FarArray::new(alloc);
        let mut numbers = OnPass {
            rt,
            alloc,
            shared,
            pass,
            array: &mut array,
        };
        all &= is_row(&mut numbers, foul, call, said);
        let OnPass {
            rt: _,
            alloc: _,
            shared: _,
            pass: _,
            array: _,
        } = numbers;
    }
    all
}

/// Whether arrays and maps are answered so, where they are to be; what else the test makes comes
/// after them.
pub(crate) fn are_values<R: Wait>(
    rt: &R,
    alloc: Global,
    shared: &Shared,
    pass: &mut Pass,
    body: Body,
) -> bool
    requires caller { IsCaller shared.now [] pass.old }
    ensures caller { IsCaller shared.now [] pass.new }
{
    match body {
        Body::Values => {
            matches!(counts(rt, alloc, shared, pass), Ok(true)) && are_rows(rt, alloc, shared, pass)
        }
        _ => true,
    }
}

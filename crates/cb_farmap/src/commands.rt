//! Commands on one array and one map, which one pass keeps.
ghost use Rattle.std.specs.Prelude.{◌≡◌, ◌≤◌, ◌<◌, ◌∷◌, ◌++◌, [], length, IfOk, OnErr, OnOk};
ghost use Rattle.cb_shared.specs.Passes.{IsPassOf, IsRuntimeBegun, record_of};
ghost use Rattle.cb_shared.specs.Recalls.{first_version_of};
ghost use Rattle.cb_map_text.specs.Plain.{found_said};
ghost use Rattle.cb_map_text.specs.declared.command.FarAnswer.TheVariants.{Done, Number};
ghost use Rattle.cb_map_text.specs.declared.command.FarCommand.TheVariants as command;
ghost use Rattle.cb_farmap.specs.Arrays.{no_array};
ghost use Rattle.cb_farmap.specs.Calls.{trouble};
ghost use Rattle.cb_farmap.specs.Changes.{IsCalm};
ghost use Rattle.cb_farmap.specs.Commands.{HaveGone};
ghost use Rattle.cb_farmap.specs.Maps.{no_map};
ghost use Rattle.cb_farmap.specs.Stands.{AreReady, GoesSo, Says, SaysWhy};

use crate::array::FarArray;
use crate::kept::Cannot;
use crate::map::FarMap;
use cb_map_text::{FarAnswer, FarCommand};
use cb_shared::{Pass, Shared};
use cb_types::NoMemory;
use std::alloc::Global;
use std::marker::Model;
use std::sync::Wait;

/// The map has so many buckets.
const BUCKETS: u32 = 64;

/// What was said to commands, in order. Contracts see it as a list.
#[derive(Drop)]
pub struct FarAnswers {
    items: Vec<FarAnswer>,
}

impl Model for FarAnswers {
    ghost use Rattle.std.specs.Prelude.{List};
    ghost use Rattle.cb_map_text.specs.declared.command.FarAnswer.{FarAnswer};

    ghost Value = { List FarAnswer };

    ghost view = { λ a. a.items.items };
}

impl FarAnswers {
    /// Nothing was said; takes no memory.
    fn new(alloc: Global) -> FarAnswers
        ensures empty { result ≡ [] }
    {
        FarAnswers {
            items: Vec::new(alloc),
        }
    }

    /// What was said, to the first command first.
    pub fn as_slice(&self) -> &[FarAnswer]
        ensures items { result.now ≡ self.now }
    {
        self.items.as_slice()
    }

    /// Adds what was said to the next command.
    fn push(&mut self, said: FarAnswer) -> Result<(), NoMemory>
        ensures ok { OnOk result (self.new ≡ self.old ++ said ∷ []) }
        ensures err { OnErr result (self.new ≡ self.old) }
    {
        self.items.push(said)?;
        Ok(())
    }
}

/// An array and a map on one pass.
#[derive(Drop)]
struct FarPair {
    array: FarArray,
    map: FarMap,
}

/// Answers commands, one after another, by one array and by one map of 64 buckets, on the pass of a
/// runtime that was just begun, whose makes give version 1. What the runtime refuses is said, and
/// leaves the array and the map as they were. Waits where a call of the runtime does.
pub fn run_commands<R: Wait>(
    rt: &R,
    alloc: Global,
    shared: &Shared,
    pass: &mut Pass,
    asks: &[FarCommand],
) -> Result<FarAnswers, NoMemory>
    requires begun { IsRuntimeBegun 1 shared.now.config shared.now pass.old }
    requires few { length asks.now ≤ 1000000000 }
    ensures of { IsPassOf shared.now pass.new }
    ensures go { IfOk result (λ saids. HaveGone shared.now.config 1 asks.now saids
        (record_of pass.old) (record_of pass.new)) }
    ensures loose { IfOk result (λ _. (record_of pass.new).pins ≡ []) }
{
    let mut far = FarPair::new(alloc)?;
    let mut saids = FarAnswers::new(alloc);
    for ask in asks {
        let said = answer_one(rt, alloc, shared, pass, &mut far, *ask)?;
        saids.push(said)?;
    }
    Ok(saids)
}

impl FarPair {
    /// An empty array, and an empty map of 64 buckets. Takes the memory of the buckets.
    fn new(alloc: Global) -> Result<FarPair, NoMemory>
        ensures array { IfOk result (λ far. far.array ≡ no_array) }
        ensures map { IfOk result (λ far. far.map ≡ no_map 64) }
    {
        let map = FarMap::new(alloc, BUCKETS)?;
        let array = FarArray::new(alloc);
        Ok(FarPair { array, map })
    }
}

/// Answers a command.
fn answer_one<R: Wait>(
    rt: &R,
    alloc: Global,
    shared: &Shared,
    pass: &mut Pass,
    far: &mut FarPair,
    ask: FarCommand,
) -> Result<FarAnswer, NoMemory>
    requires of { IsPassOf shared.now pass.old }
    requires first { first_version_of shared.now ≡ 1 }
    requires ready { AreReady (record_of pass.old) far.old.array far.old.map }
    ensures of { IsPassOf shared.now pass.new }
    ensures goes { IfOk result (λ said. GoesSo shared.now.config ask (record_of pass.old)
        far.old.array far.old.map said (record_of pass.new) far.new.array far.new.map) }
{
    match ask {
        FarCommand::Push { x } => push(rt, alloc, shared, pass, far, x),
        FarCommand::Set { i, x } => set(rt, alloc, shared, pass, far, i, x),
        FarCommand::Get { i } => get(rt, alloc, shared, pass, far, i),
        FarCommand::Pop => pop(rt, alloc, shared, pass, far),
        FarCommand::Put { key, x } => put(rt, alloc, shared, pass, far, key, x),
        FarCommand::Look { key } => look(rt, alloc, shared, pass, far, key),
        FarCommand::Drop { key } => drop_key(rt, alloc, shared, pass, far, key),
    }
}

/// Puts a number at the end of the array.
fn push<R: Wait>(
    rt: &R,
    alloc: Global,
    shared: &Shared,
    pass: &mut Pass,
    far: &mut FarPair,
    x: u64,
) -> Result<FarAnswer, NoMemory>
    requires of { IsPassOf shared.now pass.old }
    requires first { first_version_of shared.now ≡ 1 }
    requires ready { AreReady (record_of pass.old) far.old.array far.old.map }
    ensures of { IsPassOf shared.now pass.new }
    ensures goes { IfOk result (λ said. GoesSo shared.now.config (command.Push x)
        (record_of pass.old) far.old.array far.old.map said
        (record_of pass.new) far.new.array far.new.map) }
{
    let pushed = far.array.push(rt, alloc, shared, pass, x);
    shared.recall(pass);
    said_done(pushed)
}

/// Puts a number in the place of the one with this index, where there is one.
fn set<R: Wait>(
    rt: &R,
    alloc: Global,
    shared: &Shared,
    pass: &mut Pass,
    far: &mut FarPair,
    i: u32,
    x: u64,
) -> Result<FarAnswer, NoMemory>
    requires of { IsPassOf shared.now pass.old }
    requires first { first_version_of shared.now ≡ 1 }
    requires ready { AreReady (record_of pass.old) far.old.array far.old.map }
    ensures of { IsPassOf shared.now pass.new }
    ensures goes { IfOk result (λ said. GoesSo shared.now.config (command.Set i x)
        (record_of pass.old) far.old.array far.old.map said
        (record_of pass.new) far.new.array far.new.map) }
{
    let len = far.array.len();
    if i >= len {
        shared.recall(pass);
        return Ok(FarAnswer::Outside { len });
    }
    let set = far.array.set(rt, alloc, shared, pass, i, x);
    shared.recall(pass);
    said_done(set)
}

/// The number with this index, where there is one.
fn get<R: Wait>(
    rt: &R,
    alloc: Global,
    shared: &Shared,
    pass: &mut Pass,
    far: &mut FarPair,
    i: u32,
) -> Result<FarAnswer, NoMemory>
    requires of { IsPassOf shared.now pass.old }
    requires first { first_version_of shared.now ≡ 1 }
    requires ready { AreReady (record_of pass.old) far.old.array far.old.map }
    ensures of { IsPassOf shared.now pass.new }
    ensures goes { IfOk result (λ said. GoesSo shared.now.config (command.Get i)
        (record_of pass.old) far.old.array far.old.map said
        (record_of pass.new) far.new.array far.new.map) }
{
    let len = far.array.len();
    if i >= len {
        shared.recall(pass);
        return Ok(FarAnswer::Outside { len });
    }
    let got = far.array.get(rt, alloc, shared, pass, i);
    shared.recall(pass);
    said_number(got)
}

/// Takes the last number of the array away.
fn pop<R: Wait>(
    rt: &R,
    alloc: Global,
    shared: &Shared,
    pass: &mut Pass,
    far: &mut FarPair,
) -> Result<FarAnswer, NoMemory>
    requires of { IsPassOf shared.now pass.old }
    requires first { first_version_of shared.now ≡ 1 }
    requires ready { AreReady (record_of pass.old) far.old.array far.old.map }
    ensures of { IsPassOf shared.now pass.new }
    ensures goes { IfOk result (λ said. GoesSo shared.now.config command.Pop
        (record_of pass.old) far.old.array far.old.map said
        (record_of pass.new) far.new.array far.new.map) }
{
    let popped = far.array.pop(rt, alloc, shared, pass);
    shared.recall(pass);
    said_found(popped)
}

/// Puts a number under a key of the map.
fn put<R: Wait>(
    rt: &R,
    alloc: Global,
    shared: &Shared,
    pass: &mut Pass,
    far: &mut FarPair,
    key: u64,
    x: u64,
) -> Result<FarAnswer, NoMemory>
    requires of { IsPassOf shared.now pass.old }
    requires first { first_version_of shared.now ≡ 1 }
    requires ready { AreReady (record_of pass.old) far.old.array far.old.map }
    ensures of { IsPassOf shared.now pass.new }
    ensures goes { IfOk result (λ said. GoesSo shared.now.config (command.Put key x)
        (record_of pass.old) far.old.array far.old.map said
        (record_of pass.new) far.new.array far.new.map) }
{
    let put = far.map.put(rt, alloc, shared, pass, key, x);
    shared.recall(pass);
    said_found(put)
}

/// The number under a key.
fn look<R: Wait>(
    rt: &R,
    alloc: Global,
    shared: &Shared,
    pass: &mut Pass,
    far: &mut FarPair,
    key: u64,
) -> Result<FarAnswer, NoMemory>
    requires of { IsPassOf shared.now pass.old }
    requires first { first_version_of shared.now ≡ 1 }
    requires ready { AreReady (record_of pass.old) far.old.array far.old.map }
    ensures of { IsPassOf shared.now pass.new }
    ensures goes { IfOk result (λ said. GoesSo shared.now.config (command.Look key)
        (record_of pass.old) far.old.array far.old.map said
        (record_of pass.new) far.new.array far.new.map) }
{
    let found = far.map.look(rt, alloc, shared, pass, key);
    shared.recall(pass);
    said_found(found)
}

/// Takes a key and its number out of the map.
fn drop_key<R: Wait>(
    rt: &R,
    alloc: Global,
    shared: &Shared,
    pass: &mut Pass,
    far: &mut FarPair,
    key: u64,
) -> Result<FarAnswer, NoMemory>
    requires of { IsPassOf shared.now pass.old }
    requires first { first_version_of shared.now ≡ 1 }
    requires ready { AreReady (record_of pass.old) far.old.array far.old.map }
    ensures of { IsPassOf shared.now pass.new }
    ensures goes { IfOk result (λ said. GoesSo shared.now.config (command.Drop key)
        (record_of pass.old) far.old.array far.old.map said
        (record_of pass.new) far.new.array far.new.map) }
{
    let dropped = far.map.drop_key(rt, alloc, shared, pass, key);
    shared.recall(pass);
    said_found(dropped)
}

/// What is said where there is nothing to tell.
fn said_done(answer: Result<(), Cannot>) -> Result<FarAnswer, NoMemory>
    requires calm { IsCalm (trouble answer) }
    ensures { IfOk result (Says (λ _. Done) answer) }
{
    match answer {
        Ok(()) => Ok(FarAnswer::Done),
        Err(cannot) => said_cannot(cannot),
    }
}

/// What is said of a number.
fn said_number(answer: Result<u64, Cannot>) -> Result<FarAnswer, NoMemory>
    requires calm { IsCalm (trouble answer) }
    ensures { IfOk result (Says (λ n. Number n) answer) }
{
    match answer {
        Ok(n) => Ok(FarAnswer::Number { n }),
        Err(cannot) => said_cannot(cannot),
    }
}

/// What is said of a number that may not be there.
fn said_found(answer: Result<Option<u64>, Cannot>) -> Result<FarAnswer, NoMemory>
    requires calm { IsCalm (trouble answer) }
    ensures { IfOk result (Says found_said answer) }
{
    match answer {
        Ok(Some(n)) => Ok(FarAnswer::Number { n }),
        Ok(None) => Ok(FarAnswer::Nothing),
        Err(cannot) => said_cannot(cannot),
    }
}

/// What is said where a call of the runtime was refused; there is nothing to say where memory was
/// wanting. Nobody else writes the objects.
fn said_cannot(cannot: Cannot) -> Result<FarAnswer, NoMemory>
    requires calm { IsCalm (Some cannot) }
    ensures { IfOk result (SaysWhy cannot) }
{
    match cannot {
        Cannot::NoMemory => Err(NoMemory),
        Cannot::Refused { reply } => Ok(FarAnswer::Refused { reply }),
        Cannot::Foreign { .. } => unreachable!(),
    }
}

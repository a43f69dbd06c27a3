//! The names that were made so far.

ghost use Rattle.std.specs.Prelude.{◌≡◌, ◌∷◌, [], ◌++◌, List, MatchResult, IfOk};
ghost use Rattle.cb_script.specs.declared.script.Line.{Line};
ghost use Rattle.cb_script.specs.Form.{IsName, IsNameNew, KnowsName, MakesName};
ghost use Rattle.cb_script.specs.Reading.{ReadsAs, NameFault, HasNames, maker_of};

use crate::fault::{Reason, Refusal};
use crate::name::{is_name, name_number};
use cb_types::{Lane, NoMemory};
use std::collections::BTreeMap;

/// The names that were made on the lines so far, by their numbers, each with the lane that made it.
pub(crate) type Names = BTreeMap<u128, u8>;

/// Accepts a name that no line made, and keeps it with its lane.
pub(crate) fn accept_new(names: &mut Names, name: &[u8], lane: Lane) -> Result<(), Refusal>
    ensures rule { (before : List Line) → HasNames names.old before → ReadsAs result
        (λ _. IsName name.now × IsNameNew before name.now)
        (NameFault (IsName name.now) (IsNameNew before name.now)) }
    ensures kept { (before : List Line) (l : Line) → HasNames names.old before → l.lane ≡ lane
        → MakesName l.request name.now → IfOk result (λ _. HasNames names.new (before ++ l ∷ [])) }
{
    if !is_name(name) {
        return Err(Refusal::Broken(Reason::Name));
    }
    match keep(names, name, lane)? {
        Some(_) => Err(Refusal::Broken(Reason::Known)),
        None => Ok(()),
    }
}

/// Accepts a name that this lane knows: lane 0 or this lane made it.
pub(crate) fn accept_known(names: &Names, lane: Lane, name: &[u8]) -> Result<(), Reason>
    ensures { (before : List Line) → HasNames names.now before → MatchResult result
        (λ _. IsName name.now × KnowsName before lane.n name.now)
        (NameFault (IsName name.now) (KnowsName before lane.n name.now)) }
{
    if !is_name(name) {
        return Err(Reason::Name);
    }
    match maker(names, name) {
        Some(maker) if maker == lane.n || maker == 0 => Ok(()),
        _ => Err(Reason::Known),
    }
}

/// The lane that made the name, where one did.
fn maker(names: &Names, name: &[u8]) -> Option<u8>
    requires { IsName name.now }
    ensures { result ≡ maker_of names.now name.now }
{
    names.get(&name_number(name)).copied()
}

/// Keeps a name with its lane. Answers the lane that made it before, where one did.
fn keep(names: &mut Names, name: &[u8], lane: Lane) -> Result<Option<u8>, NoMemory>
    requires { IsName name.now }
    ensures maker { IfOk result (λ maker. maker ≡ maker_of names.old name.now) }
    ensures kept { (before : List Line) (l : Line) → HasNames names.old before
        → IsNameNew before name.now → l.lane ≡ lane → MakesName l.request name.now
        → IfOk result (λ _. HasNames names.new (before ++ l ∷ [])) }
{
    Ok(names.insert(name_number(name), lane.n)?)
}

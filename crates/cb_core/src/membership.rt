//! Crashes and joins of nodes.

ghost use Rattle.cb_member.specs.Membership.{alive};
ghost use Rattle.std.specs.Prelude.{◌≡◌, true, ◌^◌, ◌-◌, ◌<◌, length, IfOk, OnErr};
ghost use Rattle.cb_node.specs.NodesState.{held};
ghost use Rattle.cb_world.specs.Survey.{survey_after_crash};
ghost use Rattle.cb_core.specs.Membership.{CrashTurn, JoinTurn};

use cb_member::MemberAnswer;
use cb_types::{NoMemory, NodeId, Reply};
use cb_world::{Far, Survey};

/// What is known of how the sets stand after a crash of the node: where it held no row, no set had
/// a shard there, and each stands as it did. Else nothing more is known.
fn survey_after_crash(far: &Far, node: NodeId) -> Survey
    requires node { node.n < length far.now.nodes.nodes }
    ensures { result ≡ survey_after_crash far.now.survey (held far.now.nodes node) }
{
    if far.nodes.held(node) == 0 {
        return far.survey;
    }
    Survey::new()
}

/// A crash of a node: it is down, and its rows are lost. Answers Down where it is down, and else
/// the epoch that the crash began. Running out of memory changes nothing, and is answered only
/// where the node is up.
pub(crate) fn crash(far: &mut Far, node: NodeId) -> Result<Reply, NoMemory>
    requires member { node.n < length far.old.members.nodes }
    requires node { node.n < length far.old.nodes.nodes }
    requires epoch { far.old.members.epoch < 2 ^ 64 - 1 }
    ensures crash { IfOk result (λ reply. CrashTurn node far.old reply far.new) }
    ensures error { OnErr result (far.new ≡ far.old) }
    ensures up { OnErr result (alive far.old.members node ≡ true) }
{
    let survey = survey_after_crash(far, node);
    match far.members.crash(node)? {
        MemberAnswer::Changed { epoch } => {
            far.nodes.wipe(node);
            far.survey = survey;
            Ok(Reply::EpochAt { epoch })
        }
        MemberAnswer::Down { node } => Ok(Reply::Down { node }),
        MemberAnswer::Up { node } => Ok(Reply::Up { node }),
    }
}

/// A join of a node: it is up, in its next incarnation and without rows. Answers Up where it is
/// up, and else the epoch that the join began. Takes no memory.
pub(crate) fn join(far: &mut Far, node: NodeId) -> Reply
    requires member { node.n < length far.old.members.nodes }
    requires epoch { far.old.members.epoch < 2 ^ 64 - 1 }
    ensures join { JoinTurn node far.old result far.new }
{
    match far.members.join(node) {
        MemberAnswer::Changed { epoch } => Reply::EpochAt { epoch },
        MemberAnswer::Down { node } => Reply::Down { node },
        MemberAnswer::Up { node } => Reply::Up { node },
    }
}

//! The spans of a batch are claimed.

ghost use Rattle.std.specs.Prelude.{◌≡◌, ◌+◌, ◌*◌, ◌≤◌, ◌≢◌, [], All, IfOk, OnErr, vec_capacity};
ghost use Rattle.std.specs.List.{Contains, AllPairs};
ghost use Rattle.cb_gf256.specs.InRange.{IsInRange};
ghost use Rattle.cb_types.specs.Config.{IsAccepted};
ghost use Rattle.cb_world.specs.Desks.{IsReadyDesk, Operates};
ghost use Rattle.cb_world.specs.Choices.{room_count};
ghost use Rattle.cb_world.specs.World.{IsConfigured};
ghost use Rattle.cb_world.specs.Still.{IsStill};
ghost use Rattle.cb_evict.specs.Candidates.{candidates};
ghost use Rattle.cb_evict.specs.Evicting.{TouchesSpans};
ghost use Rattle.cb_evict.specs.Lengths.{AreLengthCounts, count_of};
ghost use Rattle.cb_evict.specs.Taking.{AreLooseNow, AreLooseStill, ClaimsLength, Takes};

use crate::claiming::{claim_spans, give_back};
use crate::eviction::Lack;
use crate::finding::{Found, find_spans};
use crate::lengths::LengthCounts;
use cb_types::NoMemory;
use cb_world::{Desk, Far, Former};

/// How many objects a span has at the most.
const MOST_OBJECTS: usize = 256;

/// What came of the claims of spans.
#[derive(Drop)]
pub(crate) enum Taken {
    /// Of no length could k spans be claimed, or fewer than k + r nodes have room, and no span is
    /// claimed. So many spans of one length are loose at the most, and so many nodes have room.
    Few {
        lack: Lack,
        loose: u32,
        nodes: u32,
    },
    /// k spans of one length are claimed: their frames, and the words of their objects before the
    /// claims.
    Enough {
        frames: Vec<u32>,
        formers: Vec<Former>,
    },
}

/// Claims the first k spans of a length that can leave now: of the spans that may leave, those none
/// of whose objects is pinned or claimed, the cold ones before the hot ones and then by frame
/// number. The length is the greatest of which so many can. The nodes have room for a set of them.
///
/// Each object of each span that may leave is looked at once, and the nodes are counted after that;
/// then spans of a length are claimed, and where fewer than k can be, all are given back, and the
/// next length is tried. Where there is no memory, nothing is claimed.
pub(crate) fn take_spans<D: Desk>(desk: &mut D, far: &Far) -> Result<Taken, NoMemory>
    requires config { IsAccepted (D.settings desk.old) }
    requires configured { IsConfigured (D.settings desk.old) far.now }
    requires sound { IsReadyDesk D.shows desk.old far.now }
    ensures taken { IfOk result (Takes (λ es. D.run desk.old es desk.new) (λ s. D.shows desk.old s)
        far.now (AreLooseNow far.now)) }
    ensures error { OnErr result (Operates D.run D.shows desk.old far.now desk.new far.now
        (TouchesSpans far.now)
        IsStill) }
{
    let found = find_spans(desk, far)?;
    match found {
        Found::Few { lack, loose, nodes } => Ok(Taken::Few { lack, loose, nodes }),
        Found::Loose {
            frames,
            counts,
            nodes,
        } => claim_first(desk, far, &frames, counts, nodes),
    }
}

/// Claims the first k of these spans that have so many pages, which are `there` in all, and whose
/// objects can all be claimed. Where fewer can be, all are given back. Answers how many could be:
/// those that are loose by the last looks, or k. `frames` and `formers` are empty before, and have
/// room for k frames and for 256 objects of each; they are empty where none is claimed.
fn claim_length<D: Desk>(
    desk: &mut D,
    far: &Far,
    loose: &[u32],
    pages: u32,
    there: usize,
    frames: &mut Vec<u32>,
    formers: &mut Vec<Former>,
) -> usize
    requires there { there ≡ count_of far.now.spans pages loose.now }
    requires sound { IsReadyDesk D.shows desk.old far.now }
    requires among { All (Contains (candidates far.now)) loose.now }
    requires apart { AllPairs (λ f g. f ≢ g) loose.now }
    requires empty { (frames.old.items ≡ []) × (formers.old.items ≡ []) }
    requires room { (far.now.code.k ≤ vec_capacity frames.old)
        × (256 * far.now.code.k ≤ vec_capacity formers.old) }
    ensures claims { ClaimsLength (λ es. D.run desk.old es desk.new) (λ s. D.shows desk.old s)
        far.now loose.now pages result frames.new.items formers.new.items }
    ensures room { (vec_capacity frames.old ≤ vec_capacity frames.new)
        × (vec_capacity formers.old ≤ vec_capacity formers.new) }
{
    let k = far.in_force().k as usize;
    if there < k {
        return there;
    }
    claim_spans(desk, &far.spans, loose, pages, k, frames, formers);
    let claimed = frames.len();
    if claimed < k {
        give_back(desk, formers);
        frames.truncate(0);
        formers.truncate(0);
        return claimed;
    }
    claimed
}

/// Claims the first k of these spans of the greatest length of which so many can be claimed: where
/// fewer of a length can be, they are given back, and the next length is tried. So many nodes have
/// room, which are enough. Where there is no memory, nothing was claimed.
fn claim_first<D: Desk>(
    desk: &mut D,
    far: &Far,
    loose: &[u32],
    counts: LengthCounts,
    nodes: u32,
) -> Result<Taken, NoMemory>
    requires counts { AreLengthCounts far.now.spans loose.now counts }
    requires range { IsInRange far.now.code.k far.now.code.r }
    requires sound { IsReadyDesk D.shows desk.old far.now }
    requires among { All (Contains (candidates far.now)) loose.now }
    requires apart { AllPairs (λ f g. f ≢ g) loose.now }
    requires room { far.now.code.k + far.now.code.r ≤ room_count far.now.nodes far.now.members }
    requires nodes { nodes ≡ room_count far.now.nodes far.now.members }
    ensures taken { IfOk result (Takes (λ es. D.run desk.old es desk.new) (λ s. D.shows desk.old s)
        far.now (AreLooseStill far.now loose.now)) }
    ensures error { OnErr result (D.run desk.old [] desk.new) }
{
    let k = far.in_force().k as usize;
    let mut frames = Vec::with_capacity(far.alloc, k)?;
    let mut formers = Vec::with_capacity(far.alloc, MOST_OBJECTS * k)?;
    let fours = claim_length(desk, far, loose, 4, counts.fours, &mut frames, &mut formers);
    if fours == k {
        return Ok(Taken::Enough { frames, formers });
    }
    let twos = claim_length(desk, far, loose, 2, counts.twos, &mut frames, &mut formers);
    if twos == k {
        return Ok(Taken::Enough { frames, formers });
    }
    let ones = claim_length(desk, far, loose, 1, counts.ones, &mut frames, &mut formers);
    if ones == k {
        return Ok(Taken::Enough { frames, formers });
    }
    let most = fours.max(twos.max(ones)) as u32;
    Ok(Taken::Few {
        lack: Lack::Spans,
        loose: most,
        nodes,
    })
}

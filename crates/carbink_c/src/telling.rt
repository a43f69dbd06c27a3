//! The bytes of a reply, in the caller's buffer.
ghost use Rattle.std.specs.Prelude.{◌≡◌, ◌+◌, ◌*◌, ◌≤◌, ◌++◌, drop, length};
ghost use Rattle.carbink_c.specs.Told.{bytes_of, loss_row, loss_rows};

use cb_member::Loss;
use cb_types::Reply;

/// How many bytes tell a lost shard.
const LOSS_BYTES: usize = 9;

/// Puts the bytes of a reply at the front of a buffer that has room for them.
pub(crate) fn put_bytes(reply: &Reply, room: &mut [u8])
    requires fits { length (bytes_of reply.now) ≤ length room.old }
    ensures { room.new ≡ bytes_of reply.now ++ drop (length (bytes_of reply.now)) room.old }
{
    match reply {
        Reply::Bytes { bytes, .. } => put_front(bytes.as_slice(), room),
        Reply::Unavailable { lost, .. } => put_losses(lost.as_slice(), room),
        Reply::Short { positions } => put_front(positions.as_slice(), room),
        Reply::Unfinished { positions } => put_front(positions.as_slice(), room),
        _ => {}
    }
}

fn put_front(bytes: &[u8], room: &mut [u8])
    requires fits { length bytes.now ≤ length room.old }
    ensures { room.new ≡ bytes.now ++ drop (length bytes.now) room.old }
{
    room[..bytes.len()].copy_from_slice(bytes);
}

fn put_losses(lost: &[Loss], room: &mut [u8])
    requires fits { length (loss_rows lost.now) ≤ length room.old }
    ensures { room.new ≡ loss_rows lost.now ++ drop (length (loss_rows lost.now)) room.old }
{
    for i in 0..lost.len() {
        let at = LOSS_BYTES * i;
        put_loss(lost[i], &mut room[at..at + LOSS_BYTES]);
    }
}

fn put_loss(loss: Loss, row: &mut [u8])
    requires { length row.old ≡ 9 }
    ensures { row.new ≡ loss_row loss }
{
    let e = loss.epoch.n.to_le_bytes();
    let node = loss.node.n;
    row.copy_from_slice(&[node, e[0], e[1], e[2], e[3], e[4], e[5], e[6], e[7]]);
}

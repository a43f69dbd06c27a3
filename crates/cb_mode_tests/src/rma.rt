//! Orders that come twice.

ghost use Rattle.std.specs.Prelude.{◌<◌, ◌^◌};
ghost use Rattle.cb_rma.specs.Sending.{submitted};

use cb_rma::{Ack, Handled, Heard, Order, Said, Sender, Step, Submitted, run_schedule};
use cb_types::{Bytes, NoMemory};
use std::alloc::Global;

/// Whether this is said to one order, sent and brought twice; then to its acknowledgement, and to a
/// look at the row.
fn is_said(said: &[Said]) -> bool {
    let ack = Ack {
        incarnation: 0,
        count: 1,
    };
    match said {
        [taken, sent, applied, repeated, heard, shown] => {
            matches!(taken, Said::Submitted(Submitted::Taken { number: 0 }))
                && matches!(sent, Said::Sent { packet: 0 })
                && matches!(applied, Said::Handled(Handled::Applied(told)) if *told == ack)
                && matches!(repeated, Said::Handled(Handled::Repeated(told)) if *told == ack)
                && matches!(heard, Said::Heard(Heard::Fresh { count: 1 }))
                && matches!(shown, Said::Row { row } if row.as_slice() == [10].as_slice())
        }
        _ => false,
    }
}

/// Whether an order that comes twice is applied once. The run makes each call of a sender and of a
/// keeper.
fn is_applied_once(alloc: Global) -> Result<bool, NoMemory> {
    let row = Bytes::copy_of(alloc, &[10])?;
    let events = [
        Step::Submit {
            order: Order::Put { key: 1, row },
        },
        Step::Send { number: 0 },
        Step::Ask { packet: 0 },
        Step::Ask { packet: 0 },
        Step::Ack { packet: 1 },
        Step::Show { key: 1 },
    ];
    let ended = run_schedule(alloc, 1, &events)?;
    Ok(is_said(ended.said.as_slice()) && ended.keeper.count() == 1)
}

#[test]
fn an_order_that_comes_twice_is_applied_once(rt: HostRuntime) {
    assert!(rt; matches!(is_applied_once(rt.alloc()), Ok(true)));
}

/// Whether a sender of one order hears of five as of more than it submitted.
fn is_beyond(sender: &mut Sender, order: &Order) -> Result<bool, NoMemory>
    requires { submitted sender.old < 2 ^ 40 }
{
    let ack = Ack {
        incarnation: 0,
        count: 5,
    };
    let taken = sender.submit(order)?;
    let heard = sender.heard(&ack);
    Ok(
        matches!(taken, Submitted::Taken { number: 0 })
            && matches!(heard, Heard::Beyond { count: 5 }),
    )
}

/// So of a new sender.
fn more_is_beyond(alloc: Global) -> Result<bool, NoMemory> {
    let mut sender = Sender::new(alloc, 0, 2);
    is_beyond(&mut sender, &Order::Drop { key: 1 })
}

#[test]
fn more_than_was_submitted_is_beyond(rt: HostRuntime) {
    assert!(rt; matches!(more_is_beyond(rt.alloc()), Ok(true)));
}

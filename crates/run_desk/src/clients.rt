//! The clients of a run, opened one after another.

ghost use Rattle.std.specs.Prelude.{◌≡◌, ◌≤◌, ◌<◌, ◌+◌, ◌^◌, OnOk, IfErr, vec_len, vec_capacity};
ghost use Rattle.std.specs.Result.{IsErrAnd};
ghost use Rattle.fault_count.specs.Causes.{HasCause};
ghost use Rattle.run_desk.specs.Desk.{KeepsNumbers, KeepsBoard, OpensClients};

use crate::{Client, Desk, DeskFault};
use std::alloc::Global;

/// Opens `count` clients, whose numbers begin at `first`, and puts them behind the others in their order.
///
/// It stops at the first that can't be opened, and gives its number and the cause: `Failed` where the
/// desk failed, else `NoMemory`. The clients before it are open and are kept.
pub fn open_clients<D: Desk>(
    alloc: Global,
    desk: &mut D,
    first: u32,
    clients: &mut Vec<Client<D::Source, D::Sink, D::Clock>>,
    count: u32,
) -> Result<(), (u32, DeskFault)>
    requires numbers { first + count ≤ 2 ^ 32 }
    requires room { vec_len clients.old + count ≤ vec_capacity clients.old }
    // All of them were opened.
    ensures ok { OnOk result (OpensClients (D.seen desk.old) (D.seen desk.new) first (first + count)
        clients.old.items clients.new.items) }
    // Those before the one that is told were opened.
    ensures err { IfErr result (λ stop. (stop.0 < first + count)
        × OpensClients (D.seen desk.old) (D.seen desk.new) first stop.0 clients.old.items clients.new.items) }
    ensures numbers { KeepsNumbers (D.seen desk.old) (D.seen desk.new) }
    ensures board { KeepsBoard (D.seen desk.old) (D.seen desk.new) }
    ensures cause { HasCause (D.seen desk.old).faults (D.seen desk.new).faults
        (IsErrAnd result (λ stop. stop.1 ≡ DeskFault.Failed)) }
{
    'opened: for place in 0..count {
        let number = first + place;
        match desk.open_client(alloc, number) {
            Ok(client) => clients.push_reserved(client),
            Err(fault) => return Err((number, fault)),
        }
    }
    Ok(())
}

//! What C holds of a book between calls: the address of a box.
ghost use Rattle.std.specs.Prelude.{◌≡◌, Option, Some, None, option_map};
ghost use Rattle.ic_c.specs.declared.session.Session.{Session as Held};
ghost use Rattle.ic_c.specs.contracts.session.Session as session;
ghost use Rattle.std.specs.Coded.{codes};

use crate::session::Session;
use ic_address::Address;
use std::alloc::Global;
use std::marker::Model;
use std::ptr::null_mut;

/// The room that C has for a book or for tables. Zeros are a room with nothing in it.
#[repr(C)]
pub struct Room {
    at: *mut u8,
    alloc: Global,
    pub ghost held: { Option Held } by { Prim.hlevel (codes, session.the_row.coded) },
}

impl Model for Room {
    ghost use Rattle.ic_c.specs.Held.{room_owns};
    ghost use Rattle.ic_c.specs.contracts.session.Session as session;

    ghost also_owns = { λ h. room_owns session.the_row h.alloc h.at h.held };
}

/// A room with nothing in it.
pub fn empty(alloc: Global) -> Room
    ensures { result.held ≡ None }
{
    Room {
        at: null_mut(),
        alloc,
    }
}

/// A room of what the box had.
pub fn full(session: Address<Session, Global>) -> Room
    ensures { result.held ≡ Some session.value }
{
    let Address { at, alloc } = session;
    Room {
        at: at as *mut u8,
        alloc,
    }
}

/// What the room has.
pub fn opened(room: Room) -> Option<Address<Session, Global>>
    ensures { room.held ≡ option_map (λ l. l.value) result }
{
    let Room { at, alloc } = room;
    if at.is_null() {
        None
    } else {
        Some(Address {
            at: at as *mut Session,
            alloc,
        })
    }
}

//! The seats of a table: whoever has one speaks and is spoken to at its place, and nobody else.
ghost use Rattle.std.specs.Prelude.{◌≡◌, ◌<◌, IfOk};
ghost use Rattle.connections.specs.Limits.{place_count};
ghost use Rattle.connections.specs.Seats.{places_below};

use crate::table::PLACES;
use std::alloc::{AllocError, Global};
use std::marker::{Model, PhantomData};

/// A place, for a client whose device is a `T`. There is one seat for each place: a table is made with all of its seats,
/// no other call makes one, and none is copied.
#[derive(Drop)]
pub struct Seat<T> {
    place: usize,
    device: PhantomData<T>,
}

impl<T> Model for Seat<T> {
    ghost use Rattle.std.specs.Prelude.{ℕ, ◌<◌};
    ghost use Rattle.connections.specs.Limits.{place_count};

    ghost Value = { ℕ };

    ghost view = { λ s. s.place };

    ghost invariant = { λ s. s.place < place_count };
}

impl<T> Seat<T> {
    /// The seat's place.
    pub fn place(&self) -> usize
        ensures is { result ≡ self.now }
        ensures within { result < place_count }
    {
        self.place
    }
}

// All seats, of which the last is that of the first place.
pub(crate) fn all_client_seats<T>(alloc: Global) -> Result<Vec<Seat<T>>, AllocError>
    ensures { IfOk result (λ seats. seats.items ≡ places_below place_count) }
{
    let mut seats = Vec::with_capacity(alloc, PLACES)?;
    for index in 0..PLACES {
        seats.push(Seat {
            place: PLACES - 1 - index,
            device: PhantomData,
        })?;
    }
    Ok(seats)
}

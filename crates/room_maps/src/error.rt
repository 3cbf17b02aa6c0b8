ghost use Rattle.std.specs.Prelude.{◌≡◌};
ghost use Rattle.room_maps.specs.declared.error.RoomError.TheVariants as refusal;

use std::alloc::AllocError;

/// Why a call on rooms is refused. Each call names the order in which it asks.
#[derive(Clone, Copy, Debug, PartialEq, Eq)]
pub enum RoomError {
    /// An allocation was refused.
    Memory,
    /// There is no socket with this id.
    UnknownSocket,
    /// The socket is in the room already.
    AlreadyIn,
    /// The socket isn't in the room.
    NotIn,
    /// A socket doesn't leave its own room while it lasts.
    OwnRoom,
    /// The socket would be in more than 256 rooms, its own among them.
    TooManyRooms,
    /// There is a socket with this id already.
    SidTaken,
}

impl From<AllocError> for RoomError {
    ghost from_gives = { λ _ e. e ≡ refusal.Memory };

    fn from(_error: AllocError) -> RoomError {
        RoomError::Memory
    }
}

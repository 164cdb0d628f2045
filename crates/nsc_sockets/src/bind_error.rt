// `BindError`: why a socket could not be bound, and the path at fault.
use std::alloc::AllocError;
use std::io;

/// The path at which a socket could not be bound.
#[derive(Clone, Copy, Debug, PartialEq, Eq)]
pub(crate) enum Place {
    /// The socket's own path.
    Socket,
    /// The lock of its folder.
    Lock,
    /// The folder in which it is made.
    New,
}

/// Why a socket could not be bound.
#[derive(Debug, Drop)]
pub(crate) struct BindError {
    pub(crate) place: Place,
    pub(crate) error: io::Error,
}

impl BindError {
    /// The name of the file in the socket's folder that is at fault, if it is not the socket.
    pub(crate) fn name(&self) -> Option<&'static str> {
        match self.place {
            Place::Socket => None,
            Place::Lock => Some("lock"),
            Place::New => Some(".new"),
        }
    }
}

impl From<io::Error> for BindError {
    ghost use Rattle.std.specs.Prelude.{◌≡◌};

    ghost from_gives = { λ error refused. refused.error ≡ error };

    fn from(error: io::Error) -> BindError {
        BindError {
            place: Place::Socket,
            error,
        }
    }
}

impl From<AllocError> for BindError {
    ghost use Rattle.std.specs.Prelude.{◌≡◌};
    ghost use Rattle.nsc_sockets.specs.declared.bind_error.Place.TheVariants.{Socket};

    ghost from_gives = { λ _ refused. refused.place ≡ Socket };

    fn from(error: AllocError) -> BindError {
        BindError {
            place: Place::Socket,
            error: io::Error::from(error),
        }
    }
}

// `Picked`: a value that clauses alone read.
ghost use Rattle.std.specs.Prelude.{◌≡◌};
ghost use base.Fml.{ftrue};

use std::marker::{Model, PhantomData};

/// A ghost value (auxiliary variable): a `T` that clauses alone read. It has no bytes.
pub struct Picked<T> {
    marker: PhantomData<T>,
    pub ghost value: { T },
}

impl<T> Model for Picked<T> {
    ghost also_owns = { λ _. ftrue };
}

impl<T> Picked<T> {
    /// Makes the ghost value that a call picks, by what it hands over.
    pub fn of<A>(from: &A) -> Picked<T>
        ghost picked: { T }
        ensures { result.value ≡ picked }
    {
        let _ = from;
        Picked {
            marker: PhantomData,
        }
    }
}

unsafe impl<T> Send for Picked<T> {}

unsafe impl<T> Sync for Picked<T> {}

impl<T> Drop for Picked<T> {
    fn drop(self) {
        let Self { marker: _ } = self;
    }
}

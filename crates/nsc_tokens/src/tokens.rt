// `Tokens`: the table of values under tokens, each token given once.
ghost use Rattle.std.specs.Prelude.{◌≡◌, ℕ, IfErr, IfOk, None, count_by, is_some, slice_index_or};
ghost use Rattle.std.specs.Option.{option_copied};
ghost use Rattle.nsc_tokens.specs.Tokens.{LeavesUnder, PutsUnder, find, token_in};

use slab::Slab;
use std::alloc::{AllocError, Global};
use std::marker::Model;

/// How many seats there are.
pub const SEATS: usize = 4096;

// How many values can be put: a generation is a number of 52 bits.
const LAST_PUT: usize = (1 << 52) - 1;

/// A value in its seat, with the token under which it was put.
#[derive(Debug, Drop)]
struct Held<T: Drop> {
    token: usize,
    value: T,
}

/// Values under tokens. A token is the number of its put, times 4,096, and its seat, so none is given twice.
#[derive(Drop)]
pub struct Tokens<T: Drop> {
    slots: Slab<Held<T>>,
    puts: usize,
}

impl<T: Drop> Model for Tokens<T> {
    ghost use Rattle.nsc_tokens.specs.Tokens.{Tokens};

    ghost Value = { Tokens T };

    ghost view = { λ t. record { slots = t.slots.slots; puts = t.puts } };
}

impl<T: Drop> Tokens<T> {
    /// Makes a table without values, and takes memory for a number of them.
    pub fn with_capacity(alloc: Global, count: usize) -> Result<Tokens<T>, AllocError>
        ensures { IfOk result (λ table. (table.puts ≡ 0) × ((token : ℕ) → find table token ≡ None)) }
    {
        Ok(Tokens {
            slots: Slab::with_capacity(alloc, count)?,
            puts: 0,
        })
    }

    /// Puts a value into a free seat, and gives its token.
    ///
    /// # Errors
    /// The value comes back, and nothing changed: no seat is free, memory is short, or 2^52 - 1 values were put.
    pub fn put(&mut self, value: T) -> Result<usize, T>
        ensures put { IfOk result (λ token. PutsUnder token value self.old self.new) }
        ensures back { IfErr result (λ back. (back ≡ value) × (self.new ≡ self.old)) }
    {
        let seat = self.slots.vacant_key();
        if seat >= SEATS || self.puts >= LAST_PUT {
            return Err(value);
        }
        let token = (self.puts + 1) * SEATS + seat;
        match self.slots.insert(Held { token, value }) {
            Ok(_) => {
                self.puts += 1;
                Ok(token)
            }
            Err(failed) => Err(failed.value.value),
        }
    }

    /// The value that was put under this token, or `None` if it left.
    pub fn get(&self, token: usize) -> Option<&T>
        ensures { option_copied result ≡ find self.now token }
    {
        match self.slots.get(token % SEATS) {
            Some(held) if held.token == token => Some(&held.value),
            _ => None,
        }
    }

    /// Takes the value that was put under this token, or gives `None` if it left.
    pub fn take(&mut self, token: usize) -> Option<T>
        ensures value { result ≡ find self.old token }
        ensures left { LeavesUnder token self.old self.new }
    {
        self.get(token)?;
        self.slots.try_remove(token % SEATS).map(|held| held.value)
    }

    /// The token of the value in a seat, or `None` if the seat is free.
    pub fn token_at(&self, seat: usize) -> Option<usize>
        ensures { result ≡ token_in (slice_index_or self.now.slots seat None) }
    {
        self.slots.get(seat).map(|held| held.token)
    }

    /// How many values there are.
    pub fn len(&self) -> usize
        ensures { result ≡ count_by is_some self.now.slots }
    {
        self.slots.len()
    }
}

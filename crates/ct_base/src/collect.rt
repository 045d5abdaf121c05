ghost use Rattle.std.specs.Prelude.{◌≡◌, List, ℕ, [], false};
ghost use Rattle.ct_base.specs.Memory.{MayHaveHeard};

use crate::{Blob, Ear};
use std::alloc::Global;
use std::marker::Model;

/// An ear that keeps what it hears, for as long as there is memory.
#[derive(Debug, Drop)]
pub struct Collect {
    heard: Blob,
    short: bool,
}

impl Model for Collect {
    ghost use Rattle.ct_base.specs.Memory.{CollectValue};

    ghost Value = { CollectValue };

    ghost view = { λ c. record { heard = c.heard; short = c.short } };
}

impl Collect {
    /// Makes an ear that has heard nothing.
    pub fn new(alloc: Global) -> Collect
        ensures { result ≡ record { heard = []; short = false } }
    {
        Collect {
            heard: Blob::new(alloc),
            short: false,
        }
    }

    /// Lends what was kept: all that was heard, unless the ear is short.
    pub fn heard(&self) -> &Blob
        ensures { result.now ≡ self.now.heard }
    {
        &self.heard
    }

    /// Returns whether memory was wanting for some piece.
    pub fn short(&self) -> bool
        ensures { result ≡ self.now.short }
    {
        self.short
    }
}

impl Ear for Collect {
    ghost stands_for = { MayHaveHeard };

    ghost kept = { λ _. tt };

    fn hear(&mut self, piece: &[u8]) {
        if self.heard.append(piece).is_err() {
            self.short = true;
        }
    }
}

//! Identifiers of address spaces.

ghost use Rattle.std.specs.Prelude.{◌≡◌, ◌<◌, ◌↔◌, IsOk, IfOk, IfErr};

use std::marker::Model;
use thiserror::Error;

/// A process-context identifier: a number below 4096 that distinguishes the translations of one address space from
/// those of another. A contract sees it as the number.
///
/// Source: AMD64 manual, volume 2, section 5.5.1.
#[derive(Clone, Copy, PartialEq, Eq, PartialOrd, Ord, Hash, Debug)]
pub struct Pcid(u16);

impl Model for Pcid {
    ghost use Rattle.std.specs.Prelude.{ℕ, ◌<◌};

    ghost Value = { ℕ };

    ghost view = { λ p. p.0 };

    ghost invariant = { λ p. p.0 < 4096 };

    ghost inverse = { λ value. record { 0 = value } };
}

/// The number is no process-context identifier, since it is not below 4096.
#[derive(Clone, Copy, PartialEq, Eq, Debug, Error)]
#[error("PCID should be < 4096, got {0}")]
pub struct PcidTooBig(pub u16);

impl Pcid {
    /// The identifier of this number.
    ///
    /// # Errors
    ///
    /// `PcidTooBig`, with the number, exactly from 4096 on.
    pub fn new(pcid: u16) -> Result<Pcid, PcidTooBig>
        ensures ok { IsOk result ↔ (pcid < 4096) }
        ensures value { IfOk result (λ p. p ≡ pcid) }
        ensures err { IfErr result (λ e. e.0 ≡ pcid) }
    {
        if pcid >= 4096 {
            return Err(PcidTooBig(pcid));
        }
        Ok(Pcid(pcid))
    }

    /// The number.
    pub fn value(&self) -> u16
        ensures value { result ≡ self.now }
        ensures below { result < 4096 }
    {
        self.0
    }
}

//! Keys, the names of items.
ghost use Rattle.std.specs.Prelude.{◌≡◌, ◌≤◌, ◌∷◌, [], None, nat_eq, length, IfOk, IfErr, IsOk, IsErrOf, MatchOption};
ghost use Rattle.std.specs.{Cmp.partial_equiv_from_equiv, Cmp.Lexicographic.pointwise, Cmp.Lexicographic.nat_list_eq_equiv, Cmp.Rules.hashing, List.list_all};
ghost use Rattle.std.proofs.Common.{rules};
ghost use Rattle.mc_item.specs.Key.{key_fault_of, IsKey, IsPlaced, named_bytes};
ghost use Rattle.mc_item.specs.declared.key.KeyFault.TheVariants as faults;

use crate::fault::NoMemory;
use crate::short::{SHORT_LEN, ShortBytes};
use std::alloc::{AllocError, Global};
use std::fmt::{self, Debug, Formatter, Write};
use std::hash::{Hash, Hasher};
use std::marker::Model;

/// The length of the longest key, in bytes (protocol.txt, "Keys").
pub const MAX_KEY_LEN: usize = 250;

/// Why bytes don't make a key. Of several faults the first in this order is returned.
#[derive(Clone, Copy, Debug, PartialEq, Eq)]
pub enum KeyFault {
    /// There are no bytes.
    Empty,
    /// There are more than 250 bytes.
    TooLong,
    /// One of the bytes is NUL, LF, CR or space.
    BadByte,
    /// The bytes are a key, but there was no memory for them.
    NoMemory,
}

impl From<AllocError> for KeyFault {
    ghost from_gives = { λ _ e. e ≡ faults.NoMemory };

    fn from(_e: AllocError) -> KeyFault {
        KeyFault::NoMemory
    }
}

/// Where a key's bytes are. A copy of a short key takes no memory.
#[derive(Drop)]
pub(crate) enum Named {
    /// Within the key itself.
    Short(ShortBytes),
    /// In memory of the key's own.
    Long(Vec<u8>),
}

// Both forms are shown as their bytes.
impl Debug for Named {
    fn fmt<W: Write>(&self, f: &mut Formatter<W>) -> Result<(), fmt::Error> {
        match self {
            Named::Short(bytes) => bytes.fmt(f),
            Named::Long(bytes) => bytes.fmt(f),
        }
    }
}

/// A key: 1 to 250 bytes, none of them NUL, LF, CR or space. Contracts see it as its bytes.
#[derive(Debug, Drop)]
pub struct Key {
    bytes: Named,
}

impl Model for Key {
    ghost use Rattle.std.specs.Prelude.{List, ℕ};
    ghost use Rattle.mc_item.specs.Key.{IsKey, IsPlaced, named_bytes};

    ghost Value = { List ℕ };

    ghost view = { λ k. named_bytes k.bytes };

    ghost invariant = { λ k. IsKey (named_bytes k.bytes) × IsPlaced k.bytes };
}

fn is_key_byte(byte: u8) -> bool
    ensures { result ≡ Rattle.mc_item.specs.Key.is_key_byte byte }
{
    !(byte == 0 || byte == 10 || byte == 13 || byte == 32)
}

fn are_key_bytes(bytes: &[u8]) -> bool
    ensures { result ≡ list_all Rattle.mc_item.specs.Key.is_key_byte bytes.now }
{
    bytes.iter().all(|byte| is_key_byte(*byte))
}

// What is wrong with the bytes, apart from memory.
fn fault_of(bytes: &[u8]) -> Option<KeyFault>
    ensures { result ≡ key_fault_of bytes.now }
{
    if bytes.is_empty() {
        Some(KeyFault::Empty)
    } else if bytes.len() > MAX_KEY_LEN {
        Some(KeyFault::TooLong)
    } else if are_key_bytes(bytes) {
        None
    } else {
        Some(KeyFault::BadByte)
    }
}

// Puts the bytes where a key has them: up to 30 within it, more in memory of their own.
#[inline(always)]
fn bytes_for(alloc: Global, bytes: &[u8]) -> Result<Named, AllocError>
    ensures bytes { IfOk result (λ n. named_bytes n ≡ bytes.now) }
    ensures placed { IfOk result IsPlaced }
    ensures short { length bytes.now ≤ 30 → IsOk result }
{
    if bytes.len() <= SHORT_LEN {
        Ok(Named::Short(ShortBytes::of(bytes)))
    } else {
        Ok(Named::Long(Vec::from_slice(alloc, bytes)?))
    }
}

impl Key {
    /// Makes a key of 1 to 250 bytes (protocol.txt, "Keys"). Fails with the first thing that is wrong with the bytes. A good key
    /// of more than 30 bytes fails with `NoMemory` if there is no memory for it.
    pub fn of(alloc: Global, bytes: &[u8]) -> Result<Key, KeyFault>
        ensures ok { IfOk result (λ key. (key ≡ bytes.now) × (key_fault_of bytes.now ≡ None)) }
        ensures err { IfErr result (λ fault. MatchOption (key_fault_of bytes.now) (fault ≡ faults.NoMemory) (λ first. fault ≡ first)) }
        ensures short { length bytes.now ≤ 30 → IsErrOf result faults.NoMemory → ⊥ }
    {
        match fault_of(bytes) {
            Some(fault) => Err(fault),
            None => Ok(Key {
                bytes: bytes_for(alloc, bytes)?,
            }),
        }
    }

    /// Returns the key's bytes.
    pub fn bytes(&self) -> &[u8]
        ensures value { result.now ≡ self.now }
        ensures valid { IsKey self.now }
    {
        match &self.bytes {
            Named::Short(bytes) => bytes.as_slice(),
            Named::Long(bytes) => bytes.as_slice(),
        }
    }

    /// Returns an equal key. Up to 30 bytes take no memory. Fails with `NoMemory` if more find none.
    #[inline(always)]
    pub fn copy(&self, alloc: Global) -> Result<Key, NoMemory>
        ensures ok { IfOk result (λ key. key ≡ self.now) }
        ensures short { length self.now ≤ 30 → IsOk result }
    {
        match &self.bytes {
            Named::Short(bytes) => Ok(Key {
                bytes: Named::Short(bytes.copy()),
            }),
            Named::Long(bytes) => Ok(Key {
                bytes: Named::Long(Vec::from_slice(alloc, bytes.as_slice())?),
            }),
        }
    }
}

impl PartialEq for Key {
    ghost eq = { pointwise nat_eq };

    ghost laws = { partial_equiv_from_equiv nat_list_eq_equiv };

    #[inline(always)]
    fn eq(&self, other: &Key) -> bool {
        match (&self.bytes, &other.bytes) {
            (Named::Short(bytes), Named::Short(others)) => bytes.equals(others),
            _ => self.bytes() == other.bytes(),
        }
    }
}

impl Eq for Key {
    ghost laws = { nat_list_eq_equiv };
}

impl Hash for Key {
    ghost hash_input = { λ k. k ∷ [] };

    ghost respects_eq = { Prim.search (hashing, rules) };

    fn hash<H: Hasher>(&self, state: &mut H) {
        state.write(self.bytes());
    }
}

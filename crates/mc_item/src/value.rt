//! Values, the bytes that items hold.
ghost use Rattle.std.specs.Prelude.{◌≡◌, ◌≤◌, ◌++◌, ◌-◌, IfOk, length, replicate, true, false};
ghost use Rattle.mc_item.specs.Value.{held_bytes};

use crate::fault::NoMemory;
use bytes::Bytes;
use std::alloc::Global;
use std::fmt::{self, Debug, Formatter, Write};
use std::marker::Model;
use std::sync::Arc;

/// Where a value's bytes are.
#[derive(Drop)]
pub(crate) enum Held {
    /// In memory of their own.
    Alone(Vec<u8>),
    /// Within a larger block that others share, such as a piece of the input.
    Within(Bytes),
}

// Both forms are shown as their bytes.
impl Debug for Held {
    fn fmt<W: Write>(&self, f: &mut Formatter<W>) -> Result<(), fmt::Error> {
        self.bytes().fmt(f)
    }
}

impl Held {
    #[inline(always)]
    fn bytes(&self) -> &[u8]
        ensures { result.now ≡ held_bytes self.now }
    {
        match self {
            Held::Alone(bytes) => bytes.as_slice(),
            Held::Within(bytes) => bytes.as_slice(),
        }
    }

    // Overwrites the bytes with a text, padded with spaces to their length. Returns false and changes nothing if the text is
    // longer, or the bytes are within a shared block.
    #[inline(always)]
    fn put_padded(&mut self, text: &[u8]) -> bool
        ensures done { result ≡ true → (length text.now ≤ length (held_bytes self.old))
            × (held_bytes self.new ≡ text.now ++ replicate (length (held_bytes self.old) - length text.now) 32) }
        ensures same { result ≡ false → held_bytes self.new ≡ held_bytes self.old }
    {
        match self {
            Held::Alone(bytes) => put_padded(bytes.as_mut_slice(), text),
            Held::Within(_) => false,
        }
    }
}

/// The bytes of an item's value. All copies of a value share them. Contracts see it as a list.
#[derive(Debug, Drop)]
pub struct Value {
    bytes: Arc<Held>,
}

impl Model for Value {
    ghost use Rattle.std.specs.Prelude.{List, ℕ};
    ghost use Rattle.mc_item.specs.Value.{held_bytes};

    ghost Value = { List ℕ };

    ghost view = { λ v. held_bytes v.bytes.value };
}

// Overwrites bytes with a text, padded with spaces to their length. Returns false and changes nothing if the text is longer.
#[inline(always)]
fn put_padded(bytes: &mut [u8], text: &[u8]) -> bool
    ensures done { result ≡ true → (length text.now ≤ length bytes.old) × (bytes.new ≡ text.now ++ replicate (length bytes.old - length text.now) 32) }
    ensures same { result ≡ false → bytes.new ≡ bytes.old }
{
    if text.len() > bytes.len() {
        return false;
    }
    let (front, back) = bytes.split_at_mut(text.len());
    front.copy_from_slice(text);
    back.fill(b' ');
    true
}

impl Value {
    /// Makes the value of these bytes, without copying them. Fails with `NoMemory` if there is no memory for the reference count.
    pub fn of(alloc: Global, bytes: Vec<u8>) -> Result<Value, NoMemory>
        ensures { IfOk result (λ value. value ≡ bytes.items) }
    {
        Ok(Value {
            bytes: Arc::new(alloc, Held::Alone(bytes))?,
        })
    }

    /// Makes the value of bytes that others share, without copying them. Their whole block stays in memory as long as the value.
    /// Fails with `NoMemory` if there is no memory for the reference count.
    pub fn of_part(alloc: Global, bytes: Bytes) -> Result<Value, NoMemory>
        ensures { IfOk result (λ value. value ≡ bytes) }
    {
        Ok(Value {
            bytes: Arc::new(alloc, Held::Within(bytes))?,
        })
    }

    /// Makes the value of the bytes of one value and behind them those of another, in memory of its own. Fails with `NoMemory` if
    /// the allocator refuses.
    pub fn joined(alloc: Global, front: &Value, back: &Value) -> Result<Value, NoMemory>
        ensures { IfOk result (λ value. value ≡ front.now ++ back.now) }
    {
        let mut bytes = Vec::with_capacity(alloc, front.bytes().len() + back.bytes().len())?;
        bytes.extend_from_slice(front.bytes())?;
        bytes.extend_from_slice(back.bytes())?;
        Value::of(alloc, bytes)
    }

    /// Returns the bytes.
    pub fn bytes(&self) -> &[u8]
        ensures { result.now ≡ self.now }
    {
        self.bytes.bytes()
    }

    /// Overwrites the bytes with a text, padded with spaces to their length. Returns false and changes nothing if the text is
    /// longer, a copy of the value shares the bytes, or they are within a shared block. Takes no memory.
    #[inline(always)]
    pub(crate) fn put_padded(&mut self, text: &[u8]) -> bool
        ensures done { result ≡ true → (length text.now ≤ length self.old) × (self.new ≡ text.now ++ replicate (length self.old - length text.now) 32) }
        ensures same { result ≡ false → self.new ≡ self.old }
    {
        match Arc::get_mut(&mut self.bytes) {
            Some(held) => held.put_padded(text),
            None => false,
        }
    }

    /// Returns an equal value, which shares the same bytes in memory. Fails with `NoMemory` if the reference count is full.
    #[inline(always)]
    pub fn copy(&self) -> Result<Value, NoMemory>
        ensures { IfOk result (λ value. value ≡ self.now) }
    {
        Ok(Value {
            bytes: Arc::try_clone(&self.bytes)?,
        })
    }
}

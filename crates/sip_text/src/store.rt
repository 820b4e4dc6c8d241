//! Where the bytes of a byte string stand: a few in the value itself, more in a block of memory. For `Bytes` and `Buffer` alone.
ghost use Rattle.std.specs.Prelude.{◌≡◌, ◌+◌, ◌%◌, ◌++◌, [], ◌∷◌, IfOk, OnOk, OnErr, decimal};
ghost use Rattle.sip_text.specs.Store.{stored};

use crate::few::{Few, INSIDE};
use itoa::Buffer as Digits;
use std::alloc::{AllocError, Global};

/// Where bytes of their own stand.
#[derive(Drop)]
pub(crate) enum Store {
    /// A few, in the value itself.
    Inside(Few),
    /// Those for which there is, or was asked, more room, in a block of memory.
    Outside(Vec<u8>),
}

/// Bytes and more of them, in a block of memory.
#[inline(never)]
fn block_of(alloc: Global, front: &[u8], more: &[u8]) -> Result<Vec<u8>, AllocError>
    ensures { IfOk result (λ block. block.items ≡ front.now ++ more.now) }
{
    let mut block = Vec::with_capacity(alloc, front.len().saturating_add(more.len()))?;
    block.extend_from_slice(front)?;
    block.extend_from_slice(more)?;
    Ok(block)
}

/// The last digit of a number in decimal.
#[inline]
fn last_digit(number: u64) -> u8
    ensures { result ≡ 48 + number % 10 }
{
    b'0' + (number % 10) as u8
}

/// Adds two bytes at the end of a block.
fn put_two(block: &mut Vec<u8>, first: u8, second: u8) -> Result<(), AllocError>
    ensures ok { OnOk result (block.new.items ≡ block.old.items ++ first ∷ second ∷ []) }
    ensures err { OnErr result (block.new.items ≡ block.old.items) }
{
    block.reserve(2)?;
    block.push_reserved(first);
    block.push_reserved(second);
    Ok(())
}

/// Adds three bytes at the end of a block.
fn put_three(block: &mut Vec<u8>, first: u8, second: u8, third: u8) -> Result<(), AllocError>
    ensures ok { OnOk result (block.new.items ≡ block.old.items ++ first ∷ second ∷ third ∷ []) }
    ensures err { OnErr result (block.new.items ≡ block.old.items) }
{
    block.reserve(3)?;
    block.push_reserved(first);
    block.push_reserved(second);
    block.push_reserved(third);
    Ok(())
}

/// Adds a number in decimal at the end of a block. Most numbers of SIP have few digits, which cost less than `itoa`.
#[tactic(auto, using(crate::proofs::SmallDecimals::one_digit, crate::proofs::SmallDecimals::two_digits, crate::proofs::SmallDecimals::three_digits))]
pub(crate) fn put_decimal(block: &mut Vec<u8>, number: u64) -> Result<(), AllocError>
    ensures ok { OnOk result (block.new.items ≡ block.old.items ++ decimal number) }
    ensures err { OnErr result (block.new.items ≡ block.old.items) }
{
    if number < 10 {
        block.push(last_digit(number))?;
        return Ok(());
    }
    if number < 100 {
        return put_two(block, last_digit(number / 10), last_digit(number));
    }
    if number < 1000 {
        return put_three(
            block,
            last_digit(number / 100),
            last_digit(number / 10),
            last_digit(number),
        );
    }
    let mut digits = Digits::new();
    block.extend_from_slice(digits.format(number).as_bytes())
}

impl Store {
    /// No bytes, without a block of memory.
    #[inline]
    pub(crate) fn new(alloc: Global) -> Self
        ensures { stored result ≡ [] }
    {
        Store::Inside(Few::new(alloc))
    }

    /// No bytes, and room for so many.
    #[inline]
    pub(crate) fn with_room(alloc: Global, room: usize) -> Result<Self, AllocError>
        ensures { IfOk result (λ store. stored store ≡ []) }
    {
        if room <= INSIDE {
            return Ok(Store::new(alloc));
        }
        Ok(Store::Outside(Vec::with_capacity(alloc, room)?))
    }

    /// These bytes, copied.
    #[inline]
    pub(crate) fn copy(alloc: Global, bytes: &[u8]) -> Result<Self, AllocError>
        ensures { IfOk result (λ store. stored store ≡ bytes.now) }
    {
        match Few::copy(alloc, bytes) {
            Some(few) => Ok(Store::Inside(few)),
            None => Ok(Store::Outside(Vec::from_slice(alloc, bytes)?)),
        }
    }

    /// Adds bytes at the end of a few.
    #[inline(never)]
    fn extend_few(&mut self, more: &[u8]) -> Result<(), AllocError>
        ensures ok { OnOk result (stored self.new ≡ stored self.old ++ more.now) }
        ensures err { OnErr result (stored self.new ≡ stored self.old) }
    {
        let block = match self {
            Store::Inside(few) => {
                if few.try_extend(more) {
                    return Ok(());
                }
                block_of(few.allocator(), few.as_slice(), more)?
            }
            Store::Outside(block) => return block.extend_from_slice(more),
        };
        *self = Store::Outside(block);
        Ok(())
    }

    /// Adds bytes at the end.
    #[inline]
    pub(crate) fn extend(&mut self, more: &[u8]) -> Result<(), AllocError>
        ensures ok { OnOk result (stored self.new ≡ stored self.old ++ more.now) }
        ensures err { OnErr result (stored self.new ≡ stored self.old) }
    {
        if let Store::Outside(block) = self {
            return block.extend_from_slice(more);
        }
        self.extend_few(more)
    }

    /// Adds a byte at the end.
    #[inline]
    pub(crate) fn push(&mut self, byte: u8) -> Result<(), AllocError>
        ensures ok { OnOk result (stored self.new ≡ stored self.old ++ byte ∷ []) }
        ensures err { OnErr result (stored self.new ≡ stored self.old) }
    {
        match self {
            Store::Outside(block) => {
                block.push(byte)?;
                return Ok(());
            }
            Store::Inside(few) => {
                if few.try_push(byte) {
                    return Ok(());
                }
            }
        }
        self.extend_few([byte].as_slice())
    }

    /// Adds a number in decimal at the end.
    pub(crate) fn push_decimal(&mut self, number: u64) -> Result<(), AllocError>
        ensures ok { OnOk result (stored self.new ≡ stored self.old ++ decimal number) }
        ensures err { OnErr result (stored self.new ≡ stored self.old) }
    {
        if let Store::Outside(block) = self {
            return put_decimal(block, number);
        }
        let mut digits = Digits::new();
        self.extend_few(digits.format(number).as_bytes())
    }

    /// What hands out memory.
    #[inline]
    pub(crate) fn allocator(&self) -> Global {
        match self {
            Store::Inside(few) => few.allocator(),
            Store::Outside(block) => *block.allocator(),
        }
    }

    /// The bytes.
    #[inline]
    pub(crate) fn as_slice(&self) -> &[u8]
        ensures { result.now ≡ stored self.now }
    {
        match self {
            Store::Inside(few) => few.as_slice(),
            Store::Outside(block) => block.as_slice(),
        }
    }
}

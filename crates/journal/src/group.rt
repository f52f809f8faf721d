//! The buffer in which the body of a group grows.
ghost use Rattle.std.specs.Prelude.{◌≡◌, ◌+◌, ◌-◌, ◌<◌, ◌≤◌, ◌^◌, [], ◌∷◌, ◌++◌, length, take, drop, IfOk, OnOk, OnErr, IsOk, nat_eq, vec_capacity};
ghost use Rattle.byteorder.specs.Endian.{big_bytes};
ghost use Rattle.journal.specs.Groups.{body_in, sealed};

use byteorder::{BigEndian, ByteOrder};
use std::alloc::{AllocError, Global};
use std::marker::Model;

/// A growing body of entries, in one buffer with its length before it and the byte 00 behind it.
///
/// Contracts see it as its body, and the number of bytes that can be put behind it without memory.
#[derive(Drop)]
pub struct Group {
    bytes: Vec<u8>,
    /// Where the body ends; the byte there is 00, and those behind it are room.
    end: usize,
}

impl Model for Group {
    ghost use Rattle.std.specs.Prelude.{◌+◌, ◌-◌, length};
    ghost use Rattle.journal.specs.Groups.{Growing, body_in, IsSealed};

    ghost Value = { Growing };

    ghost view = { λ g. record {
      body = body_in g.end g.bytes.items;
      room = length g.bytes.items - (g.end + 1);
    } };

    ghost invariant = { λ g. IsSealed g.end g.bytes.items };
}

impl Group {
    /// A group with no entry.
    ///
    /// # Errors
    ///
    /// `AllocError` where memory is refused.
    pub fn new(alloc: Global) -> Result<Group, AllocError>
        ensures { IfOk result (λ group. group.body ≡ []) }
    {
        let bytes = Vec::from_slice(alloc, &[0; 5])?;
        Ok(Group { bytes, end: 4 })
    }

    /// The bytes that follow the gate in a file: the length of the body (4 bytes, big-endian), the body, and 00.
    pub fn as_bytes(&self) -> &[u8]
        ensures bytes { result.now ≡ sealed self.now.body }
        ensures fits { length self.now.body < 2 ^ 32 }
    {
        &self.bytes.as_slice()[..self.end + 1]
    }

    /// The length of the body, in bytes.
    pub fn len(&self) -> usize
        ensures { result ≡ length self.now.body }
    {
        self.end - 4
    }

    /// Whether the body has no byte.
    pub fn is_empty(&self) -> bool
        ensures { result ≡ nat_eq (length self.now.body) 0 }
    {
        self.end == 4
    }

    /// Makes room for so many bytes more, which can then be put without memory.
    ///
    /// # Errors
    ///
    /// `AllocError` where memory is refused, and never where there is room already. The body stays, and no room is
    /// lost.
    pub fn reserve(&mut self, bytes: usize) -> Result<(), AllocError>
        ensures body { self.new.body ≡ self.old.body }
        ensures ok { OnOk result (bytes ≤ self.new.room) }
        ensures succeeds { bytes ≤ self.old.room → IsOk result }
        ensures room { self.old.room ≤ self.new.room }
    {
        make_room(&mut self.bytes, self.end + 1, bytes)
    }

    /// Puts the bytes of an entry behind the body, for which there is room. The body then has fewer than 2^32 bytes.
    // Compiled into its callers, which know how long an entry is.
    #[inline(always)]
    pub fn put(&mut self, entry: &[u8])
        requires room { length entry.now ≤ self.old.room }
        requires fits { length self.old.body + length entry.now < 2 ^ 32 }
        ensures body { self.new.body ≡ self.old.body ++ entry.now }
        ensures room { self.old.room ≤ self.new.room + length entry.now }
    {
        put_behind(&mut self.bytes, self.end, entry);
        self.end += entry.len();
    }

    /// Makes room for the bytes of an entry, and puts them behind the body, which then has fewer than 2^32.
    ///
    /// # Errors
    ///
    /// `AllocError` where memory is refused. The body stays.
    pub fn extend(&mut self, entry: &[u8]) -> Result<(), AllocError>
        requires { length self.old.body + length entry.now < 2 ^ 32 }
        ensures ok { OnOk result (self.new.body ≡ self.old.body ++ entry.now) }
        ensures err { OnErr result (self.new.body ≡ self.old.body) }
    {
        self.reserve(entry.len())?;
        self.put(entry);
        Ok(())
    }

    /// Keeps the first `len` bytes of the body. The others become room.
    pub fn truncate(&mut self, len: usize)
        requires { len ≤ length self.old.body }
        ensures body { self.new.body ≡ take len self.old.body }
        ensures room { self.old.room + (length self.old.body - len) ≤ self.new.room }
    {
        seal(&mut self.bytes, len + 4);
        self.end = len + 4;
    }

    /// Takes all entries out. The whole body becomes room.
    pub fn clear(&mut self)
        ensures body { self.new.body ≡ [] }
        ensures room { self.old.room + length self.old.body ≤ self.new.room }
    {
        self.truncate(0);
    }
}

// Makes room for so many bytes behind the first `len`.
fn make_room(bytes: &mut Vec<u8>, len: usize, more: usize) -> Result<(), AllocError>
    requires within { len ≤ length bytes.old.items }
    ensures front { take len bytes.new.items ≡ take len bytes.old.items }
    ensures longer { length bytes.old.items ≤ length bytes.new.items }
    ensures ok { OnOk result (len + more ≤ length bytes.new.items) }
    ensures succeeds { len + more ≤ length bytes.old.items → IsOk result }
{
    if bytes.len() - len >= more {
        return Ok(());
    }
    let Some(all) = len.checked_add(more) else {
        return Err(AllocError);
    };
    bytes.resize(all, 0)
}

// Puts an entry behind a body that ends there, and seals it.
#[inline(always)]
fn put_behind(bytes: &mut [u8], end: usize, entry: &[u8])
    requires long { 4 ≤ end }
    requires room { end + length entry.now < length bytes.old }
    requires fits { end + length entry.now < 2 ^ 32 + 4 }
    ensures sealed { take (end + length entry.now + 1) bytes.new
        ≡ sealed (body_in end bytes.old ++ entry.now) }
    ensures body { body_in (end + length entry.now) bytes.new
        ≡ body_in end bytes.old ++ entry.now }
    ensures size { length bytes.new ≡ length bytes.old }
{
    put_at(bytes, end, entry);
    seal(bytes, end + entry.len());
}

// Puts bytes at a place, over those that are there.
#[inline(always)]
fn put_at(bytes: &mut [u8], at: usize, entry: &[u8])
    requires { at + length entry.now ≤ length bytes.old }
    ensures { bytes.new ≡ take at bytes.old ++ (entry.now ++ drop (at + length entry.now) bytes.old) }
{
    bytes[at..at + entry.len()].copy_from_slice(entry);
}

// Writes the length before a body that ends there, and the 00 behind it.
#[inline(always)]
fn seal(bytes: &mut [u8], end: usize)
    requires long { 4 ≤ end }
    requires within { end < length bytes.old }
    requires fits { end < 2 ^ 32 + 4 }
    ensures sealed { take (end + 1) bytes.new ≡ sealed (body_in end bytes.old) }
    ensures body { body_in end bytes.new ≡ body_in end bytes.old }
    ensures size { length bytes.new ≡ length bytes.old }
{
    close(bytes, end);
    write_size(bytes, (end - 4) as u32);
}

#[inline(always)]
fn close(bytes: &mut [u8], end: usize)
    requires { end < length bytes.old }
    ensures { bytes.new ≡ take end bytes.old ++ 0 ∷ drop (end + 1) bytes.old }
{
    bytes[end] = 0;
}

#[inline(always)]
fn write_size(bytes: &mut [u8], count: u32)
    requires { 4 ≤ length bytes.old }
    ensures { bytes.new ≡ big_bytes 4 count ++ drop 4 bytes.old }
{
    let (front, _) = bytes.split_at_mut(4);
    BigEndian::write_u32(front, count);
}

//! Whole texts: all bytes of a source, and a text put to a sink.

ghost use Rattle.std.specs.Prelude.{◌≡◌, ◌⊎◌, ◌+◌, ◌-◌, ◌≤◌, ◌++◌, ℕ, List, length, IfErr, IfOk, OnOk, OnErr, IsErrOf};
ghost use Rattle.std.specs.Io.KnownBytes.{Appends, Consumes, IsAtEnd};
ghost use Rattle.vp_io.specs.Causes.{HasCause, Rose};
ghost use Rattle.vp_io.specs.Streams.{Gave, GaveUpTo, GaveAll, TookFront};
ghost use Rattle.vp_io.specs.Puts.{Puts};

use crate::{Failed, ReadStop, Sink, Source, WriteFault};
use std::alloc::Global;

/// The most bytes that an input may have: 64 MiB.
pub const LIMIT: usize = 67_108_864;

/// The most bytes that one read asks for.
const BLOCK: usize = 65_536;

/// All bytes of the source up to the end of input, at most `LIMIT` of them. Where it answers no bytes, those that were
/// read are gone.
pub fn read_all<S: Source>(alloc: Global, source: &mut S) -> Result<Vec<u8>, ReadStop>
    ensures all { IfOk result (λ bytes. GaveAll (S.told source.old).bytes (S.told source.new).bytes bytes.items) }
    ensures within { IfOk result (λ bytes. length bytes.items ≤ LIMIT) }
    ensures fault { IsErrOf result ReadStop.ReadFault → Rose (S.told source.old).faults (S.told source.new).faults }
    ensures long { IsErrOf result ReadStop.TooLong → Gave (S.told source.old).bytes (S.told source.new).bytes 67108865 }
    ensures gone { OnErr result (GaveUpTo (S.told source.old).bytes (S.told source.new).bytes 67108865) }
    // The count of faults changes only where the answer is a read fault, and never falls.
    ensures count { IsErrOf result ReadStop.ReadFault ⊎ ((S.told source.new).faults ≡ (S.told source.old).faults) }
    ensures later { (S.told source.old).faults ≤ (S.told source.new).faults }
{
    let mut bytes = Vec::new(alloc);
    let mut block = [0; BLOCK];
    while bytes.len() <= LIMIT {
        if read_more(source, &mut block, &mut bytes)? == 0 {
            return Ok(bytes);
        }
    }
    Err(ReadStop::TooLong)
}

/// One read, whose bytes are appended: how many there were. It asks for no more than one byte above the limit.
fn read_more<S: Source>(
    source: &mut S,
    block: &mut [u8; BLOCK],
    bytes: &mut Vec<u8>,
) -> Result<usize, ReadStop>
    requires { length bytes.old.items ≤ LIMIT }
    ensures more { IfOk result (λ n. (fresh : List ℕ) × (bytes.new.items ≡ bytes.old.items ++ fresh) × (length fresh ≡ n)
        × Consumes (S.told source.old).bytes (S.told source.new).bytes fresh) }
    ensures room { OnOk result (length bytes.new.items ≤ LIMIT + 1) }
    ensures end { IfOk result (λ n. n ≡ 0 → IsAtEnd (S.told source.new).bytes) }
    ensures fault { IsErrOf result ReadStop.ReadFault → Rose (S.told source.old).faults (S.told source.new).faults }
    ensures not_long { IsErrOf result ReadStop.TooLong → ⊥ }
    ensures gone { OnErr result (GaveUpTo (S.told source.old).bytes (S.told source.new).bytes (67108865 - length bytes.old.items)) }
    ensures ok { OnOk result ((S.told source.new).faults ≡ (S.told source.old).faults) }
    ensures count { IsErrOf result ReadStop.ReadFault ⊎ ((S.told source.new).faults ≡ (S.told source.old).faults) }
    ensures later { (S.told source.old).faults ≤ (S.told source.new).faults }
{
    let room = BLOCK.min(LIMIT + 1 - bytes.len());
    let count = match source.read(&mut block[..room]) {
        Ok(count) => count,
        Err(Failed) => return Err(ReadStop::ReadFault),
    };
    match bytes.extend_from_slice(&block[..count]) {
        Ok(()) => Ok(count),
        Err(_) => Err(ReadStop::NoMemory),
    }
}

/// Puts the bytes to the sink, in order. It asks again until all are taken.
pub fn put<K: Sink>(sink: &mut K, bytes: &[u8]) -> Result<(), WriteFault>
    // All of them are taken; or a proper beginning of them, and a fault is counted.
    ensures { Puts (K.told sink.old) (K.told sink.new) result bytes.now }
{
    match put_front(sink, bytes) {
        Ok(()) => Ok(()),
        Err(_) => Err(WriteFault),
    }
}

/// Puts the bytes to the sink, in order. Where a write fails, the answer is how many were taken.
pub(crate) fn put_front<K: Sink>(sink: &mut K, bytes: &[u8]) -> Result<(), usize>
    ensures all { OnOk result (Appends (K.told sink.old).bytes (K.told sink.new).bytes bytes.now) }
    ensures front { IfErr result (λ n. TookFront n (K.told sink.old).bytes (K.told sink.new).bytes bytes.now) }
    ensures cause { HasCause (K.told sink.old).faults (K.told sink.new).faults result }
{
    let mut taken = 0;
    while taken < bytes.len() {
        match sink.write(&bytes[taken..]) {
            Ok(count) => taken += count,
            Err(Failed) => return Err(taken),
        }
    }
    Ok(())
}

//! How a disk in memory moves bytes about.
ghost use Rattle.std.specs.Prelude.{◌≡◌, ◌≤◌, ◌+◌, ℕ, ◌<◌, length, slice_index, vec_capacity, IfOk, if◌then◌else◌};
ghost use Rattle.std.specs.List.{list_any};
ghost use Rattle.basics.specs.Replaced.{replaced};
ghost use Rattle.edge_traits.specs.Disk.{covers};
ghost use Rattle.edge_traits.specs.MemDisk.{IsOverlaid, noise as noise_of};

use crate::NoMemory;
use crate::span::Span;
use basics::advance;
use std::alloc::Global;

/// So many bytes of the generator. It answers only want of memory.
pub(crate) fn noise(alloc: Global, count: usize, seed: u64) -> Result<Vec<u8>, NoMemory>
    ensures bytes { IfOk result (λ bytes. bytes.items ≡ noise_of count seed) }
    ensures len { IfOk result (λ bytes. length bytes.items ≡ count) }
{
    let mut bytes = Vec::with_capacity(alloc, count)?;
    let mut x = seed;
    for _ in 0..count {
        x = advance(x);
        bytes.push((x >> 56) as u8)?;
    }
    Ok(bytes)
}

/// Puts bytes in place of those from an offset on, and past the end as far as they reach.
pub(crate) fn overwrite(bytes: &mut Vec<u8>, offset: usize, written: &[u8])
    requires begins { offset ≤ length bytes.old.items }
    requires room { offset + length written.now ≤ vec_capacity bytes.old }
    ensures bytes { bytes.new.items ≡ replaced bytes.old.items offset written.now }
    ensures room { vec_capacity bytes.old ≤ vec_capacity bytes.new }
{
    let within = written.len().min(bytes.len() - offset);
    write_over(bytes, offset, &written[..within]);
    bytes.extend_from_slice(&written[within..]).unwrap();
}

/// Puts bytes in place of as many others, from an offset on.
fn write_over(bytes: &mut [u8], offset: usize, written: &[u8])
    requires { offset + length written.now ≤ length bytes.old }
    ensures { bytes.new ≡ replaced bytes.old offset written.now }
{
    bytes[offset..offset + written.len()].copy_from_slice(written);
}

/// Makes the lower bytes the upper ones, but for those that reach as far and stand in no span.
pub(crate) fn overlay(lower: &mut Vec<u8>, upper: &[u8], spans: &[Span])
    requires { length upper.now ≤ vec_capacity lower.old }
    ensures bytes { IsOverlaid spans.now lower.old.items upper.now lower.new.items }
    ensures room { vec_capacity lower.old ≤ vec_capacity lower.new }
{
    lower.truncate(upper.len());
    let kept = lower.len();
    lower.extend_from_slice(&upper[kept..]).unwrap();
    copy_spans(upper, lower, spans);
}

/// Copies the bytes of each span, as far as there are any.
fn copy_spans(from: &[u8], to: &mut [u8], spans: &[Span])
    requires { length from.now ≡ length to.old }
    ensures { (offset : ℕ) → offset < length from.now → slice_index to.new offset
        ≡ (if list_any (covers offset) spans.now
        then slice_index from.now offset else slice_index to.old offset) }
{
    for span in spans {
        copy_span(from, to, span);
    }
}

fn copy_span(from: &[u8], to: &mut [u8], span: &Span)
    requires { length from.now ≡ length to.old }
    ensures { (offset : ℕ) → offset < length from.now → slice_index to.new offset
        ≡ (if covers offset span.now
        then slice_index from.now offset else slice_index to.old offset) }
{
    let first = span.first.min(to.len());
    let end = first + span.count.min(to.len() - first);
    write_over(to, first, &from[first..end]);
}

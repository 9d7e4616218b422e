// Lists with one item for each place: room for more items, and writes over some.
ghost use Rattle.std.specs.Prelude.{◌≡◌, ◌+◌, ◌≤◌, ◌-◌, ◌++◌, true, false, length, take, drop};
ghost use Rattle.std.specs.Prelude.{replicate, OnOk, OnErr, IsOk, vec_capacity, max};
ghost use Rattle.disk_model.specs.Disk.{overwritten};

use std::alloc::AllocError;

// Writes bytes over those from a place on, and past the end, and marks their places. It makes room
// for this write, and for the sync or crash after it. A refusal changes nothing.
pub(crate) fn write_marked(
    durable: &mut Vec<u8>,
    content: &mut Vec<u8>,
    marks: &mut Vec<bool>,
    at: usize,
    bytes: &[u8],
) -> Result<(), AllocError>
    requires at_most_end { at ≤ length content.old.items }
    requires marks { length marks.old.items ≡ length content.old.items }
    ensures durable { durable.new.items ≡ durable.old.items }
    ensures content { OnOk result (content.new.items ≡ overwritten content.old.items at bytes.now) }
    ensures marks { OnOk result
        (marks.new.items ≡ overwritten marks.old.items at (replicate (length bytes.now) true)) }
    ensures room { OnOk result
        (max (length content.old.items) (at + length bytes.now) ≤ vec_capacity durable.new) }
    ensures keeps_room { vec_capacity durable.old ≤ vec_capacity durable.new }
    ensures same_content { OnErr result (content.new.items ≡ content.old.items) }
    ensures same_marks { OnErr result (marks.new.items ≡ marks.old.items) }
    ensures inside_succeeds { length content.old.items ≤ vec_capacity durable.old
        → at + length bytes.now ≤ length content.old.items → IsOk result }
{
    let len = content.len().max(at + bytes.len());
    grow(durable, len)?;
    grow(content, len)?;
    grow(marks, len)?;
    put(content, at, bytes);
    mark(marks, at, bytes.len());
    Ok(())
}

// Makes room for `count` items in all.
pub(crate) fn grow<T>(items: &mut Vec<T>, count: usize) -> Result<(), AllocError>
    ensures items { items.new.items ≡ items.old.items }
    ensures room { OnOk result (count ≤ vec_capacity items.new) }
    ensures keeps_room { vec_capacity items.old ≤ vec_capacity items.new }
    ensures succeeds { count ≤ vec_capacity items.old → IsOk result }
{
    items.reserve(count.saturating_sub(items.len()))
}

// Writes bytes over those from a place on, and past the end. There is room for them.
fn put(items: &mut Vec<u8>, at: usize, bytes: &[u8])
    requires at_most_end { at ≤ length items.old.items }
    requires room { at + length bytes.now ≤ vec_capacity items.old }
    ensures items { items.new.items ≡ overwritten items.old.items at bytes.now }
{
    if bytes.len() <= items.len() - at {
        put_inside(items, at, bytes);
    } else {
        items.truncate(at);
        let _ = items.extend_from_slice(bytes);
    }
}

fn put_inside(items: &mut [u8], at: usize, bytes: &[u8])
    requires { at + length bytes.now ≤ length items.old }
    ensures { items.new ≡ overwritten items.old at bytes.now }
{
    items[at..at + bytes.len()].copy_from_slice(bytes);
}

// Marks `count` places from the place `at` on, and past the end. There is room for them.
fn mark(marks: &mut Vec<bool>, at: usize, count: usize)
    requires at_most_end { at ≤ length marks.old.items }
    requires room { at + count ≤ vec_capacity marks.old }
    ensures marks { marks.new.items ≡ overwritten marks.old.items at (replicate count true) }
{
    if count <= marks.len() - at {
        mark_inside(marks, at, count);
    } else {
        marks.truncate(at);
        let _ = marks.resize(at + count, true);
    }
}

fn mark_inside(marks: &mut [bool], at: usize, count: usize)
    requires { at + count ≤ length marks.old }
    ensures { marks.new ≡ overwritten marks.old at (replicate count true) }
{
    marks[at..at + count].fill(true);
}

// Leaves marks for `count` places, and clears those from the place `at` on.
pub(crate) fn clear_from(marks: &mut Vec<bool>, at: usize, count: usize)
    requires at_most_count { at ≤ count }
    requires at_most_end { count ≤ length marks.old.items }
    ensures marks { marks.new.items ≡ take at marks.old.items ++ replicate (count - at) false }
{
    marks.truncate(at);
    let _ = marks.resize(count, false);
}

// Copies the bytes from a place on from other bytes. There is room for them.
pub(crate) fn copy_from(items: &mut Vec<u8>, from: &[u8], at: usize)
    requires at_most_end { at ≤ length items.old.items }
    requires within { at ≤ length from.now }
    requires room { length from.now ≤ vec_capacity items.old }
    ensures items { items.new.items ≡ take at items.old.items ++ drop at from.now }
    ensures keeps_room { vec_capacity items.old ≤ vec_capacity items.new }
{
    items.truncate(at);
    let _ = items.extend_from_slice(&from[at..]);
}

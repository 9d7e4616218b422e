// The cases of recovery from four files.
use std::alloc::Global;
use world_actions::Refusal;

// Files, byte by byte. An image has the gate, the number of cells, the tick and the words. The
// files are in the first format here. A file becomes one of the second format by its mark in
// byte 8. From `pair` on each file has its own mark.
const FILES: &str = "\
none
gate      01
zero      01 0100000000000000 0000000000000000 0000000000000000
one       01 0100000000000000 0000000000000000 0100000000000000
two       01 0100000000000000 0000000000000000 0200000000000000
five@1    01 0100000000000000 0100000000000000 0500000000000000
seven@2   01 0100000000000000 0200000000000000 0700000000000000
pair@3    01 0200000000000000 0300000000000000 0500000000000000 0700000000000000
more@1    01 0100000000000000 0100000000000000 0500000000000000 ff01
shut@1    00 0100000000000000 0100000000000000 0500000000000000
last      01 0100000000000000 000064a7b3b6e00d 0700000000000000
late      01 0100000000000000 010064a7b3b6e00d 0700000000000000
great     01 0100000000000000 0000000000000000 ffff63a7b3b6e00d
greater   01 0100000000000000 0000000000000000 000064a7b3b6e00d
short     01 0100000000000000 0000000000000000 00000000000000
header    01 0100000000000000 00000000000000
nocells   01 0000000000000000 0000000000000000 0000000000000000
cells     01 0100010000000000 0000000000000000 0000000000000000
set       01 0000000000000000 01 0100 0100 01 00000000 0500000000000000 00
set/end   01 0000000000000000 01 0100 0100 01 00000000 0500000000000000
set/shut  00 0000000000000000 01 0100 0100 01 00000000 0500000000000000 00
set/cut   01 0000000000000000 01 0100 0100
set/nine  01 0000000000000000
set/empty 01 0000000000000000 00
set+add   01 0000000000000000 01 0200 0100 01 00000000 0500000000000000 0100 02 00000000 0200000000000000 00
set,add   01 0000000000000000 01 0100 0100 01 00000000 0500000000000000 01 0100 0100 02 00000000 0200000000000000 00
set-add   01 0000000000000000 01 0100 0100 01 00000000 0500000000000000 00 0100 0100 02 00000000 0200000000000000 00
set+self  01 0000000000000000 01 0200 0100 01 00000000 0500000000000000 0200 02 00000000 0100000000000000 03 00000000 00000000 0100000000000000 00
cell      01 0000000000000000 01 0100 0100 01 01000000 0500000000000000 00
idle      01 0000000000000000 01 0100 0000 00
kind      01 0000000000000000 01 0100 0100 04 00000000 0500000000000000 00
noticks   01 0000000000000000 01 0000 00
ticks     01 0000000000000000 01 2100 0000 0000 0000 0000 0000 0000 0000 0000 0000 0000 0000 0000 0000 0000 0000 0000 0000 0000 0000 0000 0000 0000 0000 0000 0000 0000 0000 0000 0000 0000 0000 0000 0000 00
actions   01 0000000000000000 01 0100 0101 00
add@1     01 0100000000000000 01 0100 0100 02 00000000 0200000000000000 00
less@1    01 0100000000000000 01 0100 0100 02 00000000 faffffffffffffff 00
empty@1   01 0100000000000000 00
add@2     01 0200000000000000 01 0100 0100 02 00000000 0200000000000000 00
empty@2   01 0200000000000000 00
move@3    01 0300000000000000 01 0100 0100 03 00000000 01000000 0200000000000000 00
last/log  01 000064a7b3b6e00d 00
past/log  01 000064a7b3b6e00d 01 0100 0000 00
pair      01 0200000000000000 0000000000000000 0500000000000000 0700000000000000
pair/2    01 0200000000000020 0000000000000000 0500000000000000 0700000000000000
pair/10   01 0200000000000010 0000000000000000 0500000000000000 0700000000000000
pair/1f   01 020000000000001f 0000000000000000 0500000000000000 0700000000000000
pair/30   01 0200000000000030 0000000000000000 0500000000000000 0700000000000000
shut/10   00 0200000000000010 0000000000000000 0500000000000000 0700000000000000
none/2    01 0000000000000020 0000000000000000 0500000000000000 0700000000000000
swap,cap  01 0000000000000000 01 0100 0200 04 00000000 01000000 05 00000000 0300000000000000 00
swap,cap/2 01 0000000000000020 01 0100 0200 04 00000000 01000000 05 00000000 0300000000000000 00
cap       01 0000000000000000 01 0100 0100 05 01000000 0300000000000000 00
cap/2     01 0000000000000020 01 0100 0100 05 01000000 0300000000000000 00
cap/much  01 0000000000000020 01 0100 0100 05 00000000 000064a7b3b6e00d 00
cap/cell  01 0000000000000020 01 0100 0100 05 02000000 0300000000000000 00
swap/self 01 0000000000000020 01 0100 0100 04 01000000 01000000 00
kind/6    01 0000000000000020 01 0100 0100 06 00000000 01000000 0000000000000000 00
set,torn  01 0000000000000000 01 0100 0100 01 00000000 0500000000000000 01 0100 0100 02 0000
set,cell  01 0000000000000000 01 0100 0100 01 00000000 0500000000000000 01 0100 0100 01 01000000 0500000000000000 00
set,self,add 01 0000000000000000 01 0100 0100 01 00000000 0500000000000000 01 0200 0100 02 00000000 0200000000000000 0100 03 00000000 00000000 0100000000000000 01 0100 0100 02 00000000 0200000000000000 00
empty/10  01 0000000000000010 00
empty/30  01 0000000000000030 00
set@1     01 0100000000000000 01 0100 0100 01 01000000 0900000000000000 00
set@1/2   01 0100000000000020 01 0100 0100 01 01000000 0900000000000000 00
";

// The names of image.a, image.b, log.a and log.b, and the answer of recovery. It is the tick, the
// image's tick and file, and the words, or the refusal.
pub(crate) const CASES: &str = "\
none    none    none     none    refused NoImage
gate    none    none     none    refused NoImage
shut@1  none    set      none    refused NoImage
header  shut@1  set      add@1   refused NoImage
none    none    set/cut  none    refused BadLog
zero    none    none     none    0 from 0 in A: 0
none    zero    none     none    0 from 0 in B: 0
one     two     none     none    0 from 0 in A: 1
two     one     none     none    0 from 0 in A: 2
zero    five@1  none     none    1 from 1 in B: 5
five@1  zero    none     none    1 from 1 in A: 5
five@1  shut@1  none     none    1 from 1 in A: 5
more@1  none    none     none    1 from 1 in A: 5
great   none    none     none    0 from 0 in A: 999999999999999999
greater none    none     none    refused BadImage
greater none    set/cut  none    refused BadImage
zero    greater none     none    refused BadImage
none    greater set/cut  kind    refused BadImage
greater none    set      none    refused BadImage
none    greater set      add@1   refused BadImage
short   none    none     none    refused BadImage
nocells none    none     none    refused BadImage
cells   none    none     none    refused BadImage
late    none    none     none    refused BadImage
last    none    none     none    1000000000000000000 from 1000000000000000000 in A: 7
last    none    last/log none    1000000000000000000 from 1000000000000000000 in A: 7
zero    none    past/log none    refused BadLog
zero    none    set      add@1   2 from 0 in A: 7
zero    none    add@1    set     2 from 0 in A: 7
zero    none    set      add@2   1 from 0 in A: 5
zero    none    none     add@1   0 from 0 in A: 0
zero    none    set/empty set    1 from 0 in A: 5
zero    none    set      set     1 from 0 in A: 5
zero    none    set      less@1  refused BadLog
zero    none    set/cut  none    refused BadLog
zero    none    none     set/cut refused BadLog
five@1  none    set/cut  add@1   refused BadLog
zero    none    set/end  none    1 from 0 in A: 5
zero    none    set/shut none    0 from 0 in A: 0
zero    none    set/nine none    0 from 0 in A: 0
zero    none    set+add  none    2 from 0 in A: 7
zero    none    set,add  none    2 from 0 in A: 7
zero    none    set-add  none    1 from 0 in A: 5
zero    none    set+add  add@1   2 from 0 in A: 7
zero    none    set+add  add@2   3 from 0 in A: 9
zero    none    set+self none    refused BadLog
zero    none    cell     none    refused BadLog
zero    none    idle     none    1 from 0 in A: 0
zero    none    kind     none    refused BadLog
zero    none    noticks  none    refused BadLog
zero    none    ticks    none    refused BadLog
zero    none    actions  none    refused BadLog
five@1  none    set      none    1 from 1 in A: 5
five@1  none    set      add@1   2 from 1 in A: 7
five@1  zero    set      add@1   2 from 1 in A: 7
five@1  seven@2 set+add  none    2 from 2 in B: 7
five@1  seven@2 add@1    empty@2 2 from 2 in B: 7
five@1  seven@2 add@1    add@2   3 from 2 in B: 9
seven@2 five@1  set      empty@1 2 from 2 in A: 7
pair@3  seven@2 move@3   add@2   4 from 3 in A: 3 9
seven@2 pair@3  add@2    move@3  4 from 3 in B: 3 9
five@1  pair@3  add@2    empty@1 3 from 3 in B: 5 7
";

// The same for files that have their own marks.
pub(crate) const CASES_OF_A_FORMAT: &str = "\
pair    none    swap,cap/2 none   1 from 0 in A: 3 5
pair/2  none    swap,cap/2 none   1 from 0 in A: 3 5
none    pair/2  none  swap,cap/2  1 from 0 in B: 3 5
pair    none    swap,cap none     refused BadLog
pair/2  none    swap,cap none     refused BadLog
pair/2  none    none     swap,cap refused BadLog
pair    none    cap      none     refused BadLog
pair    none    cap/2    none     1 from 0 in A: 5 3
pair/2  none    cap/much none     refused BadLog
pair/2  none    cap/cell none     refused BadLog
pair/2  none    swap/self none    refused BadLog
pair/2  none    kind/6   none     refused BadLog
pair/10 none    none     none     refused BadImage
pair/1f none    none     none     refused BadImage
pair/30 none    none     none     refused BadImage
none/2  none    none     none     refused BadImage
pair/2  pair/10 none     none     refused BadImage
pair/10 none    empty/10 none     refused BadImage
shut/10 none    none     none     refused NoImage
shut/10 pair/2  none     none     0 from 0 in B: 5 7
pair/2  none    empty/10 none     refused BadLog
pair/2  none    none     empty/30 refused BadLog
pair/2  none    swap,cap/2 set@1  2 from 0 in A: 3 9
pair    none    swap,cap/2 set@1/2 2 from 0 in A: 3 9
pair    none    set@1    cap/2    2 from 0 in A: 5 9
";

// The digits of a file's line.
fn digits_of(name: &str) -> &'static str {
    for line in FILES.lines() {
        let (word, digits) = first_word(line);
        if word == name {
            return digits;
        }
    }
    ""
}

// The first word of a line, and the rest of the line.
fn first_word(line: &str) -> (&str, &str) {
    match line.split_once(' ') {
        Some((word, rest)) => (word, rest.trim_start()),
        None => (line, ""),
    }
}

fn value_of(digit: u8) -> u8 {
    if digit.is_ascii_digit() {
        digit - b'0'
    } else {
        digit.saturating_sub(b'a') + 10
    }
}

// The bytes that pairs of digits represent, with spaces between them.
fn bytes_of(alloc: Global, digits: &str) -> Result<Vec<u8>, Refusal> {
    let mut bytes = Vec::new(alloc);
    let mut high = None;
    for digit in digits.bytes() {
        if digit == b' ' {
            continue;
        }
        let value = value_of(digit);
        match high {
            None => high = Some(value),
            Some(first) => {
                bytes.push(first % 16 * 16 + value % 16)?;
                high = None;
            }
        }
    }
    Ok(bytes)
}
// The file of this name, as it is or with the mark of the second format.
fn file_of(alloc: Global, name: &str, is_second: bool) -> Result<Vec<u8>, Refusal> {
    let mut file = bytes_of(alloc, digits_of(name))?;
    if is_second && file.len() > 8 {
        file[8] |= 0x20;
    }
    Ok(file)
}

// The four files that a line begins with, and the rest of the line. `mix` has a bit for the
// format of each file.
pub(crate) fn files_of(
    alloc: Global,
    line: &str,
    mix: u32,
) -> Result<(Vec<Vec<u8>>, &str), Refusal> {
    let mut files = Vec::with_capacity(alloc, 4)?;
    let mut rest = line;
    for place in 0..4u32 {
        let (name, more) = first_word(rest);
        files.push(file_of(alloc, name, mix >> place & 1 != 0)?)?;
        rest = more;
    }
    Ok((files, rest))
}

use super::recovered::text_of;
use super::recovered_cases::{CASES, files_of};
use salvage::{ImagePart, LogPart, Salvaged, salvage};
use std::alloc::Global;
use std::process::Abort;
use std::test::Fail;
use world_actions::Refusal;

// The names of image.a, image.b, log.a and log.b, and what is salvaged. It is the answer of
// recovery, and what is taken of each file. Of an image this is its tick. Of a segment it is its
// base and the number of its ticks, and the place of a cut.
const SALVAGED: &str = "\
none    none    none     none    refused NoImage
none    none    set      add@1   refused NoImage
greater short   set      none    refused NoImage
gate    greater set      add@1   refused NoImage
zero    none    set      add@1   2 from 0 in A: 7; 0, closed, 0+1, 1+1
greater five@1  none     none    1 from 1 in B: 5; dropped, 1, closed, closed
five@1  greater set      add@1   2 from 1 in A: 7; 1, dropped, 0+1, 1+1
zero    five@1  set      add@1   2 from 1 in B: 7; 0, 1, 0+1, 1+1
zero    short   set      add@1   2 from 0 in A: 7; 0, dropped, 0+1, 1+1
none    five@1  set      add@1   2 from 1 in B: 7; closed, 1, 0+1, 1+1
five@1  none    set      add@1   2 from 1 in A: 7; 1, closed, 0+1, 1+1
zero    none    none     add@1   0 from 0 in A: 0; 0, closed, closed, 1+1
zero    none    set      none    1 from 0 in A: 5; 0, closed, 0+1, closed
zero    none    set,torn none    1 from 0 in A: 5; 0, closed, 0+1 in 27, closed
zero    none    set,torn add@1   2 from 0 in A: 7; 0, closed, 0+1 in 27, 1+1
zero    none    add@1    set,torn 2 from 0 in A: 7; 0, closed, 1+1, 0+1 in 27
zero    none    set/cut  none    0 from 0 in A: 0; 0, closed, dropped, closed
zero    none    none     kind    0 from 0 in A: 0; 0, closed, closed, dropped
five@1  none    set/cut  add@1   2 from 1 in A: 7; 1, closed, dropped, 1+1
zero    none    set,cell none    1 from 0 in A: 5; 0, closed, 0+1 in 27, closed
zero    none    set,cell add@1   2 from 0 in A: 7; 0, closed, 0+1 in 27, 1+1
zero    none    set,self,add none 1 from 0 in A: 5; 0, closed, 0+1 in 27, closed
zero    none    set+self add@2   0 from 0 in A: 0; 0, closed, dropped, 2+1
zero    none    set      less@1  1 from 0 in A: 5; 0, closed, 0+1, dropped
zero    none    less@1   set     1 from 0 in A: 5; 0, closed, dropped, 0+1
five@1  none    set,cell none    1 from 1 in A: 5; 1, closed, 0+2, closed
";

// What is taken of an image, written as in a case.
fn push_image(alloc: Global, text: &mut String, part: ImagePart) -> Result<(), Refusal> {
    match part {
        ImagePart::Closed => text.push_str("closed, ")?,
        ImagePart::Whole { tick } => text.push_str(&format!(in alloc; "{tick}, ")?)?,
        ImagePart::Dropped => text.push_str("dropped, ")?,
    }
    Ok(())
}

// What is taken of a segment, written as in a case.
fn push_log(alloc: Global, text: &mut String, part: LogPart) -> Result<(), Refusal> {
    match part {
        LogPart::Closed => text.push_str("closed")?,
        LogPart::Whole { base, ticks } => text.push_str(&format!(in alloc; "{base}+{ticks}")?)?,
        LogPart::Cut { at, base, ticks } => {
            text.push_str(&format!(in alloc; "{base}+{ticks} in {at}")?)?
        }
        LogPart::Dropped => text.push_str("dropped")?,
    }
    Ok(())
}

// What is salvaged, written as in a case.
fn salvaged_text(alloc: Global, salvaged: &Salvaged) -> Result<String, Refusal> {
    let mut text = text_of(alloc, &salvaged.found)?;
    text.push_str("; ")?;
    push_image(alloc, &mut text, salvaged.image_a)?;
    push_image(alloc, &mut text, salvaged.image_b)?;
    push_log(alloc, &mut text, salvaged.log_a)?;
    text.push_str(", ")?;
    push_log(alloc, &mut text, salvaged.log_b)?;
    Ok(text)
}

// What is salvaged of four files, written as in a case.
fn reported(alloc: Global, files: &[Vec<u8>]) -> Result<String, Refusal> {
    let [image_a, image_b, log_a, log_b] = files else {
        return Ok(format!(in alloc; "not four files")?);
    };
    match salvage(alloc, image_a, image_b, log_a, log_b) {
        Err(refusal) => Ok(format!(in alloc; "refused {refusal:?}")?),
        Ok(salvaged) => salvaged_text(alloc, &salvaged),
    }
}

// Asserts the cases in this mix of the formats, and counts them.
fn cases_of(rt: &impl Abort, alloc: Global, mix: u32) -> Result<u32, Refusal> {
    let mut cases = 0u32;
    for line in SALVAGED.lines() {
        let (files, answer) = files_of(alloc, line, mix)?;
        let found = reported(alloc, &files)?;
        assert_eq!(rt; found.as_str(), answer, "mix {mix} of {line}");
        cases = cases.saturating_add(1);
    }
    Ok(cases)
}

#[test]
fn what_is_salvaged_of_files_in_each_mix_of_formats(rt: HostRuntime) -> Result<(), Fail> {
    for mix in 0..16 {
        assert_eq!(rt; cases_of(&rt, rt.alloc(), mix)?, 26);
    }
    Ok(())
}

// Asserts that files which recovery accepts are taken as they are, and counts them.
fn accepted_cases(rt: &impl Abort, alloc: Global, mix: u32) -> Result<u32, Refusal> {
    let mut cases = 0u32;
    for line in CASES.lines() {
        let (files, answer) = files_of(alloc, line, mix)?;
        if answer.starts_with("refused") {
            continue;
        }
        let found = reported(alloc, &files)?;
        assert!(rt; found.starts_with(answer), "mix {mix} of {line}: {found}");
        assert!(rt;
            !found.contains("dropped") && !found.contains(" in 27"),
            "mix {mix} of {line}: {found}"
        );
        cases = cases.saturating_add(1);
    }
    Ok(cases)
}

#[test]
fn files_that_recovery_accepts_are_taken_whole(rt: HostRuntime) -> Result<(), Fail> {
    for mix in 0..16 {
        assert_eq!(rt; accepted_cases(&rt, rt.alloc(), mix)?, 36);
    }
    Ok(())
}

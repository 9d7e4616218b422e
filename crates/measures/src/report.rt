use crate::figures::Figures;
use crate::measuring::AllFigures;
use crate::pair_speed::PairSpeed;
use anyhow::Error;
use std::alloc::{AllocError, Global};

/// Prints the time of the clock, and a line of times for each store.
pub fn report_figures<R: Print + AllocGlobal>(rt: &R, all: &mut AllFigures) -> Result<(), Error> {
    println!(rt;
        "two calls of the clock: {} ns, taken off each mark",
        all.clock.median()
    )?;
    println!(rt;
        "nanoseconds      {:>12} {:>12} {:>12} {:>9} {:>11} {:>9}",
        "random write", "in order", "random read", "take", "mark median", "mark p99"
    )?;
    report_cells(rt, "vector", &mut all.vector)?;
    println!(rt; " {:>9} {:>11} {:>9}", "-", "-", "-")?;
    report_store(rt, "plain copy", &mut all.plain_copy)?;
    report_store(rt, "zigzag", &mut all.zigzag)?;
    report_store(rt, "pingpong", &mut all.ping_pong)?;
    report_store(rt, "shared zigzag", &mut all.shared_zigzag)?;
    report_store(rt, "shared pingpong", &mut all.shared_ping_pong)?;
    println!(rt; "sum of the words that were read and taken: {}", all.sum())?;
    Ok(())
}

fn report_cells<R: Print + AllocGlobal>(
    rt: &R,
    name: &str,
    figures: &mut Figures,
) -> Result<(), Error> {
    let random_write = decimal(rt.alloc(), figures.random_write.median())?;
    let ordered_write = decimal(rt.alloc(), figures.ordered_write.median())?;
    let random_read = decimal(rt.alloc(), figures.random_read.median())?;
    print!(rt; "{name:<16} {random_write:>12} {ordered_write:>12} {random_read:>12}")?;
    Ok(())
}

fn report_store<R: Print + AllocGlobal>(
    rt: &R,
    name: &str,
    figures: &mut Figures,
) -> Result<(), Error> {
    report_cells(rt, name, figures)?;
    let take = decimal(rt.alloc(), figures.take.median())?;
    let (median, last) = (figures.mark.median(), figures.mark.percentile(99));
    println!(rt; " {take:>9} {median:>11} {last:>9}")?;
    Ok(())
}

/// Prints each ratio beside its limit.
pub fn report_ratios<R: Print>(rt: &R, all: &mut AllFigures) -> Result<(), Error> {
    report_mark_ratios(rt, all)?;
    report_write_ratios(rt, all)?;
    let take = all.plain_copy.take.median();
    report_ratio(
        rt,
        "a take of zigzag to plain copy's",
        all.zigzag.take.median(),
        take,
        "3",
    )
}

fn report_mark_ratios<R: Print>(rt: &R, all: &mut AllFigures) -> Result<(), Error> {
    let mark = all.plain_copy.mark.median();
    let zigzag = all.zigzag.mark.median();
    report_ratio(rt, "a mark of zigzag to plain copy's", zigzag, mark, "0.03")?;
    let ping_pong = all.ping_pong.mark.median();
    report_ratio(
        rt,
        "a mark of pingpong to plain copy's",
        ping_pong,
        mark,
        "0.001",
    )?;
    let shared_zigzag = all.shared_zigzag.mark.median();
    report_ratio(
        rt,
        "a mark of shared zigzag to plain copy's",
        shared_zigzag,
        mark,
        "0.33",
    )
}

fn report_write_ratios<R: Print>(rt: &R, all: &mut AllFigures) -> Result<(), Error> {
    let write = all.vector.random_write.median();
    for (name, time) in [
        ("plain copy", all.plain_copy.random_write.median()),
        ("zigzag", all.zigzag.random_write.median()),
        ("pingpong", all.ping_pong.random_write.median()),
        ("shared zigzag", all.shared_zigzag.random_write.median()),
        (
            "shared pingpong",
            all.shared_ping_pong.random_write.median(),
        ),
    ] {
        print!(rt; "a write of {name} ")?;
        report_ratio(rt, "to vector's", time, write, "7")?;
    }
    Ok(())
}

/// Prints a ratio beside its limit.
pub fn report_ratio<R: Print>(
    rt: &R,
    name: &str,
    part: u64,
    whole: u64,
    most: &str,
) -> Result<(), Error> {
    let ratio = part.saturating_mul(10_000).checked_div(whole).unwrap_or(0);
    println!(rt;
        "{name}: {}.{:04}, at most {most}",
        ratio / 10_000,
        ratio % 10_000
    )?;
    Ok(())
}

/// Prints how many writes, marks and takes two threads made in a second.
pub fn report_pair<R: Print + AllocGlobal>(
    rt: &R,
    name: &str,
    speed: &PairSpeed,
) -> Result<(), Error> {
    let writes = decimal(rt.alloc(), speed.writes.per_second() / 1000)?;
    let takes = decimal(rt.alloc(), speed.takes.per_second() / 1000)?;
    let marks = speed.marks.per_second();
    println!(rt;
        "{name}, two threads: {writes} million writes, {takes} million takes and {marks} marks a second"
    )?;
    Ok(())
}

/// A number of thousandths with its decimals.
pub fn decimal(alloc: Global, thousandths: u64) -> Result<String, AllocError> {
    format!(in alloc; "{}.{:03}", thousandths / 1000, thousandths % 1000)
}

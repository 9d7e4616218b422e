use crate::keeper_speed::KeeperSpeed;
use crate::recovery_speed::RecoverySpeed;
use crate::report::{decimal, report_ratio};
use crate::ticks::{ACTIONS, SEGMENT_ACTIONS};
use crate::times::picoseconds;
use anyhow::Error;

/// Prints how fast both keepers are, beside `take`, the picoseconds of a take of Zigzag.
pub fn report_keepers<R: Print + AllocGlobal>(
    rt: &R,
    speed: &mut KeeperSpeed,
    take: u64,
) -> Result<(), Error> {
    let (action, tick, cell) = (
        speed.action.median(),
        speed.tick.median(),
        speed.cell.median(),
    );
    report_time(rt, "an action replayed", "ns", action)?;
    report_time(
        rt,
        "a tick of four actions logged in a group of 32",
        "ns",
        tick,
    )?;
    report_time(rt, "a cell of a round of zigzag written", "ns", cell)?;
    let actions = action.saturating_mul(ACTIONS as u64);
    report_ratio(
        rt,
        "a tick logged to its actions replayed",
        tick,
        actions,
        "8",
    )?;
    report_ratio(rt, "a cell written to a take of zigzag", cell, take, "8")
}

/// Prints how fast recovery is, beside `action`, the picoseconds of a replayed action.
pub fn report_recovery<R: Print + AllocGlobal>(
    rt: &R,
    speed: &mut RecoverySpeed,
    action: u64,
) -> Result<(), Error> {
    report_images(rt, speed)?;
    report_segment(rt, speed, action)?;
    println!(rt;
        "sum of the ticks and words that were recovered: {}",
        speed.sum
    )?;
    Ok(())
}

fn report_images<R: Print + AllocGlobal>(rt: &R, speed: &mut RecoverySpeed) -> Result<(), Error> {
    let (read, image) = (speed.read.median(), speed.image.median());
    report_time(
        rt,
        "the file of an image of 65,536 cells read",
        "ms",
        read / 1000,
    )?;
    report_time(rt, "that image recovered", "ms", image / 1000)?;
    let large_image = speed.large_image.median();
    report_time(
        rt,
        "an image of 1,048,576 cells recovered",
        "ms",
        large_image / 1000,
    )?;
    report_ratio(rt, "an image recovered to its file read", image, read, "1")
}

fn report_segment<R: Print + AllocGlobal>(
    rt: &R,
    speed: &mut RecoverySpeed,
    action: u64,
) -> Result<(), Error> {
    let time = speed.segment.median();
    let recovered = picoseconds(time, SEGMENT_ACTIONS);
    report_time(rt, "a full segment recovered", "ms", time / 1000)?;
    report_time(rt, "an action of it", "ns", recovered)?;
    let rate = speed.segment_bytes.saturating_mul(1000).checked_div(time);
    println!(rt; "its bytes: {} MB a second", rate.unwrap_or(0))?;
    report_ratio(
        rt,
        "an action recovered to one replayed",
        recovered,
        action,
        "2.5",
    )
}

fn report_time<R: Print + AllocGlobal>(
    rt: &R,
    name: &str,
    unit: &str,
    thousandths: u64,
) -> Result<(), Error> {
    let time = decimal(rt.alloc(), thousandths)?;
    println!(rt; "{name}: {time} {unit}")?;
    Ok(())
}

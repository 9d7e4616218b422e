use std::test::Fail;
use std::time::Duration;
use trial_kit::{nanoseconds_of, of_thousandths};

#[test]
fn thousandths_of_a_thousand(rt: HostRuntime) -> Result<(), Fail> {
    let mut sorted = Vec::new(rt.alloc());
    for time in 1..=1000u64 {
        sorted.push(time)?;
    }
    for (thousandths, time) in [(1, 1), (500, 500), (990, 990), (999, 999), (1000, 1000)] {
        assert_eq!(rt; of_thousandths(&sorted, thousandths), time);
    }
    Ok(())
}

#[test]
fn thousandths_of_few(rt: HostRuntime) {
    assert_eq!(rt; of_thousandths(&[], 500), 0);
    assert_eq!(rt; of_thousandths(&[7], 1), 7);
    assert_eq!(rt; of_thousandths(&[1, 2, 3, 4, 5, 6, 7, 8, 9], 500), 5);
    assert_eq!(rt; of_thousandths(&[1, 2], 501), 2);
}

#[test]
fn nanoseconds_of_times(rt: HostRuntime) {
    assert_eq!(rt; nanoseconds_of(Duration::from_micros(3)), 3000);
    assert_eq!(rt; nanoseconds_of(Duration::from_secs(u64::MAX)), u64::MAX);
}

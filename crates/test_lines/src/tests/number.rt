use super::same::same;
use line_grammar::{read_cell, read_difference, read_number};

#[test]
fn numbers(rt: HostRuntime) {
    same(&rt, read_number(b"0"), Some(0));
    let most = read_number(b"18446744073709551615");
    same(&rt, most, Some(18_446_744_073_709_551_615));
    same(&rt, read_cell(b"4294967295"), Some(4_294_967_295));
    same(&rt, read_difference(b"7"), Some(7));
    same(&rt, read_difference(b"-7"), Some(-7));
}

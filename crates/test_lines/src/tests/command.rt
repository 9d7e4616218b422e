use super::same::{same, same_for};
use line_grammar::{Command, read_command};
use world_actions::Action;

const MOST: i64 = 9_223_372_036_854_775_807;

const GOOD_LINES: [(&str, Command); 11] = [
    ("set 7 0", Command::Act(Action::Set { cell: 7, value: 0 })),
    (
        "set 0 18446744073709551615",
        Command::Act(Action::Set {
            cell: 0,
            value: 18_446_744_073_709_551_615,
        }),
    ),
    (
        "add 0 9223372036854775807",
        Command::Act(Action::Add { cell: 0, by: MOST }),
    ),
    (
        "add 0 -9223372036854775807",
        Command::Act(Action::Add { cell: 0, by: -MOST }),
    ),
    (
        "move 1 20 300",
        Command::Act(Action::Transfer {
            from: 1,
            to: 20,
            amount: 300,
        }),
    ),
    ("swap 0 1", Command::Act(Action::Swap { a: 0, b: 1 })),
    (
        "swap 4294967295 0",
        Command::Act(Action::Swap {
            a: 4_294_967_295,
            b: 0,
        }),
    ),
    ("cap 1 3", Command::Act(Action::Cap { cell: 1, value: 3 })),
    (
        "cap 0 18446744073709551615",
        Command::Act(Action::Cap {
            cell: 0,
            value: 18_446_744_073_709_551_615,
        }),
    ),
    ("get 4294967295", Command::Get(4_294_967_295)),
    ("end", Command::End),
];

#[test]
fn good_lines(rt: HostRuntime) {
    for (line, command) in &GOOD_LINES {
        same_for(&rt, *line, read_command(line.as_bytes()), Some(*command));
    }
}

const BAD_LINES: [&str; 27] = [
    "",
    "set 00 1",
    "set 0 +1",
    "set  0 1",
    "set 0  1",
    "set 0 18446744073709551616",
    "SET 0 1",
    "add 0 -0",
    "add 0 -9223372036854775808",
    "add 0 9223372036854775808",
    "move 0 1",
    "move 0 1 2 3",
    "swap 0",
    "swap 0 1 2",
    "swap 0 4294967296",
    "swap  0 1",
    "cap 0",
    "cap 0 -1",
    "cap 0 18446744073709551616",
    "cap 0 1 2",
    "capped 0 1",
    "get 4294967296",
    "end\r",
    "end\0",
    " end",
    "end ",
    "\0",
];

#[test]
fn bad_lines(rt: HostRuntime) {
    for line in &BAD_LINES {
        same_for(&rt, *line, read_command(line.as_bytes()), None);
    }
    same(&rt, read_command(b"get \xff"), None);
}

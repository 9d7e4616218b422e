use std::alloc::Global;
use std::io::{self, ErrorKind, Read, Write};
use std::process::Abort;
use steps::run_script;
use world_actions::Refusal;

// The script of the first page, and a refused transfer.
const TRANSFERS: &[u8] = b"open plain 2\nset 0 5\nmove 0 1 2\nget 1\nend\nmove 1 0 3\nworld\n";

const TRANSFERS_TEXT: &[u8] = b"ready 0\n+\n+\n= 2\ntick 1\n- 3\n3 2\n";

// The trouble that calls of a reader or a writer have.
#[derive(Clone, Copy)]
enum Trouble {
    Never,
    // The call of this number and all later ones fail.
    FailsAt(usize),
    // Each call that succeeds comes after one that was interrupted.
    Interrupts,
}

// The answer to a call, after so many calls.
fn call(calls: usize, trouble: Trouble) -> io::Result<()> {
    match trouble {
        Trouble::Never => Ok(()),
        Trouble::FailsAt(first) => {
            if calls >= first {
                return Err(io::Error::from(ErrorKind::Other));
            }
            Ok(())
        }
        Trouble::Interrupts => {
            if calls % 2 == 0 {
                return Err(io::Error::from(ErrorKind::Interrupted));
            }
            Ok(())
        }
    }
}

// A reader over bytes that gives a few at a time.
#[derive(Drop)]
struct Pieces<'a> {
    bytes: &'a [u8],
    most: usize,
    calls: usize,
    trouble: Trouble,
}

impl Read for Pieces<'_> {
    fn read(&mut self, buf: &mut [u8]) -> io::Result<usize> {
        let calls = self.calls;
        self.calls = calls.saturating_add(1);
        call(calls, self.trouble)?;
        let count = self.bytes.len().min(self.most).min(buf.len());
        let (now, later) = self.bytes.split_at(count);
        buf[..count].copy_from_slice(now);
        self.bytes = later;
        Ok(count)
    }
}

// A writer that takes a few bytes at a time, and none once it is full.
#[derive(Drop)]
struct Page {
    bytes: [u8; 512],
    len: usize,
    most: usize,
    calls: usize,
    trouble: Trouble,
}

impl Page {
    fn new(most: usize, trouble: Trouble) -> Self {
        Page {
            bytes: [0; 512],
            len: 0,
            most,
            calls: 0,
            trouble,
        }
    }

    fn written(&self) -> &[u8] {
        &self.bytes[..self.len.min(512)]
    }
}

impl Write for Page {
    fn write(&mut self, buf: &[u8]) -> io::Result<usize> {
        let calls = self.calls;
        self.calls = calls.saturating_add(1);
        call(calls, self.trouble)?;
        let start = self.len.min(512);
        let count = buf.len().min(self.most).min(512 - start);
        self.bytes[start..start + count].copy_from_slice(&buf[..count]);
        self.len = start + count;
        Ok(count)
    }

    fn flush(&mut self) -> io::Result<()> {
        Ok(())
    }
}

// Runs a script that is read in pieces of so many bytes. Returns its result and its text.
fn run(alloc: Global, input: &[u8], most: usize) -> (Result<(), Refusal>, Page) {
    let mut reader = Pieces {
        bytes: input,
        most,
        calls: 0,
        trouble: Trouble::Never,
    };
    let mut page = Page::new(512, Trouble::Never);
    let ended = run_script(alloc, &mut reader, &mut page);
    (ended, page)
}

// Scripts and their texts.
const SCRIPTS: [(&[u8], &[u8]); 16] = [
    (b"", b""),
    (TRANSFERS, TRANSFERS_TEXT),
    (
        b"open plain 1\nset 0 999999999999999999\nadd 0 1\nset 0 1000000000000000000\nadd 0 -999999999999999999\nget 0\n",
        b"ready 0\n+\n- 3\n- 2\n+\n= 0\n",
    ),
    (
        b"open plain 2\nmove 0 0 1\nmove 0 1 1\nmove 0 2 1\nset 2 1000000000000000000\nfoo\n",
        b"ready 0\n- 4\n- 3\n- 1\n- 1\n- 16\n",
    ),
    (
        b"open plain 2\nset 0 5\nswap 0 0\nswap 0 1\ncap 1 3\ncap 1 1000000000000000000\nworld\n",
        b"ready 0\n+\n- 4\n+\n+\n- 2\n0 3\n",
    ),
    (
        b"open plain 2\nset 0 5\ncap 0 6\nswap 1 2\nswap 2 2\ncap 2 3\nswap 1 0\ncap 0 0\nswap 0\ncap 0 -1\nswap  0 1\nworld\n",
        b"ready 0\n+\n+\n- 1\n- 1\n- 1\n+\n+\n- 16\n- 16\n- 16\n0 5\n",
    ),
    // Before the first world that is opened, every other line is a bad one.
    (
        b"get 0\nend\nworld\nopen plain 0\nopen plain 1048577\nopen plain 1\nend",
        b"- 16\n- 16\n- 16\n- 16\n- 16\nready 0\ntick 1\n",
    ),
    (
        b"open plain 1\n\nset 00 1\nset 0 +1\nadd 0 -0\nadd 0 -9223372036854775808\nadd 0 -9223372036854775807\nend\r\nset  0 1\nget 4294967296\n\x00\xff\nworld\n",
        b"ready 0\n- 16\n- 16\n- 16\n- 16\n- 16\n- 2\n- 16\n- 16\n- 16\n- 16\n0\n",
    ),
    (
        b"open plain 1\nimage\nlog\nimage*\nlog*\nfail image\nfail log\nimage\n",
        b"ready 0\nidle\nidle\nidle\nidle\nidle\nidle\nidle\n",
    ),
    (
        b"mark\nimage\nlog\nimage*\nlog*\nfail image\nfail log\ncrash lose\ncrash keep\ncrash fill 00\n",
        b"- 16\n- 16\n- 16\n- 16\n- 16\n- 16\n- 16\n- 16\n- 16\n- 16\n",
    ),
    (
        b"open plain 1\ncrash\ncrash lose \ncrash fill 0\ncrash fill 000\ncrash fill 0A\ncrash fill g0\ncrash fill +1\nfail\nfail mark\nlog *\nmark \n",
        b"ready 0\n- 16\n- 16\n- 16\n- 16\n- 16\n- 16\n- 16\n- 16\n- 16\n- 16\n- 16\n",
    ),
    // A world that is opened later takes the place of the first. A bad opening leaves it as it is.
    (
        b"open plain 1\nset 0 7\nend\nopen quick 1\nopen zigzag 01\nopen  plain 1\nget 0\nopen plain 3\nworld\nend\n",
        b"ready 0\n+\ntick 1\n- 16\n- 16\n- 16\n= 7\nready 0\n0 0 0\ntick 1\n",
    ),
    // The rest of a line that is too long is no line by itself.
    (
        b"open plain 1\nget 0\nget 0000000000000000000000000000000000000000000000000000000000000000000000000000\nget 00000000000000000000000000000000000000000000000000000000000000000000000000000 get 0\nget 0\n",
        b"ready 0\n= 0\n- 16\n- 16\n= 0\n",
    ),
    // A line of one byte more than a line has.
    (
        b"open plain 1\nset 0 5\nget 00000000000000000000000000000000000000000000000000000000000000000000000000000\nget 0\n",
        b"ready 0\n+\n- 16\n= 5\n",
    ),
    (
        b"open plain 1048576\nget 1048575\nget 1048576",
        b"ready 0\n= 0\n- 1\n",
    ),
    (b"\n", b"- 16\n"),
];

// Asserts that a script that is read in pieces of so many bytes has this text.
fn check_pieces(rt: &impl Abort, alloc: Global, input: &[u8], text: &[u8], most: usize) {
    let (ended, page) = run(alloc, input, most);
    assert!(rt; ended == Ok(()), "in pieces of {most}");
    assert!(rt; page.written() == text, "in pieces of {most}");
}

#[test]
fn scripts_have_their_text(rt: HostRuntime) {
    for (input, text) in SCRIPTS {
        for most in [1, 3, 512] {
            check_pieces(&rt, rt.alloc(), input, text, most);
        }
    }
}

// A script, and its text.
#[derive(Drop)]
struct Script {
    input: Vec<u8>,
    text: Vec<u8>,
}

impl Script {
    fn new(alloc: Global) -> Self {
        Script {
            input: Vec::new(alloc),
            text: Vec::new(alloc),
        }
    }

    // Adds lines and their answers.
    fn say(&mut self, rt: &impl Abort, lines: &[u8], answers: &[u8]) {
        self.input.extend_from_slice(lines).expect(rt, "memory");
        self.text.extend_from_slice(answers).expect(rt, "memory");
    }

    // Asserts that a run writes the text.
    fn check(&self, rt: &impl Abort, alloc: Global) {
        let mut reader = self.input.as_slice();
        let mut out = Vec::new(alloc);
        let ended = run_script(alloc, &mut reader, &mut out);
        assert!(rt; ended == Ok(()) && out.as_slice() == self.text.as_slice());
    }
}

#[test]
fn a_full_tick_takes_no_more(rt: HostRuntime) {
    let mut script = Script::new(rt.alloc());
    script.say(&rt, b"open plain 1\n", b"ready 0\n");
    for _ in 0..256 {
        script.say(&rt, b"add 0 1\n", b"+\n");
    }
    script.say(&rt, b"add 0 1\nget 0\n", b"- 5\n= 256\n");
    script.check(&rt, rt.alloc());
}

// Every method of a store.
const METHODS: [&[u8]; 5] = [
    b"plain",
    b"zigzag",
    b"pingpong",
    b"zigzag-shared",
    b"pingpong-shared",
];

// Scripts whose text is the same for every store. They begin after the method's name.
const FOR_EACH_STORE: [(&[u8], &[u8]); 18] = [
    // Marks are refused in their order: an open tick, an open round, nothing new.
    (
        b"1\nmark\nset 0 1\nmark\nend\nmark\nmark\n",
        b"ready 0\n- 10\n+\n- 8\ntick 1\nmark 1\n- 9\n",
    ),
    // An empty tick counts.
    (
        b"1\nend\nlog*\ncrash lose\n",
        b"ready 0\ntick 1\nacked 1\nrecovered 1 from 0\n",
    ),
    (
        b"1\nset 0 5\nend\ncrash keep\nget 0\n",
        b"ready 0\n+\ntick 1\nrecovered 0 from 0\n= 0\n",
    ),
    // A torn group, by how many of its calls were made.
    (
        b"1\nset 0 5\nend\nlog\ncrash fill 01\n",
        b"ready 0\n+\ntick 1\nworking\nrecovered 0 from 0\n",
    ),
    (
        b"1\nset 0 5\nend\nlog\nlog\nlog\ncrash fill 01\n",
        b"ready 0\n+\ntick 1\nworking\nworking\nworking\nrecovered 1 from 0\n",
    ),
    (
        b"1\nset 0 5\nend\nlog\nlog\nlog\ncrash fill 00\n",
        b"ready 0\n+\ntick 1\nworking\nworking\nworking\nrecovered 0 from 0\n",
    ),
    (
        b"1\nset 0 5\nend\nlog\nlog\nlog\nlog\ncrash fill 00\n",
        b"ready 0\n+\ntick 1\nworking\nworking\nworking\nacked 1\nrecovered 1 from 0\n",
    ),
    // The image is ahead of the log.
    (
        b"1\nset 0 5\nend\nmark\nset 0 9\nend\nimage*\ncrash lose\nget 0\n",
        b"ready 0\n+\ntick 1\nmark 1\n+\ntick 2\nimage open 1\nrecovered 1 from 1\n= 5\n",
    ),
    // A word that was not written since the newest image.
    (
        b"2\nset 0 5\nset 1 7\nend\nmark\nimage*\nset 1 8\nend\nmark\nimage*\ncrash lose\nworld\n",
        b"ready 0\n+\n+\ntick 1\nmark 1\nimage open 1\n+\ntick 2\nmark 2\nimage open 2\nrecovered 2 from 2\n5 8\n",
    ),
    (
        b"1\nset 0 1\nend\nmark\nimage*\nset 0 2\nend\nmark\nimage*\nset 0 3\nend\nmark\nimage*\nlog*\ncrash lose\nget 0\n",
        b"ready 0\n+\ntick 1\nmark 1\nimage open 1\n+\ntick 2\nmark 2\nimage open 2\n+\ntick 3\nmark 3\nimage open 3\nacked 3\nrecovered 3 from 3\n= 3\n",
    ),
    // The records that an open image has leave the queue: a tick, and older switches with it. The
    // numbers of later ticks continue.
    (
        b"1\nset 0 1\nend\nmark\ncover\nimage*\ncover\nlog*\nset 0 2\nend\nlog*\ncrash lose\nget 0\n",
        b"ready 0\n+\ntick 1\nmark 1\nidle\nimage open 1\nacked 1\nidle\n+\ntick 2\nacked 2\nrecovered 2 from 1\n= 2\n",
    ),
    (
        b"1\nset 0 1\nend\nmark\nimage*\nset 0 2\nend\nmark\nimage*\nset 0 3\nend\nmark\nimage*\ncover\nlog*\ncrash lose\nget 0\n",
        b"ready 0\n+\ntick 1\nmark 1\nimage open 1\n+\ntick 2\nmark 2\nimage open 2\n+\ntick 3\nmark 3\nimage open 3\nacked 3\nidle\nrecovered 3 from 3\n= 3\n",
    ),
    // Nothing is covered while a group is in work, or once the log is down.
    (
        b"1\nset 0 1\nend\nlog\nmark\nimage*\ncover\nlog*\nend\nfail log\ncover\n",
        b"ready 0\n+\ntick 1\nworking\nmark 1\nimage open 1\nidle\nacked 1\ntick 2\nlog down\n- 12\n",
    ),
    // The image keeper is down, and the log continues.
    (
        b"1\nset 0 1\nend\nmark\nfail image\nmark\nset 0 2\nend\nlog*\ncrash lose\n",
        b"ready 0\n+\ntick 1\nmark 1\nimage down\n- 11\n+\ntick 2\nacked 2\nrecovered 2 from 0\n",
    ),
    // The log keeper is down until the restart.
    (
        b"1\nset 0 1\nend\nfail log\nlog\nlog*\nset 0 2\nend\nmark\ncrash lose\nset 0 3\n",
        b"ready 0\n+\ntick 1\nlog down\nlog down\nlog down\n- 12\n- 12\n- 12\nrecovered 0 from 0\n+\n",
    ),
    (
        b"1\nset 0 5\nend\nlog*\ncrash lose\ncrash lose\nget 0\nend\n",
        b"ready 0\n+\ntick 1\nacked 1\nrecovered 1 from 0\nrecovered 1 from 1\n= 5\ntick 2\n",
    ),
    (
        b"3\nset 1 7\nworld\nset 2 1\nend\nset 0 4\nworld\ncrash fill ff\nworld\n",
        b"ready 0\n+\n0 7 0\n+\ntick 1\n+\n4 7 1\nrecovered 0 from 0\n0 0 0\n",
    ),
    (b"1\nget 0\n", b"ready 0\n= 0\n"),
];

// Asserts the text of a script that opens a store by this method and continues with `rest`.
fn check_opened(rt: &impl Abort, alloc: Global, method: &[u8], rest: &[u8], text: &[u8]) {
    let mut script = Script::new(alloc);
    script.say(rt, b"open ", b"");
    script.say(rt, method, b"");
    script.say(rt, b" ", b"");
    script.say(rt, rest, text);
    check_pieces(rt, alloc, &script.input, &script.text, 512);
}

#[test]
fn stores_answer_the_same(rt: HostRuntime) {
    for (rest, text) in FOR_EACH_STORE {
        for method in METHODS {
            check_opened(&rt, rt.alloc(), method, rest, text);
        }
    }
}

// A round of Ping-Pong over two cells, stopped by a crash before its gate is open, or not.
const ROUNDS: [(&[u8], &[u8]); 2] = [
    (
        b"2\nset 0 5\nset 1 7\nend\nmark\nimage*\nset 1 8\nend\nmark\nimage\nimage\nimage\nimage\nimage\nimage\ncrash fill 01\nworld\n",
        b"ready 0\n+\n+\ntick 1\nmark 1\nimage open 1\n+\ntick 2\nmark 2\nworking\nworking\nworking\nworking\nworking\nworking\nrecovered 1 from 1\n5 7\n",
    ),
    (
        b"2\nset 0 5\nset 1 7\nend\nmark\nimage*\nset 1 8\nend\nmark\nimage\nimage\nimage\nimage\nimage\nimage\nimage\nimage\nimage\nimage\ncrash lose\nworld\n",
        b"ready 0\n+\n+\ntick 1\nmark 1\nimage open 1\n+\ntick 2\nmark 2\nworking\nworking\nworking\nworking\nworking\nworking\nworking\nworking\nworking\nimage open 2\nrecovered 2 from 2\n5 8\n",
    ),
];

#[test]
fn a_round_is_cut_off_or_whole(rt: HostRuntime) {
    for (rest, text) in ROUNDS {
        for method in [METHODS[2], METHODS[4]] {
            check_opened(&rt, rt.alloc(), method, rest, text);
        }
    }
}

// Ends so many ticks, each with its answer.
fn end_ticks(rt: &impl Abort, alloc: Global, script: &mut Script, ticks: u64) {
    for tick in 1..=ticks {
        let answer = format!(in alloc; "tick {tick}\n").expect(rt, "memory");
        script.say(rt, b"end\n", answer.as_bytes());
    }
}

// Asserts how many ticks may wait for the log, by this method.
fn fill_queue(rt: &impl Abort, alloc: Global, method: &[u8]) {
    let mut script = Script::new(alloc);
    script.say(rt, b"open ", b"");
    script.say(rt, method, b"");
    script.say(rt, b" 1\n", b"ready 0\n");
    end_ticks(rt, alloc, &mut script, 64);
    script.say(rt, b"end\nlog*\nend\n", b"- 7\nacked 64\ntick 65\n");
    script.check(rt, alloc);
}

#[test]
fn a_full_queue_takes_no_more(rt: HostRuntime) {
    for method in METHODS {
        fill_queue(&rt, rt.alloc(), method);
    }
}

// A tick: a set, a get, an end, and the work of the log.
fn play_tick(rt: &impl Abort, alloc: Global, script: &mut Script, tick: u64) {
    let lines = format!(in alloc; "set 0 {tick}\nget 0\nend\nlog*\n").expect(rt, "memory");
    let answers = format!(in alloc; "+\n= {tick}\ntick {tick}\nacked {tick}\n").expect(
        rt, "memory",
    );
    script.say(rt, lines.as_bytes(), answers.as_bytes());
}

// Runs a script of so many ticks, read in pieces of so many bytes. It takes more than 2,000 reads.
fn read_often(rt: &impl Abort, alloc: Global, ticks: u64, most: usize) {
    let mut script = Script::new(alloc);
    script.say(rt, b"open zigzag 1\n", b"ready 0\n");
    for tick in 1..=ticks {
        play_tick(rt, alloc, &mut script, tick);
    }
    check_reads(rt, alloc, &script, most);
}

fn check_reads(rt: &impl Abort, alloc: Global, script: &Script, most: usize) {
    let mut reader = Pieces {
        bytes: &script.input,
        most,
        calls: 0,
        trouble: Trouble::Never,
    };
    let mut out = Vec::new(alloc);
    let ended = run_script(alloc, &mut reader, &mut out);
    assert!(rt; ended == Ok(()) && reader.calls > 2000);
    assert!(rt; out.as_slice() == script.text.as_slice());
}

// Scripts of some thousand reads: one of 2,406 bytes, given one by one, and one of 4,401 lines.
#[test]
fn many_reads_are_answered(rt: HostRuntime) {
    for (ticks, most) in [(100u64, 1), (1100, 7)] {
        read_often(&rt, rt.alloc(), ticks, most);
    }
}

#[test]
fn answers_to_what_was_read_at_once_take_one_call(rt: HostRuntime) {
    for (most, calls) in [(512, 1), (1, 7)] {
        let (ended, page) = run(rt.alloc(), TRANSFERS, most);
        assert!(rt; ended == Ok(()), "in pieces of {most}");
        assert_eq!(rt; page.calls, calls, "in pieces of {most}");
    }
}

// A writer that takes all, and remembers how many bytes each of its first calls brought.
#[derive(Drop)]
struct Lengths {
    list: [usize; 4],
    calls: usize,
}

impl Write for Lengths {
    fn write(&mut self, buf: &[u8]) -> io::Result<usize> {
        if let Some(length) = self.list.get_mut(self.calls) {
            *length = buf.len();
        }
        self.calls = self.calls.saturating_add(1);
        Ok(buf.len())
    }

    fn flush(&mut self) -> io::Result<()> {
        Ok(())
    }
}

// Answers of 8 and of 600 bytes. They are written once there are 4,096 bytes or more, and the last
// ones at the end.
#[test]
fn long_answers_are_written_as_they_come(rt: HostRuntime) {
    let mut script = Script::new(rt.alloc());
    script.say(&rt, b"open plain 300\n", b"");
    for _ in 0..20 {
        script.say(&rt, b"world\n", b"");
    }
    let mut lengths = Lengths {
        list: [0; 4],
        calls: 0,
    };
    let mut reader = script.input.as_slice();
    let ended = run_script(rt.alloc(), &mut reader, &mut lengths);
    assert!(rt; ended == Ok(()));
    assert_eq!(rt; (lengths.list, lengths.calls), ([4208, 4200, 3600, 0], 3));
}

#[test]
fn interrupted_calls_are_tried_again(rt: HostRuntime) {
    let mut reader = Pieces {
        bytes: TRANSFERS,
        most: 5,
        calls: 0,
        trouble: Trouble::Interrupts,
    };
    let mut page = Page::new(2, Trouble::Interrupts);
    let ended = run_script(rt.alloc(), &mut reader, &mut page);
    assert!(rt; ended == Ok(()));
    assert_eq!(rt; page.written(), TRANSFERS_TEXT);
}

#[test]
fn a_failed_read_leaves_whole_answers(rt: HostRuntime) {
    let answers: [&[u8]; 8] = [
        b"",
        b"ready 0\n",
        b"+\n",
        b"+\n",
        b"= 2\n",
        b"tick 1\n",
        b"- 3\n",
        b"3 2\n",
    ];
    let mut ended_lines = 0usize;
    let mut expected = Page::new(512, Trouble::Never);
    for (place, byte) in TRANSFERS.iter().enumerate() {
        let mut reader = Pieces {
            bytes: TRANSFERS,
            most: 1,
            calls: 0,
            trouble: Trouble::FailsAt(place),
        };
        let mut page = Page::new(512, Trouble::Never);
        let ended = run_script(rt.alloc(), &mut reader, &mut page);
        assert!(rt; ended == Err(Refusal::Device), "at byte {place}");
        assert_eq!(rt; page.written(), expected.written(), "at byte {place}");
        if *byte == b'\n' {
            ended_lines = ended_lines.saturating_add(1);
            let answer = answers.get(ended_lines).copied().unwrap_or(b"");
            let kept = expected.write(answer);
            assert!(rt; kept.is_ok());
        }
    }
}

#[test]
fn a_failed_write_leaves_a_front_of_the_text(rt: HostRuntime) {
    for place in 0..TRANSFERS_TEXT.len() {
        let mut reader = TRANSFERS;
        let mut page = Page::new(1, Trouble::FailsAt(place));
        let ended = run_script(rt.alloc(), &mut reader, &mut page);
        assert!(rt; ended == Err(Refusal::Device), "at byte {place}");
        assert_eq!(rt; page.written(), &TRANSFERS_TEXT[..place], "at byte {place}");
    }
}

#[test]
fn a_full_writer_is_a_fault(rt: HostRuntime) {
    let mut reader = TRANSFERS;
    let mut page = Page::new(0, Trouble::Never);
    let ended = run_script(rt.alloc(), &mut reader, &mut page);
    assert!(rt; ended == Err(Refusal::Device));
    assert_eq!(rt; page.written(), b"".as_slice());
}

// If an allocation is refused, the script ends with `NoMemory` and whole answers, or it
// runs to its end.
#[test]
fn wanting_memory_leaves_whole_answers(rt: HostRuntime) {
    let (ended, page) = run(rt.alloc(), TRANSFERS, 512);
    let fronts: [usize; 8] = [0, 8, 10, 12, 16, 23, 27, 31];
    let whole = page.len == TRANSFERS_TEXT.len();
    assert!(rt;
        if whole {
            ended == Ok(())
        } else {
            ended == Err(Refusal::NoMemory)
        }
    );
    assert!(rt; fronts.contains(&page.len));
    assert!(rt; TRANSFERS_TEXT.starts_with(page.written()));
}

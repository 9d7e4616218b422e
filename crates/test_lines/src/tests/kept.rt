use super::same::same;
use line_grammar::KeptLine;
use std::process::Abort;

fn push_100(rt: &impl Abort, line: &mut KeptLine) {
    for count in 1..=100 {
        line.push(b'7');
        same(rt, line.bytes().len(), count.min(81));
    }
}

#[test]
fn keeps_81_bytes_of_a_line(rt: HostRuntime) {
    let mut line = KeptLine::new(rt.alloc()).expect(&rt, "memory");
    push_100(&rt, &mut line);
    line.clear();
    line.push(b'9');
    same(&rt, line.bytes(), b"9".as_slice());
}

use super::same::same;
use line_grammar::after;

#[test]
fn words_at_the_front(rt: HostRuntime) {
    let number = after(b"open plain 7", b"open plain ");
    same(&rt, number, Some(b"7".as_slice()));
    same(&rt, after(b"open plain", b"open plain "), None);
    same(&rt, after(b"world", b"world"), Some(b"".as_slice()));
}

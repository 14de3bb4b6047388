// Two lines in a caller's own bytes: those of case-a's state 0 and of its start.
use crate::Output;

#[test]
fn lines_stand_in_a_callers_bytes(rt: HostRuntime) {
    let mut bytes = [b'.'; 64];
    let mut out = Output {
        bytes: &mut bytes,
        place: 1,
    };
    out.put_state_line(0, 0, 65535, 0, 3, Some(3));
    out.put_start_line(0, false, 2);
    let end = out.place;
    assert_eq!(rt; end, 28);
    assert_eq!(rt; &bytes[..end + 1], &b".0 o S - 0 F !3\nstart 0 S 2\n."[..]);
}

use crate::wrong::Wrong;
use std::io;

#[test]
fn an_output_that_failed_is_kept(rt: HostRuntime) {
    let failed = io::Error::from(io::ErrorKind::BrokenPipe);
    let kept = match Wrong::from(failed) {
        Wrong::Output(error) => Some(error.kind()),
        Wrong::Bad | Wrong::Refused(_) => None,
    };
    assert_eq!(rt; kept, Some(io::ErrorKind::BrokenPipe));
}

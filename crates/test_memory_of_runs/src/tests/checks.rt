// How a test fails.
use std::alloc::AllocError;
use std::process::Abort;

/// Fails the test unless the answer is right. The message has the text and the number that were asked about.
pub(crate) fn assert_right<R: Abort>(
    rt: &R,
    answer: Result<bool, AllocError>,
    text: &[u8],
    number: usize,
) {
    let right = matches!(answer, Ok(true));
    assert!(rt; right, "{text:?} at {number}: {answer:?}");
}

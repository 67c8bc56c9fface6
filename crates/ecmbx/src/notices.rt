//! What is said on the standard error beside the answers.

use std::alloc::Global;

/// What is said once requests may be sent, of as many as the words of a serving say.
pub fn listening(alloc: Global, count: Option<u32>) -> Option<String> {
    let count = count?;
    let requests = if count == 1 { "request" } else { "requests" };
    let line = format!(in alloc;
        "ecmbx: listening on 127.0.0.1, port 34980, for {count} {requests}"
    );
    line.ok()
}

ghost use Rattle.std.specs.Prelude.{◌≡◌, ◌==◌, ◌<◌, length, IfSome};
ghost use Rattle.std.specs.List.{position};
ghost use Rattle.rip_http.specs.Routes.{path_of, segment_of};

use memchr::memchr;

/// Where the query begins, if there is one.
fn query_start(target: &[u8]) -> Option<usize>
    ensures value { result ≡ position (λ b. b == 63) target.now }
    ensures within { IfSome result (λ start. start < length target.now) }
{
    memchr(b'?', target)
}

/// A target up to its query.
pub(crate) fn path_of(target: &[u8]) -> &[u8]
    ensures { result.now ≡ path_of target.now }
{
    match query_start(target) {
        Some(end) => &target[..end],
        None => target,
    }
}

/// What stands behind `/e/` or `/q/`.
pub(crate) fn segment_of(target: &[u8]) -> &[u8]
    ensures { result.now ≡ segment_of target.now }
{
    let path = path_of(target);
    if path.len() > 3 { &path[3..] } else { b"" }
}

//! Comments (ECMA-262 5.1, 7.4).

ghost use Rattle.std.specs.Prelude.{◌≡◌, ◌≤◌, ◌+◌, length, IfSome};
ghost use Rattle.es5_tree.specs.Literals as spec;

use crate::class::ends_line;

fn begins_with_slash(bytes: &[u8]) -> bool
    ensures { result ≡ spec.begins_with_slash bytes.now }
{
    match bytes {
        [byte, ..] => *byte == b'/',
        [] => false,
    }
}

/// Where a line is over, from the byte behind both slashes on.
fn line_end(bytes: &[u8]) -> Option<usize>
    ensures value { result ≡ spec.line_end 1 bytes.now }
    ensures within { IfSome result (λ end. end ≤ length bytes.now + 1) }
{
    let mut rest = bytes;
    let mut size = 1;
    'line: while let [byte, more @ ..] = rest {
        if ends_line(*byte) {
            return Some(size);
        }
        if !byte.is_ascii() {
            return None;
        }
        size += 1;
        rest = more;
    }
    Some(size)
}

/// Where the next `*/` is over, from the byte behind `/*` on.
fn block_end(bytes: &[u8]) -> Option<usize>
    ensures value { result ≡ spec.block_end 1 bytes.now }
    ensures within { IfSome result (λ end. end ≤ length bytes.now + 1) }
{
    let mut rest = bytes;
    let mut size = 1;
    'block: while let [byte, more @ ..] = rest {
        if *byte == b'*' && begins_with_slash(more) {
            return Some(size + 2);
        }
        if !byte.is_ascii() {
            return None;
        }
        size += 1;
        rest = more;
    }
    None
}

/// How many bytes a comment has behind its first slash; none where it is not whole or has another
/// character than those of ASCII.
#[tactic(auto, unfolding(es5_tree::specs::Literals::comment_size))]
pub fn comment_size(bytes: &[u8]) -> Option<usize>
    ensures value { result ≡ spec.comment_size bytes.now }
    ensures within { IfSome result (λ size. size ≤ length bytes.now) }
{
    match bytes {
        [b'/', more @ ..] => line_end(more),
        [b'*', more @ ..] => block_end(more),
        _ => None,
    }
}

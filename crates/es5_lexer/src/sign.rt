//! Signs (ECMA-262 5.1, 7.7).

ghost use Rattle.std.specs.Prelude.{◌≡◌, map};
ghost use Rattle.es5_tree.specs.Signs as spec;

use es5_tree::{SIGNS, Sign};

fn first_of(mut entries: &[(&[u8], Sign)], bytes: &[u8]) -> Option<(Sign, usize)>
    ensures { result ≡ spec.first_of (map (λ entry. (entry.0.now, entry.1)) entries.entry.now) bytes.now }
{
    'entries: while let [entry, more @ ..] = entries {
        if bytes.starts_with(entry.0) {
            return Some((entry.1, entry.0.len()));
        }
        entries = more;
    }
    None
}

/// The longest entry of the table that stands at the front, and how many bytes it has.
#[tactic(auto, unfolding(es5_tree::specs::Signs::sign_at))]
pub fn sign_at(bytes: &[u8]) -> Option<(Sign, usize)>
    ensures { result ≡ spec.sign_at bytes.now }
{
    first_of(&SIGNS, bytes)
}
